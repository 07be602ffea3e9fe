// The instructions that make an array.
ghost use Rattle.std.specs.Prelude.{◌≡◌};
ghost use Rattle.vm_object.specs.NewArrays as specs;

use crate::effect::ArrayEffect;
use crate::element::{default_value, element_type};
use jv_base::{Kind, Name, Value};
use vm_frame::{int_in, top};

fn made(descriptor: Name, bound: u8, value: Value, count: i32) -> ArrayEffect
    ensures { result ≡ specs.made descriptor bound value count }
{
    if count < 0 {
        ArrayEffect::Raises(Kind::NegSize)
    } else if count <= i32::from(bound) {
        ArrayEffect::Makes(descriptor, count as u32, value)
    } else {
        ArrayEffect::Leaves
    }
}

/// What a newarray or an anewarray does (JVM Specification SE 8, 6.5), by the descriptor of the element type and by how
/// many elements an array may have.
pub fn make_effect(descriptor: Option<Name>, bound: u8, stack: &[Value]) -> ArrayEffect
    ensures { result ≡ specs.make_effect descriptor bound stack.now }
{
    let Some(descriptor) = descriptor else {
        return ArrayEffect::Sticks;
    };
    let Some(held) = element_type(&descriptor) else {
        return ArrayEffect::Sticks;
    };
    match int_in(top(stack)) {
        Some(count) => made(descriptor, bound, default_value(held), count),
        None => ArrayEffect::Sticks,
    }
}
