// The length of an array.
ghost use Rattle.std.specs.Prelude.{◌≡◌};
ghost use Rattle.vm_object.specs.Lengths as specs;

use crate::effect::ArrayEffect;
use jv_base::{Kind, Value};
use vm_frame::{reference_in, top};
use vm_world::{Heap, Object};

fn length_of(object: &Object) -> ArrayEffect
    ensures { result ≡ specs.length_of object.now }
{
    match object {
        Object::Array(_, elements) => match i32::try_from(elements.length()) {
            Ok(length) => ArrayEffect::Gives(1, Value::Int(length)),
            Err(_) => ArrayEffect::Sticks,
        },
        _ => ArrayEffect::Sticks,
    }
}

/// What an arraylength does (JVM Specification SE 8, 6.5).
pub fn length_effect(stack: &[Value], heap: &Heap) -> ArrayEffect
    ensures { result ≡ specs.length_effect stack.now heap.now }
{
    match reference_in(top(stack)) {
        Some(Some(number)) => match heap.find(number) {
            Some(object) => length_of(object),
            None => ArrayEffect::Sticks,
        },
        Some(None) => ArrayEffect::Raises(Kind::Null),
        None => ArrayEffect::Sticks,
    }
}
