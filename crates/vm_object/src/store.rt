// The stores into arrays.
ghost use Rattle.std.specs.Prelude.{◌≡◌};
ghost use Rattle.vm_object.specs.Stores as specs;

use crate::effect::ArrayEffect;
use crate::element::{ElementType, holds, is_judged, narrowed};
use crate::operand::store_operands;
use crate::place::{array_for, element_in};
use cf_code::Element;
use jv_base::{Kind, Value};
use vm_world::Heap;

/// Whether a value may stand in an array: null in each of references.
fn may_stand(value: Value, suits: bool) -> bool
    ensures { result ≡ specs.may_stand value suits }
{
    match value {
        Value::Ref(Some(_)) => suits,
        _ => true,
    }
}

fn stored(number: u64, index: i32, held: ElementType, value: Value, suits: bool) -> ArrayEffect
    ensures { result ≡ specs.stored number index held value suits }
{
    if may_stand(value, suits) {
        ArrayEffect::Puts(number, index.unsigned_abs(), narrowed(held, value))
    } else {
        ArrayEffect::Raises(Kind::Store)
    }
}

/// What a store into an array does (JVM Specification SE 8, 6.5). `suits` tells whether the value of an aastore suits the
/// element type of the array; it is asked of no other value, and not of null.
pub fn store_effect(element: Element, suits: bool, stack: &[Value], heap: &Heap) -> ArrayEffect
    ensures { result ≡ specs.store_effect element suits stack.now heap.now }
{
    if !is_judged(element) {
        return ArrayEffect::Sticks;
    }
    let Some(operands) = store_operands(stack) else {
        return ArrayEffect::Sticks;
    };
    if !holds(element, operands.value) {
        return ArrayEffect::Sticks;
    }
    match array_for(heap, element, operands.array) {
        Ok((number, held)) => match element_in(heap, number, operands.index) {
            Some(_) => stored(number, operands.index, held, operands.value, suits),
            None => ArrayEffect::Raises(Kind::Bounds),
        },
        Err(effect) => effect,
    }
}
