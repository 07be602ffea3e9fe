// The loads from arrays.
ghost use Rattle.std.specs.Prelude.{◌≡◌};
ghost use Rattle.vm_object.specs.Loads as specs;

use crate::effect::ArrayEffect;
use crate::element::{holds, is_judged};
use crate::operand::reference_and_int;
use crate::place::{array_for, element_in};
use cf_code::Element;
use jv_base::{Kind, Value};
use vm_world::Heap;

fn loaded(element: Element, found: Option<Value>) -> ArrayEffect
    ensures { result ≡ specs.loaded element found }
{
    match found {
        Some(value) => {
            if holds(element, value) {
                ArrayEffect::Gives(2, value)
            } else {
                ArrayEffect::Sticks
            }
        }
        None => ArrayEffect::Raises(Kind::Bounds),
    }
}

/// What a load from an array does (JVM Specification SE 8, 6.5).
pub fn load_effect(element: Element, stack: &[Value], heap: &Heap) -> ArrayEffect
    ensures { result ≡ specs.load_effect element stack.now heap.now }
{
    if !is_judged(element) {
        return ArrayEffect::Sticks;
    }
    let Some((reference, index)) = reference_and_int(stack) else {
        return ArrayEffect::Sticks;
    };
    match array_for(heap, element, reference) {
        Ok((number, _)) => loaded(element, element_in(heap, number, index)),
        Err(effect) => effect,
    }
}
