// Arrays of the heap, and places in them.
ghost use Rattle.std.specs.Prelude.{◌≡◌};
ghost use Rattle.std.specs.Option.{option_copied};
ghost use Rattle.vm_object.specs.Places as specs;

use crate::effect::ArrayEffect;
use crate::element::{ElementType, element_type, takes};
use cf_code::Element;
use jv_base::{Kind, Name, Value};
use vm_world::{Heap, Object};

fn descriptor_of(object: &Object) -> Option<&Name>
    ensures { option_copied result ≡ specs.descriptor_of object.now }
{
    match object {
        Object::Array(descriptor, _) => Some(descriptor),
        _ => None,
    }
}

/// The descriptor of the element type of the array of a number.
pub fn element_descriptor(heap: &Heap, number: u64) -> Option<&Name>
    ensures { option_copied result ≡ specs.element_descriptor heap.now number }
{
    match heap.find(number) {
        Some(object) => descriptor_of(object),
        None => None,
    }
}

/// The element type of the array of a number, if an instruction takes that array.
fn taken(heap: &Heap, element: Element, number: u64) -> Option<ElementType>
    ensures { result ≡ specs.taken element (specs.element_descriptor heap.now number) }
{
    let held = element_type(element_descriptor(heap, number)?)?;
    if takes(element, held) {
        Some(held)
    } else {
        None
    }
}

/// The number and the element type of the array that a load or a store works on, or what it does where there is none.
pub(crate) fn array_for(
    heap: &Heap,
    element: Element,
    reference: Option<u64>,
) -> Result<(u64, ElementType), ArrayEffect>
    ensures { result ≡ specs.array_for heap.now element reference }
{
    let Some(number) = reference else {
        return Err(ArrayEffect::Raises(Kind::Null));
    };
    match taken(heap, element, number) {
        Some(held) => Ok((number, held)),
        None => Err(ArrayEffect::Sticks),
    }
}

/// The element at an index, which may be outside.
pub(crate) fn element_in(heap: &Heap, number: u64, index: i32) -> Option<Value>
    ensures { result ≡ specs.element_in heap.now number index }
{
    if index < 0 {
        None
    } else {
        heap.element(number, index as u32)
    }
}
