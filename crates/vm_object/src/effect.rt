// What an instruction on arrays does, and how it is done.
ghost use Rattle.std.specs.Prelude.{◌≡◌, ◌<◌, ◌++◌, ◌∷◌, [], length, replicate, IfOk, OnErr};
ghost use Rattle.vm_frame.specs.Operands.{without};
ghost use Rattle.vm_object.specs.Effects.{done};
ghost use Rattle.vm_object.specs.Calls.Suits.{Suits};

use jv_base::{Kind, List, Mem, Name, Value};
use std::alloc::Global;
use vm_frame::{replace, take_off};
use vm_world::{Frame, Heap, Object};

/// What an instruction on arrays does, before anything has changed (JVM Specification SE 8, 6.5). The run goes on at the
/// next instruction.
#[derive(Debug, Drop)]
pub enum ArrayEffect {
    /// So many values are taken, and this one is put on top.
    Gives(usize, Value),
    /// A new array of the element type of this descriptor has so many elements, each of this value. The reference to it
    /// takes the place of the value on top.
    Makes(Name, u32, Value),
    /// Three values are taken, and the array of this number gets an element at a place.
    Puts(u64, u32, Value),
    /// It raises a fault of this kind.
    Raises(Kind),
    /// It does not find what it takes on the stack or in the heap, or it is not supported.
    Sticks,
    /// The array would be longer than the bound allows.
    Leaves,
}

/// What comes of an instruction on arrays.
#[derive(Clone, Copy, Debug, PartialEq, Eq)]
pub enum ArrayWent {
    /// The run goes on in the frame.
    Next,
    /// The instruction raises a fault of this kind.
    Raised(Kind),
    /// It does not find what it takes on the stack or in the heap, or it is not supported.
    Stuck,
    /// The array would be longer than the bound allows.
    Left,
}

/// So many elements of one value.
fn filled(alloc: Global, count: u32, value: Value) -> Mem<List<Value>>
    ensures { IfOk result (λ list. list ≡ replicate count value) }
{
    let mut list = List::with_capacity(alloc, count as usize)?;
    for _ in 0..count {
        list.add(value)?;
    }
    Ok(list)
}

/// Puts a value in the place of the one on top.
fn put_top(stack: &mut List<Value>, value: Value)
    requires { 0 < length stack.old }
    ensures { stack.new ≡ without 1 stack.old ++ value ∷ [] }
{
    let place = stack.length() - 1;
    stack.set(place, value);
}

/// Does what an effect says, with the next instruction at a pc. For want of memory the frame and the heap stay.
pub(crate) fn carry_out(
    alloc: Global,
    effect: ArrayEffect,
    next: u16,
    frame: &mut Frame,
    heap: &mut Heap,
) -> Mem<ArrayWent>
    requires { Suits effect frame.old }
    ensures ok { IfOk result (λ went. (went, frame.new, heap.new) ≡ done next effect frame.old heap.old) }
    ensures unchanged { OnErr result ((frame.new ≡ frame.old) × (heap.new ≡ heap.old)) }
{
    match effect {
        ArrayEffect::Gives(count, value) => replace(&mut frame.stack, count, value)?,
        ArrayEffect::Makes(descriptor, count, value) => {
            let elements = filled(alloc, count, value)?;
            let number = heap.make(Object::Array(descriptor, elements))?;
            put_top(&mut frame.stack, Value::Ref(Some(number)));
        }
        ArrayEffect::Puts(number, place, value) => {
            heap.put_element(number, place, value);
            take_off(&mut frame.stack, 3);
        }
        ArrayEffect::Raises(kind) => return Ok(ArrayWent::Raised(kind)),
        ArrayEffect::Sticks => return Ok(ArrayWent::Stuck),
        ArrayEffect::Leaves => return Ok(ArrayWent::Left),
    }
    frame.pc = next;
    Ok(ArrayWent::Next)
}
