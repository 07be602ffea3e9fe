// The whole step of an instruction on arrays.
ghost use Rattle.std.specs.Prelude.{◌≡◌, IfOk, OnErr};
ghost use Rattle.vm_object.specs.ElementTypes.{type_text};
ghost use Rattle.vm_object.specs.Steps as specs;

use crate::effect::{ArrayEffect, ArrayWent, carry_out};
use crate::element::type_text;
use crate::length::length_effect;
use crate::load::load_effect;
use crate::make::make_effect;
use crate::store::store_effect;
use cf_code::Array;
use jv_base::{Mem, Name, Value};
use std::alloc::Global;
use vm_world::{Frame, Heap};

/// What the pool, the classes and the bounds tell of an instruction on arrays.
#[derive(Debug, Drop)]
pub struct Setting {
    /// The descriptor of the type that an anewarray names, if its constant names one.
    pub element: Option<Name>,
    /// Whether the value of an aastore suits the element type of its array.
    pub suits: bool,
    /// How many elements an array may have.
    pub bound: u8,
}

/// The descriptor of the type that a newarray names by its code.
fn named_type(alloc: Global, code: u8) -> Mem<Option<Name>>
    ensures { IfOk result (λ name. name ≡ type_text code) }
{
    match type_text(code) {
        Some(text) => Ok(Some(Name::from_text(alloc, text)?)),
        None => Ok(None),
    }
}

/// What an instruction on arrays does (JVM Specification SE 8, 6.5). Nothing has changed yet.
pub fn array_effect(
    alloc: Global,
    array: Array,
    setting: Setting,
    stack: &[Value],
    heap: &Heap,
) -> Mem<ArrayEffect>
    ensures { IfOk result (λ effect. effect ≡ specs.array_effect array setting stack.now heap.now) }
{
    let Setting {
        element,
        suits,
        bound,
    } = setting;
    Ok(match array {
        Array::Load(name) => load_effect(name, stack, heap),
        Array::Store(name) => store_effect(name, suits, stack, heap),
        Array::New(code) => make_effect(named_type(alloc, code)?, bound, stack),
        Array::NewOf(_) => make_effect(element, bound, stack),
        Array::NewMany(_, _) => ArrayEffect::Sticks,
        Array::Length => length_effect(stack, heap),
    })
}

/// Executes an instruction on arrays, behind which another stands at the pc `next` (JVM Specification SE 8, 6.5). A fault,
/// and what is stuck or left, leave the frame and the heap as they were. For want of memory they stay too.
pub fn array_step(
    alloc: Global,
    array: Array,
    setting: Setting,
    next: u16,
    frame: &mut Frame,
    heap: &mut Heap,
) -> Mem<ArrayWent>
    ensures ok { IfOk result (λ went. (went, frame.new, heap.new) ≡ specs.array_step array setting next frame.old heap.old) }
    ensures unchanged { OnErr result ((frame.new ≡ frame.old) × (heap.new ≡ heap.old)) }
{
    let effect = array_effect(alloc, array, setting, frame.stack.as_slice(), heap)?;
    carry_out(alloc, effect, next, frame, heap)
}
