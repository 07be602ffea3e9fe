// Exceptions on their way.
ghost use Rattle.std.specs.Prelude.{◌≡◌, length, IfOk, OnOk, OnErr};
ghost use Rattle.vm_step.specs.Frames.{with_running};
ghost use Rattle.vm_step.specs.Throws as specs;

use crate::frames::{running, take_off};
use jv_base::{Kind, List, Mem, Name, Value};
use std::alloc::Global;
use std::mem;
use vm_frame::{reference_in, top};
use vm_world::{Fields, Frame, Object, State};

/// What athrow throws.
#[derive(Clone, Copy, Debug, PartialEq, Eq)]
pub enum Thrown {
    /// The object of this number.
    Throws(u64),
    /// A fault of this kind.
    Raises(Kind),
    /// There is no reference on top.
    Sticks,
}

/// What athrow throws (JVM Specification SE 8, 6.5), before anything has changed.
pub fn athrow_effect(stack: &[Value]) -> Thrown
    ensures { result ≡ specs.athrow_effect stack.now }
{
    match reference_in(top(stack)) {
        Some(Some(number)) => Thrown::Throws(number),
        Some(None) => Thrown::Raises(Kind::Null),
        None => Thrown::Sticks,
    }
}

/// A stack with room for an exception.
fn room(alloc: Global) -> Mem<List<Value>>
    ensures { IfOk result (λ stack. length stack ≡ 1) }
{
    let mut stack = List::new(alloc);
    stack.add(Value::Ref(None))?;
    Ok(stack)
}

/// Puts a frame to a pc, with another stack.
fn enter(frame: &mut Frame, pc: u16, stack: List<Value>)
    ensures { frame.new ≡ record frame.old { pc = pc; stack = stack } }
{
    frame.pc = pc;
    frame.stack = stack;
}

/// The same with the running frame, if there is one.
fn enter_running(alloc: Global, frames: &mut List<Frame>, pc: u16, stack: List<Value>)
    ensures { frames.new ≡ with_running (λ frame. record frame { pc = pc; stack = stack }) frames.old }
{
    let count = frames.length();
    if count == 0 {
        return;
    }
    let mut items = mem::replace(frames, List::new(alloc)).into_vec();
    enter(&mut items[count - 1], pc, stack);
    *frames = List::from_vec(items);
}

/// Drops the running frame; all frames, where it initialises a class.
fn drop_frame(frames: &mut List<Frame>)
    ensures { frames.new ≡ specs.dropped frames.old }
{
    let initialises = match running(frames.as_slice()) {
        Some(frame) => frame.initialises,
        None => false,
    };
    if initialises {
        frames.clear();
    } else {
        take_off(frames);
    }
}

/// The exception of this number meets the running frame, with the stack of a handler's frame at hand.
fn meet(alloc: Global, handler: Option<u16>, number: u64, stack: List<Value>, state: &mut State)
    requires { length stack ≡ 1 }
    ensures { state.new ≡ specs.thrown handler number state.old }
{
    match handler {
        Some(pc) => {
            let mut stack = stack;
            stack.set(0, Value::Ref(Some(number)));
            enter_running(alloc, &mut state.frames, pc, stack);
            state.thrown = None;
        }
        None => {
            drop_frame(&mut state.frames);
            state.thrown = Some(number);
        }
    }
}

/// An exception meets the running frame: it enters the handler, at this pc, or the frame is dropped and the exception is
/// on its way (JVM Specification SE 8, 2.10). For want of memory the state stays.
pub fn throw(alloc: Global, handler: Option<u16>, number: u64, state: &mut State) -> Mem<()>
    ensures ok { OnOk result (state.new ≡ specs.thrown handler number state.old) }
    ensures unchanged { OnErr result (state.new ≡ state.old) }
{
    let stack = room(alloc)?;
    meet(alloc, handler, number, stack, state);
    Ok(())
}

/// Makes the exception of a fault, an object of this class without fields, and lets it meet the running frame as in `throw`.
/// For want of memory the state stays.
pub fn raise(alloc: Global, class: Name, handler: Option<u16>, state: &mut State) -> Mem<()>
    ensures ok { OnOk result (state.new ≡ specs.raised class handler state.old) }
    ensures unchanged { OnErr result (state.new ≡ state.old) }
{
    let stack = room(alloc)?;
    let number = state
        .heap
        .make(Object::Instance(class, Fields::new(alloc)))?;
    meet(alloc, handler, number, stack, state);
    Ok(())
}
