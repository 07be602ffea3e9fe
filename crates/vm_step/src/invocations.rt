// Calls of methods with code.
ghost use Rattle.std.specs.Prelude.{◌≡◌, ◌++◌, ◌∷◌, [], length, IfOk, OnOk, OnErr};
ghost use Rattle.std.specs.List.{flat_map};
ghost use Rattle.std.specs.Option.{option_copied};
ghost use Rattle.vm_world.specs.Start.{locals_of, entry_frame};
ghost use Rattle.vm_step.specs.Frames.{running as running_of, with_running};
ghost use Rattle.vm_step.specs.Invocations as specs;

use crate::arguments::call_arguments;
use crate::frames::running;
use crate::went::FramesWent;
use jv_base::{Desc, List, Mem, MethodId, Value};
use std::alloc::Global;
use std::mem;
use vm_world::{Frame, State};

/// The locals that values are in, one behind the other: a long takes two, and the second holds nothing.
fn locals_with(alloc: Global, values: &[Value]) -> Mem<List<Option<Value>>>
    ensures { IfOk result (λ locals. locals ≡ flat_map locals_of values.now) }
{
    let mut locals = List::with_capacity(alloc, values.len())?;
    for value in values {
        locals.add(Some(*value))?;
        if let Value::Long(_) = *value {
            locals.add(None)?;
        }
    }
    Ok(locals)
}

/// A frame of a method, at pc 0, with its arguments in its locals.
fn frame_with(alloc: Global, method: MethodId, values: &[Value]) -> Mem<Frame>
    ensures { IfOk result (λ frame. frame ≡ entry_frame method values.now) }
{
    Ok(Frame {
        method,
        pc: 0,
        locals: locals_with(alloc, values)?,
        stack: List::new(alloc),
        initialises: false,
    })
}

/// The arguments on the stack of the running frame.
fn arguments_in<'a>(receiver: bool, desc: &Desc, frames: &'a [Frame]) -> Option<&'a [Value]>
    ensures { option_copied result ≡ specs.arguments_in receiver desc.now (running_of frames.now) }
{
    let frame = running(frames)?;
    call_arguments(receiver, desc, frame.stack.as_slice())
}

/// Takes values off the stack of a frame.
fn take(frame: &mut Frame, count: usize)
    ensures { frame.new ≡ specs.taken count frame.old }
{
    let kept = frame.stack.length().saturating_sub(count);
    frame.stack.truncate(kept);
}

/// Puts a frame on the others, and takes its arguments off the stack of its caller. For want of memory the frames stay.
fn put_frame(alloc: Global, frames: &mut List<Frame>, count: usize, frame: Frame) -> Mem<()>
    ensures ok { OnOk result (frames.new ≡ with_running (specs.taken count) frames.old ++ frame ∷ []) }
    ensures unchanged { OnErr result (frames.new ≡ frames.old) }
{
    let callers = frames.length();
    frames.add(frame)?;
    if callers > 0 {
        let mut items = mem::replace(frames, List::new(alloc)).into_vec();
        take(&mut items[callers - 1], count);
        *frames = List::from_vec(items);
    }
    Ok(())
}

/// Calls a method with code, by its descriptor, with a receiver or without (JVM Specification SE 8, 6.5). `bound` is the
/// greatest number of frames. The pc of the caller stays. For want of memory the state stays.
pub fn call_step(
    alloc: Global,
    method: MethodId,
    receiver: bool,
    desc: &Desc,
    bound: u8,
    state: &mut State,
) -> Mem<FramesWent>
    ensures ok { IfOk result (λ went. (went, state.new) ≡ specs.call_step method receiver desc.now bound state.old) }
    ensures unchanged { OnErr result (state.new ≡ state.old) }
{
    let Some(values) = arguments_in(receiver, desc, state.frames.as_slice()) else {
        return Ok(FramesWent::Stuck);
    };
    if state.frames.length() >= usize::from(bound) {
        return Ok(FramesWent::Left);
    }
    let count = values.len();
    let frame = frame_with(alloc, method, values)?;
    put_frame(alloc, &mut state.frames, count, frame)?;
    Ok(FramesWent::Next)
}
