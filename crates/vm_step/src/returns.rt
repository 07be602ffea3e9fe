// The returns.
ghost use Rattle.std.specs.Prelude.{◌≡◌, Some, IfOk, OnErr};
ghost use Rattle.vm_world.specs.declared.frame.Frame.{Frame};
ghost use Rattle.vm_step.specs.Frames.{running as specs_running, below as specs_below};
ghost use Rattle.vm_step.specs.Returns as specs;

use crate::frames::{below, give_back, running, take_off};
use crate::went::FramesWent;
use crate::word::{has_word, word_of};
use cf_code::{Returned, Word};
use jv_base::{Desc, Mem, Ty, Value};
use std::alloc::Global;
use vm_frame::top;
use vm_world::{Frame, Stage, State};

/// The value, if it is of the type that the instruction takes and of the result's type.
fn typed(word: Word, ty: &Ty, value: Option<Value>) -> Option<Option<Value>>
    ensures { result ≡ specs.typed word ty.now value }
{
    let value = value?;
    if has_word(word, value) && has_word(word_of(ty), value) {
        Some(Some(value))
    } else {
        None
    }
}

/// What a return gives: no value, or one. `None` where it does not find that.
fn result_given(returned: Returned, ty: &Option<Ty>, stack: &[Value]) -> Option<Option<Value>>
    ensures { result ≡ specs.result_given returned ty.now stack.now }
{
    match (returned, ty) {
        (Returned::Nothing, None) => Some(None),
        (Returned::Value(word), Some(ty)) => typed(word, ty, top(stack)),
        _ => None,
    }
}

/// What comes of a return from an initialiser, by the frames that are left.
fn went_below(frames: &[Frame]) -> FramesWent
    ensures { result ≡ specs.went_below frames.now }
{
    if frames.is_empty() {
        FramesWent::Ended
    } else {
        FramesWent::Next
    }
}

/// Ends the initialisation of the running frame's class.
fn end_initialiser(state: &mut State) -> FramesWent
    ensures { (frame : Frame) → specs_running state.old.frames ≡ Some frame → (result, state.new) ≡ specs.initialised frame state.old }
{
    if let Some(frame) = running(state.frames.as_slice()) {
        let _ = state.classes.put(&frame.method.class, Stage::Done);
    }
    take_off(&mut state.frames);
    went_below(state.frames.as_slice())
}

/// Goes on in the caller, behind its call. For want of memory the state stays.
fn to_caller(
    alloc: Global,
    behind: Option<u16>,
    value: Option<Value>,
    state: &mut State,
) -> Mem<FramesWent>
    ensures ok { IfOk result (λ went. (went, state.new) ≡ specs.to_caller behind value (specs_running (specs_below state.old.frames)) state.old) }
    ensures unchanged { OnErr result (state.new ≡ state.old) }
{
    if state.frames.length() < 2 {
        state.frames.clear();
        return Ok(FramesWent::Ended);
    }
    match behind {
        Some(pc) => {
            give_back(alloc, &mut state.frames, pc, value)?;
            Ok(FramesWent::Next)
        }
        None => Ok(FramesWent::Stuck),
    }
}

/// Returns from the running method (JVM Specification SE 8, 6.5), whose descriptor is given, to the pc behind the call of
/// its caller. For want of memory the state stays.
pub fn return_step(
    alloc: Global,
    returned: Returned,
    desc: &Desc,
    behind: Option<u16>,
    state: &mut State,
) -> Mem<FramesWent>
    ensures ok { IfOk result (λ went. (went, state.new) ≡ specs.return_step returned desc.now behind state.old) }
    ensures unchanged { OnErr result (state.new ≡ state.old) }
{
    let Some(frame) = running(state.frames.as_slice()) else {
        return Ok(FramesWent::Stuck);
    };
    let Some(value) = result_given(returned, &desc.result, frame.stack.as_slice()) else {
        return Ok(FramesWent::Stuck);
    };
    if frame.initialises {
        return Ok(end_initialiser(state));
    }
    to_caller(alloc, behind, value, state)
}
