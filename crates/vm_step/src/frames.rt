// The frames, of which the running one is the last.
ghost use Rattle.std.specs.Prelude.{◌≡◌, ◌+◌, ◌-◌, ◌≤◌, ◌<◌, ◌++◌, option_to_list, length, OnOk, OnErr};
ghost use Rattle.std.specs.Option.{option_copied};
ghost use Rattle.vm_frame.specs.Operands.{without};
ghost use Rattle.vm_step.specs.Frames as specs;

use jv_base::{List, Mem, Value};
use std::alloc::Global;
use std::mem;
use vm_world::{Frame, State};

/// The running frame, if there is one.
pub(crate) fn running(frames: &[Frame]) -> Option<&Frame>
    ensures { option_copied result ≡ specs.running frames.now }
{
    frames.last()
}

/// The frames below the running one.
pub(crate) fn below(frames: &[Frame]) -> &[Frame]
    ensures { result.now ≡ specs.below frames.now }
{
    &frames[..frames.len().saturating_sub(1)]
}

/// Takes the running frame off.
pub(crate) fn take_off(frames: &mut List<Frame>)
    ensures { frames.new ≡ specs.below frames.old }
{
    let kept = frames.length().saturating_sub(1);
    frames.truncate(kept);
}

/// Puts a value on the stack of a frame, if there is one, and the frame to a pc. For want of memory the frame stays.
fn give(frame: &mut Frame, pc: u16, value: Option<Value>) -> Mem<()>
    ensures ok { OnOk result (frame.new ≡ specs.given pc value frame.old) }
    ensures unchanged { OnErr result (frame.new ≡ frame.old) }
{
    if let Some(value) = value {
        frame.stack.add(value)?;
    }
    frame.pc = pc;
    Ok(())
}

/// Takes the running frame off, and gives to the one below it. For want of memory the frames stay.
pub(crate) fn give_back(
    alloc: Global,
    frames: &mut List<Frame>,
    pc: u16,
    value: Option<Value>,
) -> Mem<()>
    requires { 2 ≤ length frames.old }
    ensures ok { OnOk result (frames.new ≡ specs.with_running (specs.given pc value) (specs.below frames.old)) }
    ensures unchanged { OnErr result (frames.new ≡ frames.old) }
{
    let caller = frames.length() - 2;
    let mut items = mem::replace(frames, List::new(alloc)).into_vec();
    let gave = give(&mut items[caller], pc, value);
    *frames = List::from_vec(items);
    gave?;
    take_off(frames);
    Ok(())
}

/// Takes values off a stack, and puts one on it, if there is one. For want of memory the stack stays.
fn replace(stack: &mut List<Value>, count: usize, value: Option<Value>) -> Mem<()>
    ensures ok { OnOk result (stack.new ≡ without count stack.old ++ option_to_list value) }
    ensures unchanged { OnErr result (stack.new ≡ stack.old) }
{
    let size = stack.length();
    let kept = size.saturating_sub(count);
    let Some(value) = value else {
        stack.truncate(kept);
        return Ok(());
    };
    if kept < size {
        stack.set(kept, value);
        stack.truncate(kept + 1);
        Ok(())
    } else {
        stack.add(value)
    }
}

/// The same with a frame, which goes to a pc. For want of memory the frame stays.
fn execute(frame: &mut Frame, pc: u16, count: usize, value: Option<Value>) -> Mem<()>
    ensures ok { OnOk result (frame.new ≡ specs.executed pc count value frame.old) }
    ensures unchanged { OnErr result (frame.new ≡ frame.old) }
{
    replace(&mut frame.stack, count, value)?;
    frame.pc = pc;
    Ok(())
}

/// The same with the running frame, if there is one. For want of memory the frames stay.
fn execute_in(
    alloc: Global,
    frames: &mut List<Frame>,
    pc: u16,
    count: usize,
    value: Option<Value>,
) -> Mem<()>
    ensures ok { OnOk result (frames.new ≡ specs.with_running (specs.executed pc count value) frames.old) }
    ensures unchanged { OnErr result (frames.new ≡ frames.old) }
{
    let size = frames.length();
    if size == 0 {
        return Ok(());
    }
    let mut items = mem::replace(frames, List::new(alloc)).into_vec();
    let executed = execute(&mut items[size - 1], pc, count, value);
    *frames = List::from_vec(items);
    executed?;
    Ok(())
}

/// Goes on in the running frame, at a pc, with so many values taken from its stack and one put on it, if there is one: as
/// behind a call of a method of the library. For want of memory the state stays.
pub fn go_on(
    alloc: Global,
    pc: u16,
    count: usize,
    value: Option<Value>,
    state: &mut State,
) -> Mem<()>
    ensures ok { OnOk result (state.new ≡ specs.gone_on pc count value state.old) }
    ensures unchanged { OnErr result (state.new ≡ state.old) }
{
    execute_in(alloc, &mut state.frames, pc, count, value)
}
