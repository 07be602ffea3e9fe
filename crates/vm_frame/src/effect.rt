// What an instruction does to its frame, and how it is done.
ghost use Rattle.std.specs.Prelude.{◌≡◌, ◌+◌, ◌-◌, ◌≤◌, ◌++◌, ◌∷◌, [], length, drop, IfOk, OnOk, OnErr};
ghost use Rattle.vm_frame.specs.Operands.{without, values};
ghost use Rattle.vm_frame.specs.Effects.{done};
ghost use Rattle.vm_frame.specs.Calls.Suits.{Suits};

use crate::local::store;
use crate::operand::Operands;
use jv_base::{Kind, List, Mem, Value};
use vm_world::Frame;

/// What an instruction does to its frame, before anything has changed (JVM Specification SE 8, 6.5). A `usize` counts
/// values on top of the operand stack, that are taken. The run goes on at the next instruction, but for `Jumps`.
#[derive(Clone, Copy, Debug, PartialEq, Eq)]
pub enum FrameEffect {
    /// So many values are taken, and this one is put on top.
    Gives(usize, Value),
    /// So many values are taken.
    Drops(usize),
    /// The first values, which are on top, are copied under the second ones, which are below them.
    Copies(Operands, Operands),
    /// The second value, which is on top, and the first below it are exchanged.
    Swaps(Value, Value),
    /// The value, which is on top, is taken into a local.
    Stores(u16, Value),
    /// The local has another value.
    Changes(u16, Value),
    /// So many values are taken, and the run goes on at a pc.
    Jumps(usize, u16),
    /// It raises a fault of this kind.
    Raises(Kind),
    /// It does not find what it takes on the stack or in a local, or it is not supported.
    Sticks,
    /// It needs more than the frame.
    Exceeds,
}

/// What comes of an instruction, as far as the frame tells.
#[derive(Clone, Copy, Debug, PartialEq, Eq)]
pub enum FrameWent {
    /// The run goes on in the frame.
    Next,
    /// The instruction raises a fault of this kind.
    Raised(Kind),
    /// It does not find what it takes on the stack or in a local, or it is not supported.
    Stuck,
    /// It needs more than the frame.
    Other,
}

/// Takes values off a stack.
pub fn take_off(stack: &mut List<Value>, count: usize)
    ensures { stack.new ≡ without count stack.old }
{
    let kept = stack.length().saturating_sub(count);
    stack.truncate(kept);
}

/// Takes values off a stack, and puts one on it. For want of memory the stack stays.
pub fn replace(stack: &mut List<Value>, count: usize, value: Value) -> Mem<()>
    ensures ok { OnOk result (stack.new ≡ without count stack.old ++ value ∷ []) }
    ensures unchanged { OnErr result (stack.new ≡ stack.old) }
{
    let kept = stack.length().saturating_sub(count);
    if kept < stack.length() {
        stack.set(kept, value);
        stack.truncate(kept + 1);
        Ok(())
    } else {
        stack.add(value)
    }
}

/// Puts values at the end. For want of memory the stack stays.
fn put_on(stack: &mut List<Value>, operands: Operands) -> Mem<()>
    ensures ok { OnOk result (stack.new ≡ stack.old ++ values operands) }
    ensures unchanged { OnErr result (stack.new ≡ stack.old) }
{
    match operands {
        Operands::NoOperand => Ok(()),
        Operands::OneOperand(value) => stack.add(value),
        Operands::TwoOperands(under, top) => stack.extend(&[under, top]),
    }
}

/// Puts values in the place of others, the first of which is the lowest of so many on top.
fn put_at(stack: &mut List<Value>, count: usize, operands: Operands)
    requires fits { length (values operands) ≤ count }
    requires there { count ≤ length stack.old }
    ensures { stack.new ≡ without count stack.old ++ values operands ++ drop (length stack.old - count + length (values operands)) stack.old }
{
    let place = stack.length() - count;
    match operands {
        Operands::NoOperand => {}
        Operands::OneOperand(value) => stack.set(place, value),
        Operands::TwoOperands(under, top) => {
            stack.set(place, under);
            stack.set(place + 1, top);
        }
    }
}

/// Copies values on top under those below them. For want of memory the stack stays.
fn copy_under(stack: &mut List<Value>, top: Operands, under: Operands) -> Mem<()>
    requires { length (values top) + length (values under) ≤ length stack.old }
    ensures ok { OnOk result (stack.new ≡ without (length (values top) + length (values under)) stack.old ++ values top ++ values under ++ values top) }
    ensures unchanged { OnErr result (stack.new ≡ stack.old) }
{
    let (above, below) = (top.count(), under.count());
    put_on(stack, top)?;
    put_at(stack, above + below + above, top);
    put_at(stack, below + above, under);
    Ok(())
}

/// Puts two values in the place of the two on top.
fn swap(stack: &mut List<Value>, under: Value, top: Value)
    requires { 2 ≤ length stack.old }
    ensures { stack.new ≡ without 2 stack.old ++ top ∷ under ∷ [] }
{
    put_at(stack, 2, Operands::TwoOperands(top, under));
}

/// Does to a frame what an effect says, with the next instruction at a pc. For want of memory the frame stays.
pub(crate) fn carry_out(effect: FrameEffect, next: u16, frame: &mut Frame) -> Mem<FrameWent>
    requires { Suits effect frame.old }
    ensures ok { IfOk result (λ went. (went, frame.new) ≡ done next effect frame.old) }
    ensures unchanged { OnErr result (frame.new ≡ frame.old) }
{
    let mut pc = next;
    match effect {
        FrameEffect::Gives(count, value) => replace(&mut frame.stack, count, value)?,
        FrameEffect::Drops(count) => take_off(&mut frame.stack, count),
        FrameEffect::Copies(top, under) => copy_under(&mut frame.stack, top, under)?,
        FrameEffect::Swaps(under, top) => swap(&mut frame.stack, under, top),
        FrameEffect::Stores(index, value) => {
            store(&mut frame.locals, index, value)?;
            take_off(&mut frame.stack, 1);
        }
        FrameEffect::Changes(index, value) => frame.locals.set(usize::from(index), Some(value)),
        FrameEffect::Jumps(count, target) => {
            take_off(&mut frame.stack, count);
            pc = target;
        }
        FrameEffect::Raises(kind) => return Ok(FrameWent::Raised(kind)),
        FrameEffect::Sticks => return Ok(FrameWent::Stuck),
        FrameEffect::Exceeds => return Ok(FrameWent::Other),
    }
    frame.pc = pc;
    Ok(FrameWent::Next)
}
