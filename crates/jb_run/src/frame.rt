// The frame of a thin method under a guard: what its locals and its operand stack hold, as bits of the encoding.
ghost use Rattle.std.specs.Prelude.{◌≡◌, ◌++◌, ◌∷◌, [], IfOk};
ghost use Rattle.jb_run.specs.Bits.{bits_inside};
ghost use Rattle.jb_run.specs.Encoder as encoder;
ghost use Rattle.jb_run.specs.Locals as locals;
ghost use Rattle.jb_run.specs.Stack as operands;

use crate::formula::Formula;
use crate::gates::{Bit, or};
use crate::int_bits::{IntBits, mux_ints};
use crate::locals::{local_at, with_local};
use jv_base::{List, Mem};
use std::alloc::Global;

/// A value on the operand stack: an int, or the null reference.
#[derive(Clone, Copy, Debug, PartialEq, Eq)]
pub enum Operand {
    Int(IntBits),
    Null,
}

/// A frame before an instruction. It stands for the runs that make the guard true. A local that is past the end of the
/// list, or None, holds nothing.
#[derive(Debug, Drop)]
pub struct Frame {
    pub guard: Bit,
    pub locals: List<Option<IntBits>>,
    pub stack: List<Operand>,
}

impl Frame {
    /// The same values under another guard.
    pub fn under(self, guard: Bit) -> Frame
        ensures { result ≡ record self { guard = guard } }
    {
        let Frame {
            guard: _,
            locals,
            stack,
        } = self;
        Frame {
            guard,
            locals,
            stack,
        }
    }

    /// A copy under another guard.
    pub fn copy_under(&self, alloc: Global, guard: Bit) -> Mem<Frame>
        ensures { IfOk result (λ frame. frame ≡ record self.now { guard = guard }) }
    {
        Ok(Frame {
            guard,
            locals: List::copied(alloc, self.locals.as_slice())?,
            stack: List::copied(alloc, self.stack.as_slice())?,
        })
    }

    /// The int in a local, where it holds one.
    pub fn local(&self, index: u8) -> Option<IntBits>
        ensures { result ≡ locals.local_at self.now.locals index }
    {
        local_at(self.locals.as_slice(), usize::from(index))
    }

    /// The frame with an int in a local.
    pub fn with_local(self, index: u8, word: IntBits) -> Mem<Frame>
        ensures { IfOk result (λ frame. frame ≡ record self { locals = locals.with_local self.locals index word }) }
    {
        let Frame {
            guard,
            locals,
            stack,
        } = self;
        Ok(Frame {
            guard,
            locals: with_local(locals, usize::from(index), word)?,
            stack,
        })
    }

    /// The frame with one more operand on top.
    pub fn with_operand(self, operand: Operand) -> Mem<Frame>
        ensures { IfOk result (λ frame. frame ≡ record self { stack = self.stack ++ operand ∷ [] }) }
    {
        let Frame {
            guard,
            locals,
            mut stack,
        } = self;
        stack.add(operand)?;
        Ok(Frame {
            guard,
            locals,
            stack,
        })
    }

    /// The operand on top, where there is one, and the frame without it.
    pub fn pop(self) -> (Option<Operand>, Frame)
        ensures top { result.0 ≡ operands.top self.stack }
        ensures rest { result.1 ≡ record self { stack = operands.below self.stack } }
    {
        let Frame {
            guard,
            locals,
            stack,
        } = self;
        let mut stack = stack.into_vec();
        let top = stack.pop();
        let rest = Frame {
            guard,
            locals,
            stack: List::from_vec(stack),
        };
        (top, rest)
    }

    /// The int on top, where there is one, and the frame without it.
    pub fn pop_int(self) -> (Option<IntBits>, Frame)
        ensures int { result.0 ≡ bits_inside (operands.top self.stack) }
        ensures rest { result.1 ≡ record self { stack = operands.below self.stack } }
    {
        let (top, rest) = self.pop();
        (bits_inside(top), rest)
    }
}

fn bits_inside(operand: Option<Operand>) -> Option<IntBits>
    ensures { result ≡ bits_inside operand }
{
    match operand {
        Some(Operand::Int(word)) => Some(word),
        _ => None,
    }
}

// The int that shows the first where the choice is true, else the second. None where one of them is none.
fn merge_local(
    alloc: Global,
    formula: &mut Formula,
    choice: Bit,
    first: Option<IntBits>,
    second: Option<IntBits>,
) -> Mem<Option<IntBits>>
    ensures { IfOk result (λ met. encoder.MergeLocal formula.old formula.new choice first second met) }
{
    match (first, second) {
        (Some(first), Some(second)) => {
            Ok(Some(mux_ints(alloc, formula, choice, &first, &second)?))
        }
        _ => Ok(None),
    }
}

fn merge_locals(
    alloc: Global,
    formula: &mut Formula,
    choice: Bit,
    first: &[Option<IntBits>],
    second: &[Option<IntBits>],
) -> Mem<List<Option<IntBits>>>
    ensures { IfOk result (λ met. encoder.MergeLocals formula.old formula.new choice first.now second.now met) }
{
    let mut merged = Vec::new(alloc);
    'pair: for (x, y) in first.iter().zip(second) {
        merged.push(merge_local(alloc, formula, choice, *x, *y)?)?;
    }
    Ok(List::from_vec(merged))
}

fn merge_operand(
    alloc: Global,
    formula: &mut Formula,
    choice: Bit,
    first: Operand,
    second: Operand,
) -> Mem<Operand>
    ensures { IfOk result (λ met. encoder.MergeOperand formula.old formula.new choice first second met) }
{
    match (first, second) {
        (Operand::Int(first), Operand::Int(second)) => Ok(Operand::Int(mux_ints(
            alloc, formula, choice, &first, &second,
        )?)),
        _ => Ok(first),
    }
}

fn merge_stacks(
    alloc: Global,
    formula: &mut Formula,
    choice: Bit,
    first: &[Operand],
    second: &[Operand],
) -> Mem<List<Operand>>
    ensures { IfOk result (λ met. encoder.MergeStacks formula.old formula.new choice first.now second.now met) }
{
    let mut merged = Vec::new(alloc);
    'pair: for (x, y) in first.iter().zip(second) {
        merged.push(merge_operand(alloc, formula, choice, *x, *y)?)?;
    }
    Ok(List::from_vec(merged))
}

/// The frame where two ways meet: it shows the first where the first guard is true, else the second. By the shape rules
/// the stacks are alike, and a local that one of the two does not hold is not read.
pub fn merge(alloc: Global, formula: &mut Formula, first: &Frame, second: &Frame) -> Mem<Frame>
    ensures { IfOk result (λ met. encoder.Merges formula.old formula.new first.now second.now met) }
{
    let choice = first.guard;
    let guard = or(alloc, formula, choice, second.guard)?;
    let locals = merge_locals(
        alloc,
        formula,
        choice,
        first.locals.as_slice(),
        second.locals.as_slice(),
    )?;
    let stack = merge_stacks(
        alloc,
        formula,
        choice,
        first.stack.as_slice(),
        second.stack.as_slice(),
    )?;
    Ok(Frame {
        guard,
        locals,
        stack,
    })
}
