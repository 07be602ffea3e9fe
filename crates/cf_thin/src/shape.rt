// The shape of a frame: what is known of its locals and its operand stack, and how an instruction changes it.
ghost use Rattle.std.specs.Prelude.{◌≡◌, ◌≢◌, ◌↔◌, List as list_of, Bool, IsTrue, IfOk, MatchOption, length};
ghost use Rattle.cf_thin.specs.Calls.Passes.{both_known, AreJoined};
ghost use Rattle.cf_thin.specs.declared.shape.Shape.{Shape};
ghost use Rattle.cf_thin.specs.ThinCode.{Steps, takes, leaves, MayStand, LocalsStep, StackSteps};

use crate::instr::ThinInstr;
use ThinInstr::{
    AconstNull, Athrow, Goto, Iconst, IfIcmpeq, IfIcmpne, Ifeq, Ifne, Iload, Ireturn, Istore, Ixor,
    Return,
};
use jv_base::{List, Mem};
use std::alloc::Global;

/// The type of a value on an operand stack (JVM Specification SE 8, 4.10.1.2).
#[derive(Clone, Copy, Debug, PartialEq, Eq, Drop)]
pub enum OperandType {
    Int,
    Reference,
}

/// What is known of a frame where an instruction begins (JVM Specification SE 8, 4.10.1.2). Of each local variable,
/// whether it holds an int. The stack's top is last.
#[derive(Debug, Drop)]
pub struct Shape {
    pub locals: List<bool>,
    pub stack: List<OperandType>,
}

/// What a method says of its code: the locals that its parameters take, whether it gives an int or nothing, and the
/// most words that it may have on its stack and in its locals.
#[derive(Clone, Copy, Debug, PartialEq, Eq)]
pub struct Limits {
    pub params: u16,
    pub gives_int: bool,
    pub max_stack: u16,
    pub max_locals: u16,
}

impl Shape {
    /// The shape after an instruction. None where the instruction does not find what it needs, or leaves too much.
    pub(crate) fn after(
        &self,
        alloc: Global,
        instr: ThinInstr,
        limits: Limits,
    ) -> Mem<Option<Shape>>
        ensures { IfOk result (λ found. MatchOption found ((new : Shape) → Steps limits instr self.now new → ⊥) (λ new. Steps limits instr self.now new)) }
    {
        if !may_stand(instr, limits.gives_int) {
            return Ok(None);
        }
        let Some(locals) = locals_after(alloc, self.locals.as_slice(), instr)? else {
            return Ok(None);
        };
        let Some(stack) = stack_after(alloc, self.stack.as_slice(), instr)? else {
            return Ok(None);
        };
        if stack.length() > usize::from(limits.max_stack) {
            return Ok(None);
        }
        Ok(Some(Shape { locals, stack }))
    }

    /// The shape of two frames that meet. None where their stacks differ.
    pub(crate) fn meet(&self, alloc: Global, other: &Shape) -> Mem<Option<Shape>>
        requires { length self.now.locals ≡ length other.now.locals }
        ensures { IfOk result (λ found. MatchOption found (self.now.stack ≢ other.now.stack) (λ both. AreJoined self.now other.now both)) }
    {
        if self.stack.as_slice() != other.stack.as_slice() {
            return Ok(None);
        }
        let locals = common_locals(alloc, self.locals.as_slice(), other.locals.as_slice())?;
        let stack = List::copied(alloc, other.stack.as_slice())?;
        Ok(Some(Shape { locals, stack }))
    }

    pub(crate) fn copy(&self, alloc: Global) -> Mem<Shape>
        ensures { IfOk result (λ copy. copy ≡ self.now) }
    {
        Ok(Shape {
            locals: List::copied(alloc, self.locals.as_slice())?,
            stack: List::copied(alloc, self.stack.as_slice())?,
        })
    }
}

/// What an instruction takes off the stack, the top last.
fn takes_of(instr: ThinInstr) -> &'static [OperandType]
    ensures { result.now ≡ takes instr }
{
    match instr {
        AconstNull | Iconst(_) | Iload(_) | Goto(_) | Return => &[],
        Istore(_) | Ifeq(_) | Ifne(_) | Ireturn => &[OperandType::Int],
        Ixor | IfIcmpeq(_) | IfIcmpne(_) => &[OperandType::Int, OperandType::Int],
        Athrow => &[OperandType::Reference],
    }
}

/// What an instruction leaves on the stack.
fn leaves_of(instr: ThinInstr) -> &'static [OperandType]
    ensures { result.now ≡ leaves instr }
{
    match instr {
        AconstNull => &[OperandType::Reference],
        Iconst(_) | Iload(_) | Ixor => &[OperandType::Int],
        _ => &[],
    }
}

/// Whether an instruction may stand in a method that gives an int, or nothing.
fn may_stand(instr: ThinInstr, gives_int: bool) -> bool
    ensures { IsTrue result ↔ MayStand instr gives_int }
{
    match instr {
        Ireturn => gives_int,
        Return => !gives_int,
        _ => true,
    }
}

/// The stack after an instruction. None where what it takes is not on top.
fn stack_after(
    alloc: Global,
    stack: &[OperandType],
    instr: ThinInstr,
) -> Mem<Option<List<OperandType>>>
    ensures { IfOk result (λ found. MatchOption found ((new : list_of OperandType) → StackSteps instr stack.now new → ⊥) (λ new. StackSteps instr stack.now new)) }
{
    let Some(rest) = stack.strip_suffix(takes_of(instr)) else {
        return Ok(None);
    };
    let mut after = List::copied(alloc, rest)?;
    after.extend(leaves_of(instr))?;
    Ok(Some(after))
}

/// The locals after an instruction. None where it loads no int, or names a local that there is not.
fn locals_after(alloc: Global, locals: &[bool], instr: ThinInstr) -> Mem<Option<List<bool>>>
    ensures { IfOk result (λ found. MatchOption found ((new : list_of Bool) → LocalsStep instr locals.now new → ⊥) (λ new. LocalsStep instr locals.now new)) }
{
    let mut after = List::copied(alloc, locals)?;
    match instr {
        Iload(index) if locals.get(usize::from(index)).copied() != Some(true) => Ok(None),
        Istore(index) if usize::from(index) >= locals.len() => Ok(None),
        Istore(index) => {
            after.set(usize::from(index), true);
            Ok(Some(after))
        }
        _ => Ok(Some(after)),
    }
}

/// What is known of the locals where two shapes meet: an int where both have one.
fn common_locals(alloc: Global, left: &[bool], right: &[bool]) -> Mem<List<bool>>
    requires { length left.now ≡ length right.now }
    ensures { IfOk result (λ both. both ≡ both_known left.now right.now) }
{
    let mut both = Vec::with_capacity(alloc, left.len())?;
    for (i, known) in left.iter().enumerate() {
        both.push(*known && right[i])?;
    }
    Ok(List::from_vec(both))
}
