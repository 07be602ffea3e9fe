// The code of a method as a list of instructions, or the first place where it is none.
ghost use Rattle.std.specs.Prelude.{◌≡◌, ◌^◌, ◌<◌, ◌↔◌, ℕ, IsTrue, IfOk, IfSome, Ok, Err, Some, All, Contains, length, take};
ghost use Rattle.std.specs.List.{AllByRecursion};
ghost use Rattle.cf_code.specs.Instr.{IsInstr};
ghost use Rattle.cf_code.specs.Sizes.{HasSize};
ghost use Rattle.cf_code.specs.Steps.Starts.{Marks, IsOnlyInstr};
ghost use Rattle.cf_code.specs.Decoding.{HasStarts, HasTargets, IsCode, HasBadOpcode, HasBadTarget, BeginsWith, EndsAs};

use crate::code::Placed;
use crate::fault::CodeFault;
use crate::instr::{Instr, read_instr};
use crate::size::instr_size;
use crate::target::targets;
use jv_base::{List, Mem};
use std::alloc::Global;

/// The pcs at which the instructions begin, by their sizes alone, and where the next would: the length of the bytes, or the
/// first pc at which there is none.
fn starts_of(alloc: Global, bytes: &[u8]) -> Mem<(Vec<u16>, u16)>
    requires { length bytes.now < 2 ^ 16 }
    ensures { IfOk result (λ r. HasStarts bytes.now r.0.items r.1) }
{
    let mut starts = Vec::new(alloc);
    let mut pc = 0;
    while let Some(size) = instr_size(pc, &bytes[usize::from(pc)..]) {
        starts.push(pc)?;
        pc += size as u16;
    }
    Ok((starts, pc))
}

/// The pcs at which instructions begin, and for each byte whether one begins there.
#[derive(Drop)]
struct Starts {
    pcs: Vec<u16>,
    marks: Vec<bool>,
    ghost marked: { Marks marks.items pcs.items },
}

/// The starts, with a mark for each of so many bytes.
fn marks_of(alloc: Global, pcs: Vec<u16>, count: usize) -> Mem<Starts>
    requires { All (λ pc. pc < count) pcs.items }
    ensures { IfOk result (λ starts. starts.pcs.items ≡ pcs.items) }
{
    let mut marks = vec![in alloc; false; count]?;
    for pc in &pcs {
        marks[usize::from(*pc)] = true;
    }
    Ok(Starts { pcs, marks })
}

/// Whether an instruction begins at a target.
fn is_start(starts: &Starts, target: u16) -> bool
    ensures { IsTrue result ↔ Contains starts.now.pcs.items target }
{
    starts
        .marks
        .get(usize::from(target))
        .copied()
        .unwrap_or(false)
}

/// Whether an instruction begins at each target.
fn are_starts(starts: &Starts, targets: &[u16]) -> bool
    ensures { IsTrue result ↔ AllByRecursion (λ target. Contains starts.now.pcs.items target) targets.now }
{
    for target in targets {
        if !is_start(starts, *target) {
            return false;
        }
    }
    true
}

/// The instruction that these bytes are at a pc, all of them, where each of its targets is a start.
fn read_placed(alloc: Global, starts: &Starts, pc: u16, bytes: &[u8]) -> Mem<Option<Instr>>
    ensures found { IfOk result (λ o. IfSome o (λ i. IsInstr pc bytes.now i × HasTargets starts.now.pcs.items i)) }
    ensures only { (i : Instr) → IsInstr pc bytes.now i → HasTargets starts.now.pcs.items i → IfOk result (λ o. o ≡ Some i) }
{
    let Some(instr) = read_instr(alloc, pc, bytes)? else {
        return Ok(None);
    };
    let targets = targets(alloc, &instr)?;
    if are_starts(starts, targets.as_slice()) {
        Ok(Some(instr))
    } else {
        Ok(None)
    }
}

/// The instruction at the front of the bytes, whose opcode is at a pc, where each of its targets is a start.
fn next_placed(alloc: Global, starts: &Starts, pc: u16, bytes: &[u8]) -> Mem<Option<Instr>>
    ensures found { IfOk result (λ o. IfSome o (λ i. IsOnlyInstr starts.now.pcs.items pc bytes.now i)) }
    ensures only { (size : ℕ) (i : Instr) → HasSize pc bytes.now size → IsInstr pc (take size bytes.now) i → HasTargets starts.now.pcs.items i → IfOk result (λ o. o ≡ Some i) }
{
    match instr_size(pc, bytes) {
        Some(size) => read_placed(alloc, starts, pc, &bytes[..size]),
        None => Ok(None),
    }
}

/// How the instructions that bytes begin with end.
#[derive(Clone, Copy, Debug, PartialEq, Eq)]
pub enum End {
    /// They are all of the bytes, which are code.
    Whole,
    /// No instruction begins there.
    BadOpcode(u16),
    /// The operands of the instruction there are bad.
    BadTarget(u16),
}

/// The instructions that bytes begin with, up to the first fault.
#[derive(Debug, Drop)]
pub struct Walked {
    pub code: List<Placed>,
    pub end: End,
}

/// The instructions that the bytes of a method's code begin with, up to the first fault, and that fault. `decode` tells the
/// fault alone; who judges operands needs the instructions that stand before it.
pub fn walk(alloc: Global, bytes: &[u8]) -> Mem<Walked>
    requires { length bytes.now < 2 ^ 16 }
    ensures begins { IfOk result (λ walk. BeginsWith bytes.now walk.code) }
    ensures end { IfOk result (λ walk. EndsAs bytes.now walk.code walk.end) }
{
    let (pcs, stop) = starts_of(alloc, bytes)?;
    let starts = marks_of(alloc, pcs, bytes.len())?;
    let mut code = Vec::new(alloc);
    for pc in &starts.pcs {
        let rest = &bytes[usize::from(*pc)..];
        let Some(instr) = next_placed(alloc, &starts, *pc, rest)? else {
            let code = List::from_vec(code);
            let end = End::BadTarget(*pc);
            return Ok(Walked { code, end });
        };
        code.push(Placed { pc: *pc, instr })?;
    }
    let code = List::from_vec(code);
    if usize::from(stop) < bytes.len() {
        let end = End::BadOpcode(stop);
        return Ok(Walked { code, end });
    }
    let end = End::Whole;
    Ok(Walked { code, end })
}

/// The instructions that the bytes of a method's code are. A fault is the first one from the left: each byte list is code
/// or has exactly one fault.
pub fn decode(alloc: Global, bytes: &[u8]) -> Result<List<Placed>, CodeFault>
    requires { length bytes.now < 2 ^ 16 }
    ensures found { IfOk result (λ code. IsCode bytes.now code) }
    ensures bad_opcode { (pc : ℕ) → result ≡ Err (CodeFault.BadOpcode pc) → HasBadOpcode bytes.now pc }
    ensures bad_target { (pc : ℕ) → result ≡ Err (CodeFault.BadTarget pc) → HasBadTarget bytes.now pc }
{
    let Walked { code, end } = walk(alloc, bytes)?;
    match end {
        End::Whole => Ok(code),
        End::BadOpcode(pc) => Err(CodeFault::BadOpcode(pc)),
        End::BadTarget(pc) => Err(CodeFault::BadTarget(pc)),
    }
}
