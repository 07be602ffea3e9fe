// Whether the bytes of a method are instructions, each as a whole, and each jump goes to one of them.
ghost use Rattle.std.specs.Prelude.{◌≡◌, ◌<◌, ◌≤◌, ◌↔◌, length, slice_get, true, IsTrue, IfOk, IfSome, IfNone, MatchOption};
ghost use Rattle.cf_thin.specs.Instr.{target_of, instr_at};
ghost use Rattle.cf_thin.specs.ThinCode.{HasInstrs};
ghost use Rattle.cf_thin.specs.Calls.Passes.{AreStarts, AreWhole, IsAimed, AreAimed, GoesOn};

use crate::instr::{ThinInstr, target_of_instr, thin_instr_at};
use jv_base::Mem;
use std::alloc::Global;

/// Whether code is instructions, whose jumps go to instructions (JVM Specification SE 8, 4.9.1).
pub(crate) fn has_instrs(alloc: Global, code: &[Option<(ThinInstr, u16)>]) -> Mem<bool>
    requires { length code.now ≤ 65535 }
    ensures { IfOk result (λ b. IsTrue b ↔ HasInstrs code.now) }
{
    if code.is_empty() {
        return Ok(false);
    }
    match starts_of(alloc, code)? {
        None => Ok(false),
        Some(starts) => Ok(are_aimed(code, &starts)),
    }
}

/// Of each byte, whether an instruction begins there. None where the code does not split into instructions.
fn starts_of(alloc: Global, code: &[Option<(ThinInstr, u16)>]) -> Mem<Option<Vec<bool>>>
    requires long { length code.now ≤ 65535 }
    requires filled { 0 < length code.now }
    ensures some { IfOk result (λ found. IfSome found (λ starts. AreStarts code.now starts.items × AreWhole code.now)) }
    ensures none { IfOk result (λ found. IfNone found (AreWhole code.now → ⊥)) }
{
    let mut starts = Vec::with_capacity(alloc, code.len())?;
    let mut next: u16 = 0;
    for pc in 0..code.len() as u16 {
        let Some(after) = next_start(code, pc, next) else {
            return Ok(None);
        };
        starts.push(pc == next)?;
        next = after;
    }
    Ok(Some(starts))
}

/// Where the next instruction begins when `pc` is passed, and began from `pc` on at `next`.
fn next_start(code: &[Option<(ThinInstr, u16)>], pc: u16, next: u16) -> Option<u16>
    requires { length code.now ≤ 65535 }
    ensures { MatchOption result ((pc ≡ next) × (instr_at code.now pc ≡ None)) (λ after. GoesOn code.now pc next after) }
{
    if pc != next {
        return Some(next);
    }
    let (_, after) = thin_instr_at(code, pc)?;
    Some(after)
}

/// Whether each jump goes to where an instruction begins.
fn are_aimed(code: &[Option<(ThinInstr, u16)>], starts: &[bool]) -> bool
    requires long { length code.now ≤ 65535 }
    requires starts { AreStarts code.now starts.now }
    ensures { IsTrue result ↔ AreAimed code.now }
{
    for (pc, begins) in starts.iter().enumerate() {
        if *begins && !is_aimed(code, starts, pc as u16) {
            return false;
        }
    }
    true
}

/// Whether the jump at a pc, if there is one, goes to where an instruction begins.
fn is_aimed(code: &[Option<(ThinInstr, u16)>], starts: &[bool], pc: u16) -> bool
    requires long { length code.now ≤ 65535 }
    requires starts { AreStarts code.now starts.now }
    ensures { IsTrue result ↔ IsAimed code.now pc }
{
    let Some((instr, _)) = thin_instr_at(code, pc) else {
        return true;
    };
    match target_of_instr(instr) {
        None => true,
        Some(target) => begins_at(starts, target),
    }
}

/// Whether an instruction begins at a pc.
fn begins_at(starts: &[bool], pc: u16) -> bool
    ensures { IsTrue result ↔ (slice_get starts.now pc ≡ Some true) }
{
    let pc = usize::from(pc);
    pc < starts.len() && starts[pc]
}
