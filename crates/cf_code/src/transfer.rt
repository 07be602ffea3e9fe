// Which instruction can follow which in one frame.
ghost use Rattle.std.specs.Prelude.{◌≡◌, ◌++◌, ◌↔◌, ◌==◌, ℕ, IfOk, OnOk, Contains};
ghost use Rattle.std.specs.List.{flat_map, list_any};
ghost use Rattle.std.specs.List.Sorted.{IsPermutation, IsSorted};
ghost use Rattle.std.specs.Ordering.{nat_cmp};
ghost use Rattle.cf_code.specs.Decoding.{pcs};
ghost use Rattle.cf_code.specs.Transfers.{next_pc, CanFollow, AreInOrder};
ghost use Rattle.cf_code.specs.Steps.Ways.{found_start, next_ways, target_ways, ways, Adds, IsHandled};

use crate::code::Placed;
use crate::handler::put_handlers;
use crate::length::instr_length;
use crate::target::{goes_on, targets};
use jv_base::{List, Mem};
use std::alloc::Global;

/// A row of an exception table (JVM Specification SE 8, 4.7.3): the handler of faults from the start on, below the end. A
/// catch type of 0 is any.
#[derive(Clone, Copy, Debug, PartialEq, Eq)]
pub struct Row {
    pub start: u16,
    pub end: u16,
    pub handler: u16,
    pub catch_type: u16,
}

/// The pairs of pcs of which the second can follow the first in one frame, each once, ordered by the first and then by
/// the second. Rows with one handler are joined first, so time and memory grow with the pairs that there are.
pub fn transfers(alloc: Global, code: &List<Placed>, rows: &List<Row>) -> Mem<List<(u16, u16)>>
    ensures pairs { IfOk result (λ found. (a b : ℕ) → Contains found (a, b) ↔ CanFollow code.now rows.now a b) }
    ensures order { IfOk result AreInOrder }
{
    let starts = sorted_pcs(alloc, code.as_slice())?;
    let mut pairs = Vec::new(alloc);
    for placed in code.as_slice() {
        put_ways(alloc, &mut pairs, starts.as_slice(), placed)?;
    }
    put_handlers(alloc, &mut pairs, starts.as_slice(), rows.as_slice())?;
    pairs.sort_unstable();
    pairs.dedup();
    Ok(List::from_vec(pairs))
}

/// The pcs of instructions, in order.
fn sorted_pcs(alloc: Global, code: &[Placed]) -> Mem<Vec<u16>>
    ensures same { IfOk result (λ starts. IsPermutation (pcs code.now) starts.items) }
    ensures sorted { IfOk result (λ starts. IsSorted nat_cmp starts.items) }
{
    let mut starts = Vec::new(alloc);
    for placed in code {
        starts.push(placed.pc)?;
    }
    starts.sort_unstable();
    Ok(starts)
}

/// Puts the pairs that come of an instruction by itself at the end.
fn put_ways(alloc: Global, out: &mut Vec<(u16, u16)>, starts: &[u16], placed: &Placed) -> Mem<()>
    requires { IsSorted nat_cmp starts.now }
    ensures { OnOk result (out.new.items ≡ out.old.items ++ ways starts.now placed.now) }
{
    put_next(out, starts, placed)?;
    put_targets(alloc, out, placed)
}

/// Puts the pair with the next instruction at the end, where there is one and this one goes on.
fn put_next(out: &mut Vec<(u16, u16)>, starts: &[u16], placed: &Placed) -> Mem<()>
    requires { IsSorted nat_cmp starts.now }
    ensures { OnOk result (out.new.items ≡ out.old.items ++ next_ways starts.now placed.now) }
{
    if !goes_on(&placed.instr) {
        return Ok(());
    }
    let next = usize::from(placed.pc).saturating_add(instr_length(&placed.instr));
    if let Some(next) = find_start(starts, next) {
        out.push((placed.pc, next))?;
    }
    Ok(())
}

/// A pc, where it is one of these, which are sorted.
fn find_start(starts: &[u16], pc: usize) -> Option<u16>
    requires { IsSorted nat_cmp starts.now }
    ensures { result ≡ found_start starts.now pc }
{
    let pc = u16::try_from(pc).ok()?;
    match starts.binary_search(&pc) {
        Ok(_) => Some(pc),
        Err(_) => None,
    }
}

/// Puts the pair with each target at the end.
fn put_targets(alloc: Global, out: &mut Vec<(u16, u16)>, placed: &Placed) -> Mem<()>
    ensures { OnOk result (out.new.items ≡ out.old.items ++ target_ways placed.now) }
{
    let targets = targets(alloc, &placed.instr)?;
    for target in targets.as_slice() {
        out.push((placed.pc, *target))?;
    }
    Ok(())
}
