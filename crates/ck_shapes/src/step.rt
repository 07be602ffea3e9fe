// The instructions of a method, each with what it does and where it goes.
ghost use Rattle.std.specs.Prelude.{◌≡◌, IfOk, map};
ghost use Rattle.ck_shapes.specs.Methods.{pc_behind, next_pcs, step_of};

use crate::families::instr_effect;
use crate::flow::{Action, Step};
use crate::shape::ValueType;
use cf_code::{Placed, goes_on, instr_length, targets};
use cf_pool::PoolEntry;
use jv_list::{List, Mem};
use std::alloc::Global;

/// The pc behind an instruction. None where it is no pc of two bytes.
fn pc_behind(placed: &Placed) -> Option<u16>
    ensures { result ≡ pc_behind placed.now }
{
    let behind = usize::from(placed.pc).saturating_add(instr_length(&placed.instr));
    u16::try_from(behind).ok()
}

/// The pcs that can be next. None where the instruction goes on, and no instruction can stand behind it.
fn next_pcs(alloc: Global, placed: &Placed) -> Mem<Option<List<u16>>>
    ensures { IfOk result (λ o. o ≡ next_pcs placed.now) }
{
    let mut found = targets(alloc, &placed.instr)?;
    if goes_on(&placed.instr) {
        let Some(behind) = pc_behind(placed) else {
            return Ok(None);
        };
        found.add(behind)?;
    }
    Ok(Some(found))
}

/// An instruction of a method with this result, with what it does and where it goes.
fn step_of(alloc: Global, pool: &[PoolEntry], of: Option<ValueType>, placed: &Placed) -> Mem<Step>
    ensures { IfOk result (λ step. step ≡ step_of pool.now of placed.now) }
{
    let effect = instr_effect(alloc, pool, of, &placed.instr)?;
    let nexts = next_pcs(alloc, placed)?;
    let action = match (effect, nexts) {
        (Some(effect), Some(nexts)) => Some(Action { effect, nexts }),
        _ => None,
    };
    Ok(Step {
        pc: placed.pc,
        action,
    })
}

/// The instructions of a method with this result.
pub(crate) fn steps_of(
    alloc: Global,
    pool: &[PoolEntry],
    of: Option<ValueType>,
    code: &[Placed],
) -> Mem<List<Step>>
    ensures { IfOk result (λ steps. steps ≡ map (step_of pool.now of) code.now) }
{
    let mut steps = List::with_capacity(alloc, code.len())?;
    for placed in code {
        steps.add(step_of(alloc, pool, of, placed)?)?;
    }
    Ok(steps)
}
