// The literal of a constant.
ghost use Rattle.std.specs.Prelude.{◌≡◌, ℕ, Bool, IfOk};
ghost use Rattle.cn_clauses.specs.Extension.{IsGate};
ghost use Rattle.bb_gates.specs.Growth.{IsConservative, AddsNoGate};

use crate::signs::opposed;
use cn_clauses::{Formula, Lit};
use jv_list::Mem;
use std::alloc::Global;

/// A literal of the value: the formula's known true literal, or its opposite.
pub fn constant_lit(alloc: Global, formula: &mut Formula, value: bool) -> Mem<Lit>
    ensures gate { IfOk result (λ lit. IsGate formula.old formula.new lit (λ w. value)) }
    ensures keeps { IsConservative formula.old formula.new }
    ensures size { AddsNoGate formula.old formula.new }
{
    let truth = formula.truth(alloc)?;
    Ok(if value { truth } else { opposed(truth) })
}
