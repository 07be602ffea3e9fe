// Minimisation: the literals of a learned clause that its others give are left out. After MiniSat: a literal is spare where the
// clause that made it false has no literal beside it whose opposite was not seen.
ghost use Rattle.std.specs.Prelude.{◌≡◌, ◌<◌, IsTrue, length, slice_get, Some, IfOk};
ghost use Rattle.cn_clauses.specs.Literals.{variable_of, opposite_of};
ghost use Rattle.sa_core.specs.TrailView.{lits_of};
ghost use Rattle.sa_core.specs.SolverView.{AreWithin, IsWithin, AreJustified};
ghost use Rattle.sa_core.specs.Analysis.{IsSeenFalse, AreSeenFalse, IsSpare, IsMinimized};

use crate::store::Store;
use crate::trail::Trail;
use cn_clauses::{Lit, literal_laws};
use jv_list::{List, Mem};
use std::alloc::Global;

// Whether a literal is another one, or became false at a place that was seen.
fn is_given(trail: &Trail, seen: &List<bool>, lit: Lit, but: Lit) -> bool
    requires length { length seen.now ≡ length trail.now.steps }
    requires within { variable_of lit < trail.now.variables }
    ensures { IsTrue result → (lit ≡ but → ⊥) → IsSeenFalse (lits_of trail.now.steps) seen.now lit }
{
    literal_laws();
    if lit == but {
        return true;
    }
    match trail.place_of(lit.opposite()) {
        Some(place) => *seen.at(place),
        None => false,
    }
}

// Whether those of a clause are, but for one.
fn are_given(trail: &Trail, seen: &List<bool>, lits: &[Lit], but: Lit) -> bool
    requires length { length seen.now ≡ length trail.now.steps }
    requires within { IsWithin trail.now.variables lits.now }
    ensures { IsTrue result → AreSeenFalse (lits_of trail.now.steps) seen.now lits.now but }
{
    for lit in lits {
        if !is_given(trail, seen, *lit, but) {
            return false;
        }
    }
    true
}

// Whether a literal that is false may be left out.
fn is_spare(store: &Store, trail: &Trail, seen: &List<bool>, lit: Lit) -> bool
    requires within { AreWithin trail.now.variables store.now }
    requires justified { AreJustified store.now trail.now.steps }
    requires length { length seen.now ≡ length trail.now.steps }
    requires below { variable_of lit < trail.now.variables }
    ensures { IsTrue result → IsSpare store.now (lits_of trail.now.steps) seen.now (opposite_of lit) }
{
    literal_laws();
    let Some(place) = trail.place_of(lit.opposite()) else {
        return false;
    };
    let step = *trail.steps.at(place);
    match step.reason {
        Some(reason) => are_given(trail, seen, store.at(reason), step.lit),
        None => false,
    }
}

/// A literal, and behind it those of the others that are not spare.
pub fn minimized(
    alloc: Global,
    store: &Store,
    trail: &Trail,
    seen: &List<bool>,
    lit: Lit,
    lower: &[Lit],
) -> Mem<List<Lit>>
    requires within { AreWithin trail.now.variables store.now }
    requires justified { AreJustified store.now trail.now.steps }
    requires length { length seen.now ≡ length trail.now.steps }
    requires lower { IsWithin trail.now.variables lower.now }
    ensures { IfOk result (λ lits. IsMinimized store.now (lits_of trail.now.steps) seen.now lit lower.now lits) }
{
    let mut lits = List::new(alloc);
    lits.add(lit)?;
    for other in lower {
        if !is_spare(store, trail, seen, *other) {
            lits.add(*other)?;
        }
    }
    Ok(lits)
}
