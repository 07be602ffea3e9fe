// Backjumping: how much of the trail a learned clause leaves.
ghost use Rattle.std.specs.Prelude.{◌≡◌, ◌<◌, ◌≤◌, length, MatchOption};
ghost use Rattle.sa_core.specs.TrailView.{lits_of, Stands};
ghost use Rattle.sa_core.specs.SolverView.{IsLastDecision, IsWithin};
ghost use Rattle.sa_core.specs.Analysis.{IsHeight, IsHighest, NoHighest, IsPairOf, IsFirstDecision, AreFalseBefore};

use crate::pair::Pair;
use crate::trail::Trail;
use cn_clauses::{Lit, literal_laws};

/// The least length of the trail at which these literals are false.
pub fn height(trail: &Trail, lits: &[Lit]) -> usize
    requires within { IsWithin trail.now.variables lits.now }
    requires opposed { AreFalseBefore (lits_of trail.now.steps) lits.now }
    ensures { IsHeight (lits_of trail.now.steps) lits.now result }
{
    literal_laws();
    let mut height = 0;
    for lit in lits {
        match trail.place_of(lit.opposite()) {
            None => {}
            Some(place) => {
                if height <= place {
                    height = place + 1;
                }
            }
        }
    }
    height
}

// The literal that became false just before a height.
fn highest(trail: &Trail, lits: &[Lit], limit: usize) -> Option<Lit>
    requires { IsWithin trail.now.variables lits.now }
    ensures { MatchOption result (NoHighest (lits_of trail.now.steps) lits.now limit) (λ lit. IsHighest (lits_of trail.now.steps) lits.now limit lit) }
{
    literal_laws();
    for lit in lits {
        if let Some(place) = trail.place_of(lit.opposite()) {
            if place + 1 == limit {
                return Some(*lit);
            }
        }
    }
    None
}

/// The pair of a learned clause of which all literals but the first are false before a height.
pub fn pair_of(trail: &Trail, lits: &[Lit], limit: usize) -> Pair
    requires within { IsWithin trail.now.variables lits.now }
    requires some { 0 < length lits.now }
    ensures { IsPairOf (lits_of trail.now.steps) lits.now limit result }
{
    let first = lits[0];
    match highest(trail, &lits[1..], limit) {
        Some(second) => Pair {
            first,
            second,
            hint: 0,
        },
        None => Pair {
            first,
            second: first,
            hint: 0,
        },
    }
}

/// The first decision from a place on, where the mark is one.
pub fn first_decision(trail: &Trail, from: usize, mark: usize) -> usize
    requires mark { IsLastDecision trail.now.steps mark }
    requires from { from ≤ mark }
    ensures { IsFirstDecision trail.now.steps from result }
{
    for place in from..mark {
        if trail.steps.at(place).reason.is_none() {
            return place;
        }
    }
    mark
}
