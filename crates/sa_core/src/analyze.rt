// Analysis: from a clause that is false to the one that is learned, at the first unique implication point.
// The trail is walked from its end: each literal that was seen is replaced by the others of its reason, until one is left
// that stands at the mark or later.
ghost use Rattle.std.specs.Prelude.{◌≡◌, ℕ, ◌+◌, ◌<◌, ◌≤◌, ◌∷◌, [], IsTrue, ◌↔◌, length, slice_get, Some, None, IfOk};
ghost use Rattle.cn_clauses.specs.Literals.{opposite_of};
ghost use Rattle.sa_core.specs.TrailView.{lits_of};
ghost use Rattle.sa_core.specs.SolverView.{AreWithin, IsWithin, AreJustified, IsFalseAt, IsLastDecision};
ghost use Rattle.sa_core.specs.Analysis.{IsSeen, SomeSeen, IsLearnedClause};

use crate::minimize::minimized;
use crate::order::Order;
use crate::store::Store;
use crate::trail::Trail;
use cn_clauses::{Lit, literal_laws};
use jv_list::{List, Mem};
use std::alloc::Global;

// Which places of the trail were seen, and the opposites of the literals that were seen before the mark.
#[derive(Debug, Drop)]
pub struct Seen {
    pub places: List<bool>,
    pub lower: List<Lit>,
}

// Whether a place from one on and before another was seen.
fn some_seen(places: &[bool], from: usize, end: usize) -> bool
    requires { end ≤ length places.now }
    ensures some { IsTrue result → SomeSeen places.now from end }
    ensures none { SomeSeen places.now from end → IsTrue result }
{
    for place in (from..end).rev() {
        if places[place] {
            return true;
        }
    }
    false
}

impl Seen {
    ghost use Rattle.sa_core.specs.Calls.Analyze.{SeesMore};

    // Nothing seen, for a trail of this length.
    fn new(alloc: Global, count: usize) -> Mem<Seen>
        ensures length { IfOk result (λ seen. length seen.places ≡ count) }
        ensures lower { IfOk result (λ seen. seen.lower ≡ []) }
        ensures none { IfOk result (λ seen. (place : ℕ) → IsSeen seen.places place → ⊥) }
    {
        let mut places = Vec::new(alloc);
        places.resize(count, false)?;
        Ok(Seen {
            places: List::from_vec(places),
            lower: List::new(alloc),
        })
    }

    // Sees the opposites of these literals, and raises the variables of those that are seen for the first time.
    fn see(&mut self, trail: &Trail, lits: &[Lit], mark: usize, order: &mut Order) -> Mem<()>
        requires length { length self.old.places ≡ length trail.now.steps }
        requires within { IsWithin trail.now.variables lits.now }
        ensures { IfOk result (λ done. SeesMore (lits_of trail.now.steps) mark self.old self.new lits.now) }
    {
        literal_laws();
        for lit in lits {
            match trail.place_of(lit.opposite()) {
                None => {}
                Some(place) => {
                    if !*self.places.at(place) {
                        self.places.set(place, true);
                        order.raise(*lit);
                        if place < mark {
                            self.lower.add(*lit)?;
                        }
                    }
                }
            }
        }
        Ok(())
    }
}

/// The clause that is learned from the false one at a place, by the steps from the last decision on. Its first literal
/// is the one that was made false last.
pub fn analyze(
    alloc: Global,
    store: &Store,
    trail: &Trail,
    conflict: usize,
    mark: usize,
    order: &mut Order,
) -> Mem<List<Lit>>
    requires within { AreWithin trail.now.variables store.now }
    requires justified { AreJustified store.now trail.now.steps }
    requires conflict { IsFalseAt store.now (lits_of trail.now.steps) conflict }
    requires mark { IsLastDecision trail.now.steps mark }
    ensures { IfOk result (λ lits. IsLearnedClause store.now (lits_of trail.now.steps) mark lits) }
{
    literal_laws();
    let mut seen = Seen::new(alloc, trail.steps.length())?;
    seen.see(trail, store.at(conflict), mark, order)?;
    let mut end = trail.steps.length();
    while end > mark {
        let place = end - 1;
        if *seen.places.at(place) {
            let step = *trail.steps.at(place);
            if !some_seen(seen.places.as_slice(), mark, place) {
                return minimized(
                    alloc,
                    store,
                    trail,
                    &seen.places,
                    step.lit.opposite(),
                    seen.lower.as_slice(),
                );
            }
            if let Some(reason) = step.reason {
                seen.see(trail, store.at(reason), mark, order)?;
            }
        }
        end = place;
    }
    unreachable!()
}
