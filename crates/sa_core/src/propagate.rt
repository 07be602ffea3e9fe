// Propagation: a literal is made true where a clause has no other that is not false, until no clause asks for one.
// After MiniSat's `propagate`: a clause is looked at where a literal that watches it became false.
ghost use Rattle.std.specs.Prelude.{◌≡◌, ◌+◌, ◌<◌, length, slice_get, Some, IfOk, MatchOption};
ghost use Rattle.cn_clauses.specs.Literals.{opposite_of};
ghost use Rattle.sa_core.specs.TrailView.{lits_of};
ghost use Rattle.sa_core.specs.SolverView.{AreWithin, IsWithin};
ghost use Rattle.sa_core.specs.Watching.{AreGuarded, IsPairWithin, IsKept};
ghost use Rattle.sa_core.specs.Calls.Propagate.{IsStale, IsOther, IsSpareAt, AreFalseBut, IsAsked, IsTurning, Visits, VisitsAll, Propagates};

use crate::pair::Pair;
use crate::step::Step;
use crate::store::Store;
use crate::trail::Trail;
use crate::watches::Watchers;
use cn_clauses::{Lit, literal_laws};
use jv_list::Mem;

/// What a clause asks that a literal watched, now that it is false.
#[derive(Clone, Copy, Debug)]
pub enum Asks {
    /// Nothing: the literal does not watch it, or the other one that does is true.
    Nothing,
    /// To be watched by this pair.
    Turn(Pair),
    /// This literal to be true.
    Literal(Lit),
    /// It is false.
    Conflict,
}

// The other literal of a pair.
fn other_of(pair: Pair, lit: Lit) -> Option<Lit>
    ensures { MatchOption result (IsStale pair lit) (λ other. IsOther pair lit other) }
{
    if pair.first == pair.second {
        None
    } else if pair.first == lit {
        Some(pair.second)
    } else if pair.second == lit {
        Some(pair.first)
    } else {
        None
    }
}

// The index of a literal that is not false and not the other one.
fn spare_of(trail: &Trail, lits: &[Lit], other: Lit) -> Option<usize>
    requires { IsWithin trail.now.variables lits.now }
    ensures { MatchOption result (AreFalseBut (lits_of trail.now.steps) lits.now other) (λ index. IsSpareAt (lits_of trail.now.steps) lits.now other index) }
{
    literal_laws();
    for (index, lit) in lits.iter().enumerate() {
        if *lit != other && trail.place_of(lit.opposite()).is_none() {
            return Some(index);
        }
    }
    None
}

// The same, looked for from an index on first. After Gent and CaDiCaL: where the last search ended, the next one goes on.
fn spare_from(trail: &Trail, lits: &[Lit], other: Lit, hint: usize) -> Option<usize>
    requires { IsWithin trail.now.variables lits.now }
    ensures { MatchOption result (AreFalseBut (lits_of trail.now.steps) lits.now other) (λ index. IsSpareAt (lits_of trail.now.steps) lits.now other index) }
{
    let middle = hint.min(lits.len());
    match spare_of(trail, &lits[middle..], other) {
        Some(index) => Some(middle + index),
        None => spare_of(trail, &lits[..middle], other),
    }
}

// What the clause at a place asks, with a pair of literals of which one is false.
fn asked_by(store: &Store, trail: &Trail, place: usize, pair: Pair, lit: Lit) -> Asks
    requires place { place < length store.now }
    requires within { AreWithin trail.now.variables store.now }
    requires pair { IsPairWithin trail.now.variables pair }
    ensures { IsAsked store.now (lits_of trail.now.steps) place pair lit result }
{
    literal_laws();
    let Some(other) = other_of(pair, lit) else {
        return Asks::Nothing;
    };
    let last = match trail.value(other) {
        Some(true) => return Asks::Nothing,
        Some(false) => Asks::Conflict,
        None => Asks::Literal(other),
    };
    let lits = store.at(place);
    match spare_from(trail, lits, other, pair.hint) {
        Some(index) => Asks::Turn(Pair {
            first: lits[index],
            second: other,
            hint: index,
        }),
        None => last,
    }
}

// Does what the clause asks whose place is at an index of the list of a literal. Gives its place where it is false.
fn visit(
    store: &Store,
    watchers: &mut Watchers,
    trail: &mut Trail,
    head: usize,
    lit: Lit,
    index: usize,
) -> Mem<Option<usize>>
    requires { IsTurning trail.old.variables store.now watchers.old trail.old.steps head lit (index + 1) }
    ensures visits { IfOk result (λ found. Visits trail.old.variables store.now watchers.new trail.old.steps trail.new.steps head lit index found) }
    ensures variables { trail.new.variables ≡ trail.old.variables }
{
    literal_laws();
    let place = watchers.place_at(lit, index);
    if place >= store.length() {
        return Ok(None);
    }
    match asked_by(store, trail, place, *watchers.pairs.at(place), lit) {
        Asks::Nothing => {}
        Asks::Turn(pair) => {
            watchers.drop_at(lit, index);
            watchers.turn(place, pair)?;
        }
        Asks::Literal(other) => trail.push(Step {
            lit: other,
            reason: Some(place),
        })?,
        Asks::Conflict => return Ok(Some(place)),
    }
    Ok(None)
}

// Looks at the clauses that a literal watches, which is false since a place of the trail, until one of them is false.
fn visit_all(
    store: &Store,
    watchers: &mut Watchers,
    trail: &mut Trail,
    head: usize,
    lit: Lit,
) -> Mem<Option<usize>>
    requires kept { IsKept trail.old.variables store.now watchers.old trail.old.steps }
    requires falsified { slice_get (lits_of trail.old.steps) head ≡ Some (opposite_of lit) }
    requires guarded { AreGuarded store.now watchers.old.pairs (lits_of trail.old.steps) head (length (lits_of trail.old.steps)) }
    ensures visits { IfOk result (λ found. VisitsAll trail.old.variables store.now watchers.new trail.old.steps trail.new.steps head found) }
    ensures variables { trail.new.variables ≡ trail.old.variables }
{
    literal_laws();
    let mut index = watchers.count(lit);
    while index > 0 {
        index -= 1;
        let found = visit(store, watchers, trail, head, lit, index)?;
        if found.is_some() {
            return Ok(found);
        }
    }
    Ok(None)
}

/// Looks at the clauses that the opposite of each literal from a place of the trail on watches, until none is left or one is
/// false.
pub fn propagate(
    store: &Store,
    watchers: &mut Watchers,
    trail: &mut Trail,
    from: usize,
) -> Mem<Option<usize>>
    requires kept { IsKept trail.old.variables store.now watchers.old trail.old.steps }
    requires guarded { AreGuarded store.now watchers.old.pairs (lits_of trail.old.steps) from (length (lits_of trail.old.steps)) }
    ensures propagates { IfOk result (λ found. Propagates trail.old.variables store.now watchers.new trail.old.steps trail.new.steps found) }
    ensures variables { trail.new.variables ≡ trail.old.variables }
{
    literal_laws();
    let mut head = from;
    while head < trail.steps.length() {
        let lit = trail.steps.at(head).lit.opposite();
        let conflict = visit_all(store, watchers, trail, head, lit)?;
        if conflict.is_some() {
            return Ok(conflict);
        }
        head += 1;
    }
    Ok(None)
}
