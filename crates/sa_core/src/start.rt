// The start of a search: before any decision each clause gets a pair of open literals, unless it is true or asks for its last.
ghost use Rattle.std.specs.Prelude.{◌≡◌, ◌<◌, length, IfOk};
ghost use Rattle.sa_core.specs.TrailView.{lits_of};
ghost use Rattle.sa_core.specs.SolverView.{IsWithin};
ghost use Rattle.sa_core.specs.Watching.{IsKept};
ghost use Rattle.sa_core.specs.Calls.Start.{IsShown, StartsAt, Starts};

use crate::pair::Pair;
use crate::step::Step;
use crate::store::Store;
use crate::trail::Trail;
use crate::watches::Watchers;
use cn_clauses::{Lit, literal_laws};
use jv_list::Mem;

/// What a clause shows under a trail.
#[derive(Clone, Copy, Debug)]
pub enum Shows {
    Truth,
    /// Two literals that are open.
    Open(Pair),
    /// One that is open, while the others are false.
    Literal(Lit),
    Conflict,
}

// What a clause shows.
fn shown_by(trail: &Trail, lits: &[Lit]) -> Shows
    requires { IsWithin trail.now.variables lits.now }
    ensures { IsShown (lits_of trail.now.steps) lits.now result }
{
    let mut single = None;
    for lit in lits {
        match trail.value(*lit) {
            Some(true) => return Shows::Truth,
            Some(false) => {}
            None => match single {
                None => single = Some(*lit),
                Some(other) => {
                    if other != *lit {
                        return Shows::Open(Pair {
                            first: other,
                            second: *lit,
                            hint: 0,
                        });
                    }
                }
            },
        }
    }
    match single {
        Some(lit) => Shows::Literal(lit),
        None => Shows::Conflict,
    }
}

// Gives the clause at a place its pair, or makes true what it asks for. False where it is false.
fn start_at(store: &Store, watchers: &mut Watchers, trail: &mut Trail, place: usize) -> Mem<bool>
    requires place { place < length store.now }
    requires kept { IsKept trail.old.variables store.now watchers.old trail.old.steps }
    ensures starts { IfOk result (λ holds. StartsAt trail.old.variables store.now watchers.old watchers.new trail.old.steps trail.new.steps place holds) }
    ensures variables { trail.new.variables ≡ trail.old.variables }
{
    literal_laws();
    match shown_by(trail, store.at(place)) {
        Shows::Truth => {}
        Shows::Open(pair) => watchers.watch(place, pair)?,
        Shows::Literal(lit) => trail.push(Step {
            lit,
            reason: Some(place),
        })?,
        Shows::Conflict => return Ok(false),
    }
    Ok(true)
}

/// Gives each clause its pair, or makes true what it asks for, until one is false.
pub fn start(store: &Store, watchers: &mut Watchers, trail: &mut Trail) -> Mem<Option<usize>>
    requires kept { IsKept trail.old.variables store.now watchers.old trail.old.steps }
    ensures starts { IfOk result (λ found. Starts trail.old.variables store.now watchers.new trail.old.steps trail.new.steps found) }
    ensures variables { trail.new.variables ≡ trail.old.variables }
{
    for place in 0..store.length() {
        if !start_at(store, watchers, trail, place)? {
            return Ok(Some(place));
        }
    }
    Ok(None)
}
