// Decisions: the last one, and the literal of the next.
ghost use Rattle.std.specs.Prelude.{◌≡◌, ◌<◌, length, MatchOption, IfSome};
ghost use Rattle.cn_clauses.specs.declared.lit.Lit.{Lit};
ghost use Rattle.cn_clauses.specs.Literals.{variable_of};
ghost use Rattle.sa_core.specs.TrailView.{lits_of, IsOpen, AllGiven};
ghost use Rattle.sa_core.specs.SolverView.{IsLastDecision, NoDecision};

use crate::order::Order;
use crate::trail::Trail;
use cn_clauses::{Lit, literal_laws};

/// The place of the last decision.
pub fn last_decision(trail: &Trail) -> Option<usize>
    ensures { MatchOption result (NoDecision trail.now.steps) (λ place. IsLastDecision trail.now.steps place) }
{
    for place in (0..trail.steps.length()).rev() {
        if trail.steps.at(place).reason.is_none() {
            return Some(place);
        }
    }
    None
}

/// A literal of the open variable that comes next in the order, with the value that it had last.
pub fn open_literal(trail: &Trail, order: &mut Order) -> Option<Lit>
    ensures within { IfSome result (λ lit. variable_of lit < trail.now.variables) }
    ensures open { MatchOption result (AllGiven trail.now.variables (lits_of trail.now.steps)) (λ lit. IsOpen (lits_of trail.now.steps) (length (lits_of trail.now.steps)) lit) }
{
    literal_laws();
    for _ in 0..trail.variables {
        let Some(variable) = order.next_variable() else {
            break;
        };
        if variable < trail.variables {
            let lit = Lit::new(variable as u64, order.is_negated(variable));
            if trail.value(lit).is_none() {
                return Some(lit);
            }
        }
    }
    first_open(trail)
}

// The negated literal of the first variable that has no value. There is one only where the order has lost it.
fn first_open(trail: &Trail) -> Option<Lit>
    ensures within { IfSome result (λ lit. variable_of lit < trail.now.variables) }
    ensures open { MatchOption result (AllGiven trail.now.variables (lits_of trail.now.steps)) (λ lit. IsOpen (lits_of trail.now.steps) (length (lits_of trail.now.steps)) lit) }
{
    literal_laws();
    for variable in 0..trail.variables {
        let lit = Lit::new(variable as u64, true);
        if trail.value(lit).is_none() {
            return Some(lit);
        }
    }
    None
}
