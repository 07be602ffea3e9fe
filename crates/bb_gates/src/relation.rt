// How two operands of a gate stand to each other.
ghost use Rattle.bb_gates.specs.Calls.Folding.{IsRelation};

use crate::signs::opposed;
use cn_clauses::{Formula, Lit, literal_laws};

/// Two operands that are equal or opposite, or of which one is a constant, or none of these.
#[derive(Clone, Copy)]
pub(crate) enum Relation {
    Equal,
    Opposite,
    FirstIs(bool),
    SecondIs(bool),
    Free,
}

pub fn relation_of(formula: &Formula, a: Lit, b: Lit) -> Relation
    ensures { IsRelation formula.now a b result }
{
    literal_laws();
    if a == b {
        return Relation::Equal;
    }
    if a == opposed(b) {
        return Relation::Opposite;
    }
    match (formula.constant(a), formula.constant(b)) {
        (Some(value), _) => Relation::FirstIs(value),
        (None, Some(value)) => Relation::SecondIs(value),
        (None, None) => Relation::Free,
    }
}
