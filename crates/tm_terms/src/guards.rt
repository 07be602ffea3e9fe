// Truth values of which one implies the other.
ghost use Rattle.std.specs.Prelude.{◌≡◌, ◌<◌, length, slice_get, Some, IfSome, IsTrue};
ghost use Rattle.tm_terms.specs.declared.op.Op.TheVariants.{And, Or};
ghost use Rattle.tm_terms.specs.Terms.{Fits};
ghost use Rattle.tm_terms.specs.Rules.{IsSame, Implies};

use crate::bank::Bank;
use crate::op::{Op, TermId};

// Whether the first term is a conjunction with the second.
#[tactic(auto, using(crate::proofs::GuardRules::implies_first, crate::proofs::GuardRules::implies_second))]
fn has_conjunct(bank: &Bank, a: TermId, b: TermId) -> bool
    requires { a.0 < length bank.now }
    ensures { IsTrue result → Implies bank.now a b }
{
    bank.laws();
    match *bank.op(a) {
        Op::And(x, _) if x == b => true,
        Op::And(_, y) if y == b => true,
        _ => false,
    }
}

// Whether the second term is a disjunction with the first.
#[tactic(auto, using(crate::proofs::GuardRules::first_implies, crate::proofs::GuardRules::second_implies))]
fn is_disjunct(bank: &Bank, a: TermId, b: TermId) -> bool
    requires { b.0 < length bank.now }
    ensures { IsTrue result → Implies bank.now a b }
{
    bank.laws();
    match *bank.op(b) {
        Op::Or(x, _) if x == a => true,
        Op::Or(_, y) if y == a => true,
        _ => false,
    }
}

// Whether the first of two truth values implies the second by what they are.
fn implies(bank: &Bank, a: TermId, b: TermId) -> bool
    requires first { a.0 < length bank.now }
    requires second { b.0 < length bank.now }
    ensures { IsTrue result → Implies bank.now a b }
{
    if has_conjunct(bank, a, b) {
        true
    } else {
        is_disjunct(bank, a, b)
    }
}

// A conjunction of two truth values of which one implies the other is that one.
#[tactic(auto, using(crate::proofs::GuardRules::implied_rules))]
pub(crate) fn implied_and(bank: &Bank, a: TermId, b: TermId) -> Option<TermId>
    requires { Fits bank.now (And a b) }
    ensures { IfSome result (λ id. IsSame bank.now (And a b) id) }
{
    if implies(bank, a, b) {
        Some(a)
    } else if implies(bank, b, a) {
        Some(b)
    } else {
        None
    }
}

// A disjunction of two truth values of which one implies the other is the other.
#[tactic(auto, using(crate::proofs::GuardRules::implied_rules))]
pub(crate) fn implied_or(bank: &Bank, a: TermId, b: TermId) -> Option<TermId>
    requires { Fits bank.now (Or a b) }
    ensures { IfSome result (λ id. IsSame bank.now (Or a b) id) }
{
    if implies(bank, a, b) {
        Some(b)
    } else if implies(bank, b, a) {
        Some(a)
    } else {
        None
    }
}
