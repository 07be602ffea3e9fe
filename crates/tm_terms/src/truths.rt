// Operations on truth values that have the value of an earlier term.
ghost use Rattle.std.specs.Prelude.{◌≡◌, ◌<◌, length, IfSome, IsTrue};
ghost use Rattle.tm_terms.specs.declared.op.Op.TheVariants.{Not, And, Or, If, Equal};
ghost use Rattle.tm_terms.specs.Terms.{Fits};
ghost use Rattle.tm_terms.specs.Rules.{IsSame};

use crate::bank::Bank;
use crate::constant::is_number;
use crate::guards::{implied_and, implied_or};
use crate::op::{Op, TermId};
use crate::sort::Sort;
use crate::splits::split_or;

// Not of Not is the truth value itself.
pub(crate) fn same_as_not(bank: &Bank, a: TermId) -> Option<TermId>
    requires { Fits bank.now (Not a) }
    ensures { IfSome result (λ id. IsSame bank.now (Not a) id) }
{
    bank.laws();
    match *bank.op(a) {
        Op::Not(x) => Some(x),
        _ => None,
    }
}

// One true truth value leaves the other, one that is false decides, and two equal ones are one.
#[tactic(auto, using(crate::proofs::TruthRules::and_rules))]
pub(crate) fn same_as_and(bank: &Bank, a: TermId, b: TermId) -> Option<TermId>
    requires { Fits bank.now (And a b) }
    ensures { IfSome result (λ id. IsSame bank.now (And a b) id) }
{
    if a == b {
        Some(a)
    } else if is_number(bank, b, 1) {
        Some(a)
    } else if is_number(bank, a, 1) {
        Some(b)
    } else if is_number(bank, b, 0) {
        Some(b)
    } else if is_number(bank, a, 0) {
        Some(a)
    } else {
        implied_and(bank, a, b)
    }
}

// One false truth value leaves the other, one that is true decides, and two equal ones are one.
#[tactic(auto, using(crate::proofs::TruthRules::or_rules))]
pub(crate) fn same_as_or(bank: &Bank, a: TermId, b: TermId) -> Option<TermId>
    requires { Fits bank.now (Or a b) }
    ensures { IfSome result (λ id. IsSame bank.now (Or a b) id) }
{
    if a == b {
        Some(a)
    } else if is_number(bank, b, 0) {
        Some(a)
    } else if is_number(bank, a, 0) {
        Some(b)
    } else if is_number(bank, b, 1) {
        Some(b)
    } else if is_number(bank, a, 1) {
        Some(a)
    } else {
        match implied_or(bank, a, b) {
            Some(id) => Some(id),
            None => split_or(bank, a, b),
        }
    }
}

// A choice that is constant decides, two equal arms are one, and the choice between true and false is itself.
#[tactic(auto, using(crate::proofs::TruthRules::if_rules))]
pub(crate) fn same_as_if(bank: &Bank, c: TermId, a: TermId, b: TermId) -> Option<TermId>
    requires { Fits bank.now (If c a b) }
    ensures { IfSome result (λ id. IsSame bank.now (If c a b) id) }
{
    if a == b || is_number(bank, c, 1) {
        Some(a)
    } else if is_number(bank, c, 0) {
        Some(b)
    } else if bank.sort(a) == Sort::Bool && is_number(bank, a, 1) && is_number(bank, b, 0) {
        Some(c)
    } else {
        None
    }
}

// A truth value that is compared with true.
#[tactic(auto, using(crate::proofs::TruthRules::equal_true))]
pub(crate) fn same_as_equal(bank: &Bank, a: TermId, b: TermId) -> Option<TermId>
    requires { Fits bank.now (Equal a b) }
    ensures { IfSome result (λ id. IsSame bank.now (Equal a b) id) }
{
    if bank.sort(a) == Sort::Bool && is_number(bank, b, 1) {
        Some(a)
    } else {
        None
    }
}
