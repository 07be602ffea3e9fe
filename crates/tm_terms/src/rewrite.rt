// Operations that are simpler ones.
ghost use Rattle.std.specs.Prelude.{◌≡◌, false};
ghost use Rattle.tm_terms.specs.declared.op.Op.TheVariants.{If, Equal};
ghost use Rattle.tm_terms.specs.Terms.{Fits, is_free};
ghost use Rattle.tm_terms.specs.Rules.{Replaces};

use crate::bank::Bank;
use crate::constant::is_number;
use crate::op::{Op, TermId};
use crate::sort::Sort;

// A choice with a constant arm among truth values, as a conjunction, a disjunction or an opposite.
#[tactic(auto, using(crate::proofs::RewriteRules::if_rewrites, crate::proofs::MakeLemmas::replaces_itself))]
fn rewritten_if(bank: &Bank, c: TermId, a: TermId, b: TermId) -> Op
    requires { Fits bank.now (If c a b) }
    ensures { Replaces bank.now (If c a b) result }
{
    if bank.sort(a) != Sort::Bool {
        Op::If(c, a, b)
    } else if is_number(bank, b, 0) {
        Op::And(c, a)
    } else if is_number(bank, a, 1) {
        Op::Or(c, b)
    } else if is_number(bank, a, 0) && is_number(bank, b, 1) {
        Op::Not(c)
    } else {
        Op::If(c, a, b)
    }
}

// A truth value that is compared with false, as its opposite.
#[tactic(auto, using(crate::proofs::RewriteRules::equal_rewrites, crate::proofs::MakeLemmas::replaces_itself))]
fn rewritten_equal(bank: &Bank, a: TermId, b: TermId) -> Op
    requires { Fits bank.now (Equal a b) }
    ensures { Replaces bank.now (Equal a b) result }
{
    if bank.sort(a) != Sort::Bool {
        Op::Equal(a, b)
    } else if is_number(bank, b, 0) {
        Op::Not(a)
    } else if is_number(bank, a, 0) {
        Op::Not(b)
    } else {
        Op::Equal(a, b)
    }
}

// A simpler operation, if a rule finds one, else the operation itself.
#[tactic(auto, using(crate::proofs::MakeLemmas::replaces_itself))]
pub(crate) fn rewritten(bank: &Bank, op: Op) -> Op
    requires fits { Fits bank.now op }
    requires kept { is_free op ≡ false }
    ensures { Replaces bank.now op result }
{
    match op {
        Op::If(c, a, b) => rewritten_if(bank, c, a, b),
        Op::Equal(a, b) => rewritten_equal(bank, a, b),
        _ => op,
    }
}
