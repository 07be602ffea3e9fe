// Truth values that two others split.
ghost use Rattle.std.specs.Prelude.{◌≡◌, ◌<◌, length, IfSome, IsTrue};
ghost use Rattle.tm_terms.specs.declared.op.Op.TheVariants.{Or};
ghost use Rattle.tm_terms.specs.Terms.{Fits};
ghost use Rattle.tm_terms.specs.Rules.{IsSame, IsBoth, IsSplit};

use crate::bank::Bank;
use crate::known::are_opposite;
use crate::op::{Op, TermId};

// What a term is a conjunction of, besides another one.
#[tactic(auto, using(crate::proofs::SplitRules::both_parts, crate::proofs::SplitRules::parts_both))]
fn other_conjunct(bank: &Bank, a: TermId, g: TermId) -> Option<TermId>
    requires { a.0 < length bank.now }
    ensures { IfSome result (λ c. IsBoth bank.now a g c) }
{
    bank.laws();
    match *bank.op(a) {
        Op::And(x, y) if x == g => Some(y),
        Op::And(x, y) if y == g => Some(x),
        _ => None,
    }
}

// Whether two terms are the conjunctions of a third with opposite truth values.
#[tactic(auto, using(crate::proofs::SplitRules::split_by_opposites))]
fn split(bank: &Bank, a: TermId, b: TermId, g: TermId) -> bool
    requires first { a.0 < length bank.now }
    requires second { b.0 < length bank.now }
    ensures { IsTrue result → IsSplit bank.now a b g }
{
    let Some(c) = other_conjunct(bank, a, g) else {
        return false;
    };
    let Some(d) = other_conjunct(bank, b, g) else {
        return false;
    };
    are_opposite(bank, c, d)
}

// A disjunction of the two parts that split a truth value is that truth value.
#[tactic(auto, using(crate::proofs::SplitRules::or_split))]
pub(crate) fn split_or(bank: &Bank, a: TermId, b: TermId) -> Option<TermId>
    requires { Fits bank.now (Or a b) }
    ensures { IfSome result (λ id. IsSame bank.now (Or a b) id) }
{
    match *bank.op(a) {
        Op::And(x, _) if split(bank, a, b, x) => Some(x),
        Op::And(_, y) if split(bank, a, b, y) => Some(y),
        _ => None,
    }
}
