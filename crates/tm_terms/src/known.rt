// Operations on equal or opposite operands that are constants.
ghost use Rattle.std.specs.Prelude.{◌≡◌, ◌<◌, length, slice_get, Some, IfSome, IsTrue};
ghost use Rattle.tm_terms.specs.declared.sort.Sort.TheVariants.{Bool as Truth};
ghost use Rattle.tm_terms.specs.declared.op.Op.TheVariants.{Not};
ghost use Rattle.tm_terms.specs.Terms.{Fits, term_sort};
ghost use Rattle.tm_terms.specs.Rules.{IsKnown, AreOpposite};

use crate::bank::Bank;
use crate::op::{Op, TermId};

// Whether the second term is Not of the first.
fn is_not_of(bank: &Bank, a: TermId, b: TermId) -> bool
    requires { b.0 < length bank.now }
    ensures { IsTrue result → slice_get bank.now b.0 ≡ Some (Not a) }
{
    match *bank.op(b) {
        Op::Not(x) => x == a,
        _ => false,
    }
}

// Whether one of two truth values is Not of the other.
pub(crate) fn are_opposite(bank: &Bank, a: TermId, b: TermId) -> bool
    requires first { a.0 < length bank.now }
    requires second { b.0 < length bank.now }
    requires sort { term_sort bank.now b.0 ≡ Truth }
    ensures { IsTrue result → AreOpposite bank.now a b }
{
    bank.laws();
    if is_not_of(bank, a, b) {
        true
    } else {
        is_not_of(bank, b, a)
    }
}

// The number that an operation has under every valuation, if a rule finds one.
#[tactic(auto, using(crate::proofs::KnownRules::known_rules))]
pub(crate) fn known_number(bank: &Bank, op: Op) -> Option<u64>
    requires { Fits bank.now op }
    ensures { IfSome result (λ k. IsKnown bank.now op k) }
{
    match op {
        Op::Sub(a, b) if a == b => Some(0),
        Op::BitXor(a, b) if a == b => Some(0),
        Op::Less(a, b) if a == b => Some(0),
        Op::Below(a, b) if a == b => Some(0),
        Op::Equal(a, b) if a == b => Some(1),
        Op::And(a, b) if are_opposite(bank, a, b) => Some(0),
        Op::Or(a, b) if are_opposite(bank, a, b) => Some(1),
        _ => None,
    }
}
