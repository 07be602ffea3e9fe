// Sums, differences and products that have the value of an earlier term.
ghost use Rattle.std.specs.Prelude.{◌≡◌, ◌<◌, length, IfSome, IsTrue};
ghost use Rattle.tm_terms.specs.declared.op.Op.TheVariants.{Add, Sub, Mul};
ghost use Rattle.tm_terms.specs.Terms.{Fits};
ghost use Rattle.tm_terms.specs.Rules.{IsSame};

use crate::bank::Bank;
use crate::constant::is_number;
use crate::op::TermId;

// A sum with 0 is the other number.
#[tactic(auto, using(crate::proofs::SumRules::add_rules))]
pub(crate) fn same_as_add(bank: &Bank, a: TermId, b: TermId) -> Option<TermId>
    requires { Fits bank.now (Add a b) }
    ensures { IfSome result (λ id. IsSame bank.now (Add a b) id) }
{
    if is_number(bank, b, 0) {
        Some(a)
    } else if is_number(bank, a, 0) {
        Some(b)
    } else {
        None
    }
}

// A difference with 0 is the number.
#[tactic(auto, using(crate::proofs::SumRules::sub_zero))]
pub(crate) fn same_as_sub(bank: &Bank, a: TermId, b: TermId) -> Option<TermId>
    requires { Fits bank.now (Sub a b) }
    ensures { IfSome result (λ id. IsSame bank.now (Sub a b) id) }
{
    if is_number(bank, b, 0) { Some(a) } else { None }
}

// A product with 1 is the other number, and one with 0 is 0.
#[tactic(auto, using(crate::proofs::SumRules::mul_rules))]
pub(crate) fn same_as_mul(bank: &Bank, a: TermId, b: TermId) -> Option<TermId>
    requires { Fits bank.now (Mul a b) }
    ensures { IfSome result (λ id. IsSame bank.now (Mul a b) id) }
{
    if is_number(bank, b, 1) {
        Some(a)
    } else if is_number(bank, a, 1) {
        Some(b)
    } else if is_number(bank, b, 0) {
        Some(b)
    } else if is_number(bank, a, 0) {
        Some(a)
    } else {
        None
    }
}
