// Terms that are constants.
ghost use Rattle.std.specs.Prelude.{◌≡◌, ◌<◌, true, false, ℕ, length, slice_get, IfSome, IfNone, IsTrue, List as list_of};
ghost use Rattle.tm_terms.specs.Terms.{term_value};
ghost use Rattle.tm_terms.specs.Sharing.{is_const};
ghost use Rattle.tm_terms.specs.Rules.{HasNumber};

use crate::bank::Bank;
use crate::op::{Op, TermId};

// The number of a term that is a constant.
pub(crate) fn constant_at(bank: &Bank, id: TermId) -> Option<u64>
    requires { id.0 < length bank.now }
    ensures found { IfSome result (λ k. (v : list_of ℕ) → term_value bank.now v id.0 ≡ k) }
    ensures some { IfSome result (λ k. is_const (slice_get bank.now id.0) ≡ true) }
    ensures none { IfNone result (is_const (slice_get bank.now id.0) ≡ false) }
{
    bank.laws();
    match *bank.op(id) {
        Op::Const(_, number) => Some(number),
        _ => None,
    }
}

// Whether a term is the constant of this number.
pub(crate) fn is_number(bank: &Bank, id: TermId, number: u64) -> bool
    requires { id.0 < length bank.now }
    ensures { IsTrue result → HasNumber bank.now id number }
{
    match constant_at(bank, id) {
        Some(k) => k == number,
        None => false,
    }
}
