// Operations on bits that have the value of an earlier term.
ghost use Rattle.std.specs.Prelude.{◌≡◌, ◌<◌, length, IfSome, IsTrue};
ghost use Rattle.tm_terms.specs.declared.op.Op.TheVariants.{Shl, Ushr, BitAnd, BitOr, BitXor, WidenZero, Cut};
ghost use Rattle.tm_terms.specs.Terms.{Fits};
ghost use Rattle.tm_terms.specs.Rules.{IsSame};

use crate::bank::Bank;
use crate::constant::is_number;
use crate::op::TermId;
use crate::sort::Sort;

// A word moved by no place.
#[tactic(auto, using(crate::proofs::BitRules::shl_zero))]
pub(crate) fn same_as_shl(bank: &Bank, a: TermId, b: TermId) -> Option<TermId>
    requires { Fits bank.now (Shl a b) }
    ensures { IfSome result (λ id. IsSame bank.now (Shl a b) id) }
{
    if is_number(bank, b, 0) { Some(a) } else { None }
}

// A word moved by no place.
#[tactic(auto, using(crate::proofs::BitRules::ushr_zero))]
pub(crate) fn same_as_ushr(bank: &Bank, a: TermId, b: TermId) -> Option<TermId>
    requires { Fits bank.now (Ushr a b) }
    ensures { IfSome result (λ id. IsSame bank.now (Ushr a b) id) }
{
    if is_number(bank, b, 0) { Some(a) } else { None }
}

// The common bits of a word and 0 are 0, those of a word and itself are the word.
#[tactic(auto, using(crate::proofs::BitRules::bit_and_rules))]
pub(crate) fn same_as_bit_and(bank: &Bank, a: TermId, b: TermId) -> Option<TermId>
    requires { Fits bank.now (BitAnd a b) }
    ensures { IfSome result (λ id. IsSame bank.now (BitAnd a b) id) }
{
    if a == b {
        Some(a)
    } else if is_number(bank, b, 0) {
        Some(b)
    } else if is_number(bank, a, 0) {
        Some(a)
    } else {
        None
    }
}

// The bits of a word and 0 are the word, and so are those of a word and itself.
#[tactic(auto, using(crate::proofs::BitRules::bit_or_rules))]
pub(crate) fn same_as_bit_or(bank: &Bank, a: TermId, b: TermId) -> Option<TermId>
    requires { Fits bank.now (BitOr a b) }
    ensures { IfSome result (λ id. IsSame bank.now (BitOr a b) id) }
{
    if a == b {
        Some(a)
    } else if is_number(bank, b, 0) {
        Some(a)
    } else if is_number(bank, a, 0) {
        Some(b)
    } else {
        None
    }
}

// The bits in which a word and 0 differ are the word.
#[tactic(auto, using(crate::proofs::BitRules::bit_xor_rules))]
pub(crate) fn same_as_bit_xor(bank: &Bank, a: TermId, b: TermId) -> Option<TermId>
    requires { Fits bank.now (BitXor a b) }
    ensures { IfSome result (λ id. IsSame bank.now (BitXor a b) id) }
{
    if is_number(bank, b, 0) {
        Some(a)
    } else if is_number(bank, a, 0) {
        Some(b)
    } else {
        None
    }
}

// A word of the sort that it has.
#[tactic(auto, using(crate::proofs::BitRules::widen_zero_none))]
pub(crate) fn same_as_widen_zero(bank: &Bank, s: Sort, a: TermId) -> Option<TermId>
    requires { Fits bank.now (WidenZero s a) }
    ensures { IfSome result (λ id. IsSame bank.now (WidenZero s a) id) }
{
    if bank.sort(a) == s { Some(a) } else { None }
}

// A word of the sort that it has.
#[tactic(auto, using(crate::proofs::BitRules::cut_none))]
pub(crate) fn same_as_cut(bank: &Bank, s: Sort, a: TermId) -> Option<TermId>
    requires { Fits bank.now (Cut s a) }
    ensures { IfSome result (λ id. IsSame bank.now (Cut s a) id) }
{
    if bank.sort(a) == s { Some(a) } else { None }
}
