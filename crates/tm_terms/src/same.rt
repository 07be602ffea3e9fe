// Operations that have the value of an earlier term.
ghost use Rattle.std.specs.Prelude.{◌≡◌, IfSome};
ghost use Rattle.tm_terms.specs.Terms.{Fits};
ghost use Rattle.tm_terms.specs.Rules.{IsSame};

use crate::bank::Bank;
use crate::bits::{
    same_as_bit_and, same_as_bit_or, same_as_bit_xor, same_as_cut, same_as_shl, same_as_ushr,
    same_as_widen_zero,
};
use crate::op::{Op, TermId};
use crate::sums::{same_as_add, same_as_mul, same_as_sub};
use crate::truths::{same_as_and, same_as_equal, same_as_if, same_as_not, same_as_or};

// A term that has the sort and the value of the operation, if a rule finds one.
pub(crate) fn same_term(bank: &Bank, op: Op) -> Option<TermId>
    requires { Fits bank.now op }
    ensures { IfSome result (λ id. IsSame bank.now op id) }
{
    match op {
        Op::Not(a) => same_as_not(bank, a),
        Op::And(a, b) => same_as_and(bank, a, b),
        Op::Or(a, b) => same_as_or(bank, a, b),
        Op::If(c, a, b) => same_as_if(bank, c, a, b),
        Op::Equal(a, b) => same_as_equal(bank, a, b),
        Op::Add(a, b) => same_as_add(bank, a, b),
        Op::Sub(a, b) => same_as_sub(bank, a, b),
        Op::Mul(a, b) => same_as_mul(bank, a, b),
        Op::Shl(a, b) => same_as_shl(bank, a, b),
        Op::Ushr(a, b) => same_as_ushr(bank, a, b),
        Op::BitAnd(a, b) => same_as_bit_and(bank, a, b),
        Op::BitOr(a, b) => same_as_bit_or(bank, a, b),
        Op::BitXor(a, b) => same_as_bit_xor(bank, a, b),
        Op::WidenZero(s, a) => same_as_widen_zero(bank, s, a),
        Op::Cut(s, a) => same_as_cut(bank, s, a),
        _ => None,
    }
}
