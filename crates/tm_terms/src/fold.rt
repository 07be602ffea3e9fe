// Operations on constants, which are constants.
ghost use Rattle.std.specs.Prelude.{◌≡◌, ◌<◌, ◌↔◌, true, false, ℕ, length, slice_get, Some, IfSome, IfNone, IsSome, List as list_of};
ghost use Rattle.tm_terms.specs.declared.sort.Sort.TheVariants.{Bool as Truth};
ghost use Rattle.tm_terms.specs.Operations.{operands_of, first_of, second_of, AreBelow};
ghost use Rattle.tm_terms.specs.Terms.{term_sort, term_value, op_sort, Fits, is_free};
ghost use Rattle.tm_terms.specs.Sharing.{is_const, on_constants, IsReduced};
ghost use Rattle.tm_terms.specs.Rules.{Replaces, AreGiven};

use crate::bank::Bank;
use crate::constant::constant_at;
use crate::known::known_number;
use crate::numbers::Given;
use crate::op::{Op, Operands};
use crate::order::ordered;
use crate::sort::Sort;
use crate::words::low;

// The sorts of the first two operands.
pub(crate) fn first_sorts(bank: &Bank, operands: Operands) -> (Sort, Sort)
    requires { AreBelow (length bank.now) operands }
    ensures s { result.0 ≡ first_of Truth (term_sort bank.now) operands }
    ensures t { result.1 ≡ second_of Truth (term_sort bank.now) operands }
{
    match operands {
        Operands::Nothing => (Sort::Bool, Sort::Bool),
        Operands::One(a) => (bank.sort(a), Sort::Bool),
        Operands::Two(a, b) | Operands::Three(a, b, _) => (bank.sort(a), bank.sort(b)),
    }
}

// The sort of an operation on terms of the bank.
pub(crate) fn sort_of(bank: &Bank, op: Op) -> Sort
    requires { AreBelow (length bank.now) (operands_of op) }
    ensures { result ≡ op_sort bank.now op }
{
    let (s, t) = first_sorts(bank, op.operands());
    op.sort_over(s, t)
}

// The sorts and numbers of operands that are constants.
fn given_by(bank: &Bank, operands: Operands) -> Option<Given>
    requires { AreBelow (length bank.now) operands }
    ensures some { IfSome result (λ given. AreGiven bank.now operands given) }
    ensures none { IfNone result (on_constants bank.now operands ≡ false) }
{
    match operands {
        Operands::Nothing => None,
        Operands::One(a) => {
            let x = constant_at(bank, a)?;
            let (s, t) = first_sorts(bank, operands);
            Some(Given {
                s,
                t,
                x,
                y: 0,
                z: 0,
            })
        }
        Operands::Two(a, b) => {
            let x = constant_at(bank, a)?;
            let y = constant_at(bank, b)?;
            let (s, t) = first_sorts(bank, operands);
            Some(Given { s, t, x, y, z: 0 })
        }
        Operands::Three(a, b, c) => {
            let x = constant_at(bank, a)?;
            let y = constant_at(bank, b)?;
            let z = constant_at(bank, c)?;
            let (s, t) = first_sorts(bank, operands);
            Some(Given { s, t, x, y, z })
        }
    }
}

// The operation, or the constant that it is if its operands are constants.
fn folded(bank: &Bank, op: Op) -> Op
    requires fits { Fits bank.now op }
    requires kept { is_free op ≡ false }
    ensures replaces { Replaces bank.now op result }
    ensures folded { on_constants bank.now (operands_of result) ≡ false }
    ensures reduced { IsReduced result }
{
    if let Op::Const(sort, number) = op {
        return Op::Const(sort, low(sort, number));
    }
    if let Some(number) = known_number(bank, op) {
        return Op::Const(sort_of(bank, op), number);
    }
    match given_by(bank, op.operands()) {
        Some(given) => Op::Const(op.sort_over(given.s, given.t), op.number_over(given, 0)),
        None => op,
    }
}

// An operation that stands for this one, with ordered operands that are not all constants.
pub(crate) fn simplified(bank: &Bank, op: Op) -> Op
    requires fits { Fits bank.now op }
    requires kept { is_free op ≡ false }
    ensures replaces { Replaces bank.now op result }
    ensures folded { on_constants bank.now (operands_of result) ≡ false }
    ensures reduced { IsReduced result }
{
    folded(bank, ordered(op))
}
