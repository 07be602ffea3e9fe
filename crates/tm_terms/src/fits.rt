// Whether an operation fits a bank.
ghost use Rattle.std.specs.Prelude.{◌≡◌, ◌<◌, ◌↔◌, length, IsTrue};
ghost use Rattle.tm_terms.specs.declared.sort.Sort.TheVariants.{Bool as Truth};
ghost use Rattle.tm_terms.specs.Operations.{operands_of, third_of, AreBelow, SortsFit};
ghost use Rattle.tm_terms.specs.Terms.{term_sort, Fits};

use crate::bank::Bank;
use crate::fold::first_sorts;
use crate::op::{Op, Operands};
use crate::sort::Sort;

// Whether the operands stand below a place.
fn are_below(count: u64, operands: Operands) -> bool
    ensures { IsTrue result ↔ AreBelow count operands }
{
    match operands {
        Operands::Nothing => true,
        Operands::One(a) => a.0 < count,
        Operands::Two(a, b) => a.0 < count && b.0 < count,
        Operands::Three(a, b, c) => a.0 < count && b.0 < count && c.0 < count,
    }
}

// Whether two sorts are one.
fn is_same_sort(s: Sort, t: Sort) -> bool
    ensures { IsTrue result ↔ (s ≡ t) }
{
    s == t
}

// Whether an operation takes operands of these sorts.
fn takes(op: Op, s: Sort, t: Sort, u: Sort) -> bool
    ensures { IsTrue result ↔ SortsFit s t u op }
{
    match op {
        Op::Free(_) | Op::Const(_, _) => true,
        Op::Not(_) => is_same_sort(s, Sort::Bool),
        Op::And(_, _) | Op::Or(_, _) => is_same_sort(s, Sort::Bool) && is_same_sort(t, Sort::Bool),
        Op::If(_, _, _) => is_same_sort(s, Sort::Bool) && is_same_sort(u, t),
        Op::Widen(v, _) | Op::WidenZero(v, _) => s.width() <= v.width(),
        Op::Cut(v, _) => v.width() <= s.width(),
        _ => is_same_sort(t, s),
    }
}

// The sort of the third operand, or that of truth values.
fn third_sort(bank: &Bank, operands: Operands) -> Sort
    requires { AreBelow (length bank.now) operands }
    ensures { result ≡ third_of Truth (term_sort bank.now) operands }
{
    match operands {
        Operands::Three(_, _, c) => bank.sort(c),
        _ => Sort::Bool,
    }
}

impl Bank {
    /// Whether the operands of an operation are terms of the bank, of sorts that fit.
    pub fn fits(&self, op: Op) -> bool
        ensures { IsTrue result ↔ Fits self.now op }
    {
        let operands = op.operands();
        if !are_below(self.count(), operands) {
            return false;
        }
        let (s, t) = first_sorts(self, operands);
        takes(op, s, t, third_sort(self, operands))
    }
}
