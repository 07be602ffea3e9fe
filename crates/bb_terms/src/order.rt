// The order of two words of one width.
ghost use Rattle.std.specs.Prelude.{◌≡◌, ◌%◌, ◌^◌, length, IfOk};
ghost use Rattle.cn_clauses.specs.Extension.{IsGate};
ghost use Rattle.bb_gates.specs.Growth.{AreOf, IsConservative};
ghost use Rattle.bb_arith.specs.Words.{number_of};
ghost use Rattle.tm_terms.specs.Words.{width_of};
ghost use Rattle.bb_terms.specs.Calls.Words.{is_in_order};

use crate::words::word;
use bb_arith::{below, less};
use cn_clauses::{Formula, Lit};
use jv_list::Mem;
use std::alloc::Global;
use tm_terms::Sort;

// The order of lists of so many literals.
fn on_lists<const W: usize>(
    alloc: Global,
    formula: &mut Formula,
    signed: bool,
    a: &[Lit],
    b: &[Lit],
) -> Mem<Lit>
    requires wide_a { length a.now ≡ W }
    requires wide_b { length b.now ≡ W }
    requires first { AreOf formula.old a.now }
    requires second { AreOf formula.old b.now }
    ensures gate { IfOk result (λ lit. IsGate formula.old formula.new lit (λ w. is_in_order W signed (number_of w a.now) (number_of w b.now))) }
    ensures keeps { IsConservative formula.old formula.new }
{
    let x = word::<W>(a);
    let y = word::<W>(b);
    if signed {
        less(alloc, formula, &x, &y)
    } else {
        below(alloc, formula, &x, &y)
    }
}

// The order of two words of a sort, with a sign or without.
pub(crate) fn order(
    alloc: Global,
    formula: &mut Formula,
    signed: bool,
    sort: Sort,
    a: &[Lit],
    b: &[Lit],
) -> Mem<Lit>
    requires wide_a { length a.now ≡ width_of sort }
    requires wide_b { length b.now ≡ width_of sort }
    requires first { AreOf formula.old a.now }
    requires second { AreOf formula.old b.now }
    ensures gate { IfOk result (λ lit. IsGate formula.old formula.new lit (λ w. is_in_order (width_of sort) signed (number_of w a.now) (number_of w b.now))) }
    ensures keeps { IsConservative formula.old formula.new }
{
    match sort {
        Sort::Bool => on_lists::<1>(alloc, formula, signed, a, b),
        Sort::W16 => on_lists::<16>(alloc, formula, signed, a, b),
        Sort::W32 => on_lists::<32>(alloc, formula, signed, a, b),
        Sort::W64 => on_lists::<64>(alloc, formula, signed, a, b),
    }
}
