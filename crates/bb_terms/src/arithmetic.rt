// Arithmetic on two words of one width.
ghost use Rattle.std.specs.Prelude.{◌≡◌, ◌≤◌, ◌%◌, ◌^◌, length, IfOk, IsTrue};
ghost use Rattle.std.specs.Int.{is_power_of_two};
ghost use Rattle.bb_gates.specs.Growth.{AreOf, IsConservative};
ghost use Rattle.bb_arith.specs.Words.{number_of, IsWordGate};
ghost use Rattle.tm_terms.specs.Words.{width_of};
ghost use Rattle.bb_terms.specs.Calls.Words.{IsWord, arithmetic_number, arithmetic_value};

use crate::words::{listed, word};
use bb_arith::{add, divrem, mul, shl, shr, sub, ushr};
use cn_clauses::{Formula, Lit};
use jv_list::{List, Mem};
use std::alloc::Global;
use tm_terms::Sort;

#[derive(Clone, Copy)]
pub(crate) enum WordOp {
    Add,
    Sub,
    Mul,
    Div,
    Rem,
    Shl,
    Shr,
    Ushr,
}

// An operation on words of W bits.
fn on_words<const W: usize>(
    alloc: Global,
    formula: &mut Formula,
    kind: WordOp,
    a: &[Lit; W],
    b: &[Lit; W],
) -> Mem<[Lit; W]>
    requires within { W ≤ 64 }
    requires power { IsTrue (is_power_of_two W) }
    requires first { AreOf formula.old a.now }
    requires second { AreOf formula.old b.now }
    ensures gate { IfOk result (λ lits. IsWordGate formula.old formula.new lits (λ w. arithmetic_value W kind (number_of w a.now) (number_of w b.now))) }
    ensures keeps { IsConservative formula.old formula.new }
{
    match kind {
        WordOp::Add => add(alloc, formula, a, b),
        WordOp::Sub => sub(alloc, formula, a, b),
        WordOp::Mul => mul(alloc, formula, a, b),
        WordOp::Div => Ok(divrem(alloc, formula, a, b)?.quotient),
        WordOp::Rem => Ok(divrem(alloc, formula, a, b)?.remainder),
        WordOp::Shl => shl(alloc, formula, a, b),
        WordOp::Shr => shr(alloc, formula, a, b),
        WordOp::Ushr => ushr(alloc, formula, a, b),
    }
}

// The same on lists of so many literals.
fn on_lists<const W: usize>(
    alloc: Global,
    formula: &mut Formula,
    kind: WordOp,
    a: &[Lit],
    b: &[Lit],
) -> Mem<List<Lit>>
    requires within { W ≤ 64 }
    requires power { IsTrue (is_power_of_two W) }
    requires wide_a { length a.now ≡ W }
    requires wide_b { length b.now ≡ W }
    requires first { AreOf formula.old a.now }
    requires second { AreOf formula.old b.now }
    ensures gate { IfOk result (λ lits. IsWord W formula.old formula.new lits (λ w. arithmetic_number W kind (number_of w a.now) (number_of w b.now) % 2 ^ W)) }
    ensures keeps { IsConservative formula.old formula.new }
{
    let made = on_words::<W>(alloc, formula, kind, &word(a), &word(b))?;
    listed(alloc, &made)
}

// An operation on words of a sort.
pub(crate) fn arithmetic(
    alloc: Global,
    formula: &mut Formula,
    kind: WordOp,
    sort: Sort,
    a: &[Lit],
    b: &[Lit],
) -> Mem<List<Lit>>
    requires wide_a { length a.now ≡ width_of sort }
    requires wide_b { length b.now ≡ width_of sort }
    requires first { AreOf formula.old a.now }
    requires second { AreOf formula.old b.now }
    ensures gate { IfOk result (λ lits. IsWord (width_of sort) formula.old formula.new lits (λ w. arithmetic_number (width_of sort) kind (number_of w a.now) (number_of w b.now) % 2 ^ width_of sort)) }
    ensures keeps { IsConservative formula.old formula.new }
{
    match sort {
        Sort::Bool => on_lists::<1>(alloc, formula, kind, a, b),
        Sort::W16 => on_lists::<16>(alloc, formula, kind, a, b),
        Sort::W32 => on_lists::<32>(alloc, formula, kind, a, b),
        Sort::W64 => on_lists::<64>(alloc, formula, kind, a, b),
    }
}
