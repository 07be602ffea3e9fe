// Bits of the encoding, and the gates over them. A gate over equal, opposite or known bits gives its bit without a clause.
ghost use Rattle.std.specs.Prelude.{◌≡◌, ◌+◌, false, IfOk, OnOk};
ghost use Rattle.jb_run.specs.Bits.{opposite_bit};
ghost use Rattle.jb_run.specs.Clauses.{clauses_of};
ghost use Rattle.jb_run.specs.Satisfies.{IsBitBelow, AreClausesBelow};
ghost use Rattle.jb_run.specs.Gate.{AreNamed, Continues, IsFresh, IsGate, both, either, different, chosen};

use crate::formula::{Formula, Lit};
use jv_base::Mem;
use std::alloc::Global;

/// A bit that is known, or the value of a literal.
#[derive(Clone, Copy, Debug, PartialEq, Eq)]
pub enum Bit {
    Known(bool),
    Of(Lit),
}

impl Bit {
    /// The opposite value.
    pub fn not(self) -> Bit
        ensures { result ≡ opposite_bit self }
    {
        match self {
            Bit::Known(value) => Bit::Known(!value),
            Bit::Of(lit) => Bit::Of(lit.opposite()),
        }
    }
}

/// A bit with the value of a fresh variable.
pub fn fresh(formula: &mut Formula) -> Mem<Bit>
    ensures bit { IfOk result (λ bit. bit ≡ Bit.Of (record { variable = formula.old.variables; negated = false })) }
    ensures variables { OnOk result (formula.new.variables ≡ formula.old.variables + 1) }
    ensures clauses { clauses_of formula.new ≡ clauses_of formula.old }
    ensures keeps { Continues formula.old formula.new }
    ensures input { AreClausesBelow formula.old.variables (clauses_of formula.old) → IfOk result (λ bit. IsFresh formula.old formula.new bit) }
{
    Ok(Bit::Of(formula.fresh()?))
}

// The literal that is true exactly where both are, which are of different variables.
fn and_gate(alloc: Global, formula: &mut Formula, a: Lit, b: Lit) -> Mem<Lit>
    ensures gate { AreNamed formula.old (Bit.Of a) (Bit.Of b) → IfOk result (λ lit. IsGate formula.old formula.new (Bit.Of lit) (both (Bit.Of a) (Bit.Of b))) }
    ensures keeps { Continues formula.old formula.new }
{
    let both = formula.fresh()?;
    formula.push(alloc, &[both.opposite(), a])?;
    formula.push(alloc, &[both.opposite(), b])?;
    formula.push(alloc, &[both, a.opposite(), b.opposite()])?;
    Ok(both)
}

// The literal that is true exactly where the two differ, which are of different variables.
fn xor_gate(alloc: Global, formula: &mut Formula, a: Lit, b: Lit) -> Mem<Lit>
    ensures gate { AreNamed formula.old (Bit.Of a) (Bit.Of b) → IfOk result (λ lit. IsGate formula.old formula.new (Bit.Of lit) (different (Bit.Of a) (Bit.Of b))) }
    ensures keeps { Continues formula.old formula.new }
{
    let differ = formula.fresh()?;
    formula.push(alloc, &[differ.opposite(), a, b])?;
    formula.push(alloc, &[differ.opposite(), a.opposite(), b.opposite()])?;
    formula.push(alloc, &[differ, a.opposite(), b])?;
    formula.push(alloc, &[differ, a, b.opposite()])?;
    Ok(differ)
}

/// True exactly where both are.
pub fn and(alloc: Global, formula: &mut Formula, a: Bit, b: Bit) -> Mem<Bit>
    ensures gate { AreNamed formula.old a b → IfOk result (λ bit. IsGate formula.old formula.new bit (both a b)) }
    ensures keeps { Continues formula.old formula.new }
{
    match (a, b) {
        (Bit::Known(true), _) => Ok(b),
        (_, Bit::Known(true)) => Ok(a),
        (Bit::Known(false), _) | (_, Bit::Known(false)) => Ok(Bit::Known(false)),
        (Bit::Of(x), Bit::Of(y)) => {
            if x.variable != y.variable {
                Ok(Bit::Of(and_gate(alloc, formula, x, y)?))
            } else if x.negated == y.negated {
                Ok(a)
            } else {
                Ok(Bit::Known(false))
            }
        }
    }
}

/// True exactly where one of them is, or both are.
pub fn or(alloc: Global, formula: &mut Formula, a: Bit, b: Bit) -> Mem<Bit>
    ensures gate { AreNamed formula.old a b → IfOk result (λ bit. IsGate formula.old formula.new bit (either a b)) }
    ensures keeps { Continues formula.old formula.new }
{
    Ok(and(alloc, formula, a.not(), b.not())?.not())
}

/// True exactly where the two differ.
pub fn xor(alloc: Global, formula: &mut Formula, a: Bit, b: Bit) -> Mem<Bit>
    ensures gate { AreNamed formula.old a b → IfOk result (λ bit. IsGate formula.old formula.new bit (different a b)) }
    ensures keeps { Continues formula.old formula.new }
{
    match (a, b) {
        (Bit::Known(value), _) => Ok(if value { b.not() } else { b }),
        (_, Bit::Known(value)) => Ok(if value { a.not() } else { a }),
        (Bit::Of(x), Bit::Of(y)) => {
            if x.variable != y.variable {
                Ok(Bit::Of(xor_gate(alloc, formula, x, y)?))
            } else {
                Ok(Bit::Known(x.negated != y.negated))
            }
        }
    }
}

/// `a` where `choice` is true, else `b`.
pub fn mux(alloc: Global, formula: &mut Formula, choice: Bit, a: Bit, b: Bit) -> Mem<Bit>
    ensures gate { AreNamed formula.old a b → IsBitBelow formula.old.variables choice → IfOk result (λ bit. IsGate formula.old formula.new bit (chosen choice a b)) }
    ensures keeps { Continues formula.old formula.new }
{
    if a == b {
        return Ok(a);
    }
    let from_a = and(alloc, formula, choice, a)?;
    let from_b = and(alloc, formula, choice.not(), b)?;
    or(alloc, formula, from_a, from_b)
}
