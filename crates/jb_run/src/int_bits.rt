// Ints of 32 bits as bits of the encoding, the lowest first.
ghost use Rattle.std.specs.Prelude.{◌≡◌, ◌<◌, ℕ, ℤ, pos, Bool, true, false, IfOk};
ghost use Rattle.std.specs.Int.{w32, int_bit_xor};
ghost use Rattle.std.specs.Ordering.{int_eq};
ghost use Rattle.jb_run.specs.Clauses.{clauses_of};
ghost use Rattle.jb_run.specs.Satisfies.{bit_value, Satisfies, IsBitBelow, AreClausesBelow};
ghost use Rattle.jb_run.specs.Shown.{ShowsInt};
ghost use Rattle.jb_run.specs.Gate.{bit_at, Continues, IsIntNamed, AreIntsNamed, IsIntGate, IsTest, IsFreshInt, HasNoBit, HaveSameBits, different, chosen};

use crate::formula::Formula;
use crate::gates::{Bit, and, fresh, mux, xor};
use jv_base::Mem;
use std::alloc::Global;

/// An int, by its bits, the lowest first.
#[derive(Clone, Copy, Debug, PartialEq, Eq)]
pub struct IntBits {
    pub bits: [Bit; 32],
}

/// The int that is known.
pub fn known(value: i32) -> IntBits
    ensures int { (a : ℕ → Bool) → ShowsInt a result value }
    ensures below { (n k : ℕ) → k < 32 → IsBitBelow n (bit_at result k) }
{
    let pattern = value.cast_unsigned();
    let mut bits = [Bit::Known(false); 32];
    for i in 0..32 {
        bits[i] = Bit::Known((pattern >> i) & 1 == 1);
    }
    IntBits { bits }
}

/// An int of fresh variables.
pub fn unknown(formula: &mut Formula) -> Mem<IntBits>
    ensures input { AreClausesBelow formula.old.variables (clauses_of formula.old) → IfOk result (λ word. IsFreshInt formula.old formula.new word) }
    ensures keeps { Continues formula.old formula.new }
{
    let mut bits = [Bit::Known(false); 32];
    for i in 0..32 {
        bits[i] = fresh(formula)?;
    }
    Ok(IntBits { bits })
}

/// The exclusive or, bit by bit.
pub fn xor_ints(alloc: Global, formula: &mut Formula, a: &IntBits, b: &IntBits) -> Mem<IntBits>
    ensures gate { AreIntsNamed formula.old a.now b.now → IfOk result (λ word. IsIntGate formula.old formula.new word (λ k. different (bit_at a.now k) (bit_at b.now k))) }
    ensures int { AreIntsNamed formula.old a.now b.now → IfOk result (λ word. (w : ℕ → Bool) (n m : ℤ) → Satisfies w formula.new → ShowsInt w a.now n → ShowsInt w b.now m → ShowsInt w word (int_bit_xor w32 n m)) }
    ensures keeps { Continues formula.old formula.new }
{
    let mut bits = [Bit::Known(false); 32];
    for i in 0..32 {
        bits[i] = xor(alloc, formula, a.bits[i], b.bits[i])?;
    }
    Ok(IntBits { bits })
}

/// `a` where `choice` is true, else `b`.
pub fn mux_ints(
    alloc: Global,
    formula: &mut Formula,
    choice: Bit,
    a: &IntBits,
    b: &IntBits,
) -> Mem<IntBits>
    ensures gate { AreIntsNamed formula.old a.now b.now → IsBitBelow formula.old.variables choice → IfOk result (λ word. IsIntGate formula.old formula.new word (λ k. chosen choice (bit_at a.now k) (bit_at b.now k))) }
    ensures first { AreIntsNamed formula.old a.now b.now → IsBitBelow formula.old.variables choice → IfOk result (λ word. (w : ℕ → Bool) (n : ℤ) → Satisfies w formula.new → bit_value w choice ≡ true → ShowsInt w a.now n → ShowsInt w word n) }
    ensures second { AreIntsNamed formula.old a.now b.now → IsBitBelow formula.old.variables choice → IfOk result (λ word. (w : ℕ → Bool) (n : ℤ) → Satisfies w formula.new → bit_value w choice ≡ false → ShowsInt w b.now n → ShowsInt w word n) }
    ensures keeps { Continues formula.old formula.new }
{
    let mut bits = [Bit::Known(false); 32];
    for i in 0..32 {
        bits[i] = mux(alloc, formula, choice, a.bits[i], b.bits[i])?;
    }
    Ok(IntBits { bits })
}

/// True exactly where the int is 0.
pub fn is_zero(alloc: Global, formula: &mut Formula, a: &IntBits) -> Mem<Bit>
    ensures gate { IsIntNamed formula.old a.now → IfOk result (λ bit. IsTest formula.old formula.new bit (HasNoBit a.now)) }
    ensures int { IsIntNamed formula.old a.now → IfOk result (λ bit. (w : ℕ → Bool) (n : ℤ) → Satisfies w formula.new → ShowsInt w a.now n → bit_value w bit ≡ int_eq n (pos 0)) }
    ensures keeps { Continues formula.old formula.new }
{
    let mut zero = Bit::Known(true);
    for index in 0..32 {
        zero = and(alloc, formula, zero, a.bits[index].not())?;
    }
    Ok(zero)
}

/// True exactly where the two ints are equal.
pub fn are_equal(alloc: Global, formula: &mut Formula, a: &IntBits, b: &IntBits) -> Mem<Bit>
    ensures gate { AreIntsNamed formula.old a.now b.now → IfOk result (λ bit. IsTest formula.old formula.new bit (HaveSameBits a.now b.now)) }
    ensures int { AreIntsNamed formula.old a.now b.now → IfOk result (λ bit. (w : ℕ → Bool) (n m : ℤ) → Satisfies w formula.new → ShowsInt w a.now n → ShowsInt w b.now m → bit_value w bit ≡ int_eq n m) }
    ensures keeps { Continues formula.old formula.new }
{
    let difference = xor_ints(alloc, formula, a, b)?;
    is_zero(alloc, formula, &difference)
}
