// Sums of words.
ghost use Rattle.std.specs.Prelude.{◌≡◌, ◌+◌, ◌-◌, ◌*◌, ◌^◌, ◌%◌, IfOk, ℕ, Bool};
ghost use Rattle.cn_clauses.specs.declared.formula.Formula.{Formula};
ghost use Rattle.bb_gates.specs.Growth.{AreOf, IsConservative, Adds};
ghost use Rattle.bb_arith.specs.Words.{number_of, IsWordGate};
ghost use Rattle.jv_list.specs.Numbers.{bit_number};

use bb_gates::{carry_bit, constant_lit, growth_laws, sum_bit};
use cn_clauses::{Formula, Lit, extension_laws, literal_laws, value_laws};
use jv_list::Mem;
use std::alloc::Global;

// The opposites of a word's literals: the number that is less than 2 to the power W by the word's and one.
fn opposites<const W: usize>(word: &[Lit; W]) -> [Lit; W]
    ensures within { (f : Formula) → AreOf f word.now → AreOf f result }
    ensures value { (w : ℕ → Bool) → number_of w result + number_of w word.now + 1 ≡ 2 ^ W }
{
    literal_laws();
    let mut made = *word;
    for i in 0..W {
        made[i] = word[i].opposite();
    }
    made
}

// The sum of two words and a bit, without the carry out of it.
fn sum_of<const W: usize>(
    alloc: Global,
    formula: &mut Formula,
    a: &[Lit; W],
    b: &[Lit; W],
    one: bool,
) -> Mem<[Lit; W]>
    requires first { AreOf formula.old a.now }
    requires second { AreOf formula.old b.now }
    ensures gate { IfOk result (λ lits. IsWordGate formula.old formula.new lits (λ w. (number_of w a.now + number_of w b.now + bit_number one) % 2 ^ W)) }
    ensures keeps { IsConservative formula.old formula.new }
    ensures size { Adds (2 * W + 1) (14 * W + 1) formula.old formula.new }
{
    literal_laws();
    extension_laws();
    value_laws();
    growth_laws();
    let mut sum = *a;
    let mut carry = constant_lit(alloc, formula, one)?;
    for i in 0..W {
        sum[i] = sum_bit(alloc, formula, a[i], b[i], carry)?;
        if i + 1 < W {
            carry = carry_bit(alloc, formula, a[i], b[i], carry)?;
        }
    }
    Ok(sum)
}

/// The sum of two words, modulo 2 to the power W.
pub fn add<const W: usize>(
    alloc: Global,
    formula: &mut Formula,
    a: &[Lit; W],
    b: &[Lit; W],
) -> Mem<[Lit; W]>
    requires first { AreOf formula.old a.now }
    requires second { AreOf formula.old b.now }
    ensures gate { IfOk result (λ lits. IsWordGate formula.old formula.new lits (λ w. (number_of w a.now + number_of w b.now) % 2 ^ W)) }
    ensures keeps { IsConservative formula.old formula.new }
    ensures size { Adds (2 * W + 1) (14 * W + 1) formula.old formula.new }
{
    sum_of(alloc, formula, a, b, false)
}

/// The difference of two words, modulo 2 to the power W.
pub fn sub<const W: usize>(
    alloc: Global,
    formula: &mut Formula,
    a: &[Lit; W],
    b: &[Lit; W],
) -> Mem<[Lit; W]>
    requires first { AreOf formula.old a.now }
    requires second { AreOf formula.old b.now }
    ensures gate { IfOk result (λ lits. IsWordGate formula.old formula.new lits (λ w. (number_of w a.now + (2 ^ W - number_of w b.now)) % 2 ^ W)) }
    ensures keeps { IsConservative formula.old formula.new }
    ensures size { Adds (2 * W + 1) (14 * W + 1) formula.old formula.new }
{
    let turned = opposites(b);
    sum_of(alloc, formula, a, &turned, true)
}
