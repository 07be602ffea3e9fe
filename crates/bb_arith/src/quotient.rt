// Quotients and remainders of words.
ghost use Rattle.std.specs.Prelude.{◌≡◌, ◌<◌, ◌+◌, ◌*◌, ◌^◌, ℕ, Bool, [], ◌∷◌, IfOk};
ghost use Rattle.bb_gates.specs.Growth.{AreOf, IsConservative, Adds};
ghost use Rattle.bb_arith.specs.Words.{signed_of, IsWordGate};
ghost use Rattle.jv_list.specs.Numbers.{wrapped_number};
ghost use Rattle.jv_list.specs.Numbers.{quotient_of, remainder_of};
ghost use Rattle.bb_arith.specs.Calls.Division.{turned_number, turned_or_zero, IsReduced, IsDivided, IsDivision};

use crate::choice::choose;
use crate::order::below;
use crate::places::moved_up;
use crate::sum::sub;
use bb_gates::{constant_lit, disjunction, growth_laws, xor};
use cn_clauses::{Formula, Lit, extension_laws, literal_laws, value_laws};
use jv_list::Mem;
use std::alloc::Global;

/// The two words that a division gives.
#[derive(Clone, Copy)]
pub struct Division<const W: usize> {
    pub quotient: [Lit; W],
    pub remainder: [Lit; W],
}

// Whether the divisor goes into a number, and what it leaves of it.
#[derive(Clone, Copy)]
struct Step<const W: usize> {
    digit: Lit,
    rest: [Lit; W],
}

// The word's negative where the choice is true, and else the word.
fn turned<const W: usize>(
    alloc: Global,
    formula: &mut Formula,
    choice: Lit,
    word: &[Lit; W],
) -> Mem<[Lit; W]>
    requires choice { AreOf formula.old (choice ∷ []) }
    requires word { AreOf formula.old word.now }
    ensures gate { IfOk result (λ lits. IsWordGate formula.old formula.new lits (turned_number W choice word.now)) }
    ensures keeps { IsConservative formula.old formula.new }
    ensures size { Adds (3 * W + 2) (18 * W + 2) formula.old formula.new }
{
    extension_laws();
    growth_laws();
    let zero = constant_lit(alloc, formula, false)?;
    let negative = sub(alloc, formula, &[zero; W], word)?;
    choose(alloc, formula, choice, &negative, word)
}

// Takes the divisor from a number that is not less.
fn reduced<const W: usize>(
    alloc: Global,
    formula: &mut Formula,
    word: &[Lit; W],
    divisor: &[Lit; W],
) -> Mem<Step<W>>
    requires word { AreOf formula.old word.now }
    requires divisor { AreOf formula.old divisor.now }
    ensures gate { IfOk result (λ made. IsReduced W formula.old formula.new word.now divisor.now made.rest made.digit) }
    ensures keeps { IsConservative formula.old formula.new }
    ensures size { Adds (4 * W + 2) (24 * W + 2) formula.old formula.new }
{
    literal_laws();
    extension_laws();
    value_laws();
    growth_laws();
    let less = below(alloc, formula, word, divisor)?;
    let shorter = sub(alloc, formula, word, divisor)?;
    let rest = choose(alloc, formula, less, word, &shorter)?;
    Ok(Step {
        digit: less.opposite(),
        rest,
    })
}

// Long division of numbers without a sign, the highest bit first.
fn divided<const W: usize>(
    alloc: Global,
    formula: &mut Formula,
    word: &[Lit; W],
    divisor: &[Lit; W],
) -> Mem<Division<W>>
    requires word { AreOf formula.old word.now }
    requires divisor { AreOf formula.old divisor.now }
    ensures gate { IfOk result (λ made. IsDivided 0 W formula.old formula.new word.now divisor.now made.quotient made.remainder) }
    ensures keeps { IsConservative formula.old formula.new }
    ensures size { Adds (W * (4 * W + 2) + 1) (W * (24 * W + 2) + 1) formula.old formula.new }
{
    extension_laws();
    growth_laws();
    let zero = constant_lit(alloc, formula, false)?;
    let mut quotient = [zero; W];
    let mut rest = [zero; W];
    for k in 0..W {
        let i = W - 1 - k;
        let longer = moved_up(&rest, 1, word[i]);
        let step = reduced(alloc, formula, &longer, divisor)?;
        quotient[i] = step.digit;
        rest = step.rest;
    }
    Ok(Division {
        quotient,
        remainder: rest,
    })
}

// Divides the numbers of two words, each turned where its sign is true.
fn magnitudes_divided<const W: usize>(
    alloc: Global,
    formula: &mut Formula,
    signs: (Lit, Lit),
    a: &[Lit; W],
    b: &[Lit; W],
) -> Mem<Division<W>>
    requires signs { AreOf formula.old (signs.0 ∷ signs.1 ∷ []) }
    requires first { AreOf formula.old a.now }
    requires second { AreOf formula.old b.now }
    ensures gate { IfOk result (λ made. IsDivision W formula.old formula.new (turned_number W signs.0 a.now) (turned_number W signs.1 b.now) made.quotient made.remainder) }
    ensures keeps { IsConservative formula.old formula.new }
    ensures size { Adds (W * (4 * W + 8) + 5) (W * (24 * W + 38) + 5) formula.old formula.new }
{
    extension_laws();
    growth_laws();
    let x = turned(alloc, formula, signs.0, a)?;
    let y = turned(alloc, formula, signs.1, b)?;
    divided(alloc, formula, &x, &y)
}

// The word's negative where the sign is true, and else the word; zero unless there is some.
fn turned_unless_none<const W: usize>(
    alloc: Global,
    formula: &mut Formula,
    some: Lit,
    sign: Lit,
    word: &[Lit; W],
) -> Mem<[Lit; W]>
    requires signs { AreOf formula.old (some ∷ sign ∷ []) }
    requires word { AreOf formula.old word.now }
    ensures gate { IfOk result (λ lits. IsWordGate formula.old formula.new lits (turned_or_zero W some sign word.now)) }
    ensures keeps { IsConservative formula.old formula.new }
    ensures size { Adds (4 * W + 3) (22 * W + 3) formula.old formula.new }
{
    extension_laws();
    value_laws();
    growth_laws();
    let zero = constant_lit(alloc, formula, false)?;
    let answer = turned(alloc, formula, sign, word)?;
    choose(alloc, formula, some, &answer, &[zero; W])
}

// The division of signed words of at least one bit.
fn signed_division<const W: usize>(
    alloc: Global,
    formula: &mut Formula,
    a: &[Lit; W],
    b: &[Lit; W],
) -> Mem<Division<W>>
    requires wide { 0 < W }
    requires first { AreOf formula.old a.now }
    requires second { AreOf formula.old b.now }
    ensures quotient { IfOk result (λ made. IsWordGate formula.old formula.new made.quotient (λ w. wrapped_number W (quotient_of (signed_of w a.now) (signed_of w b.now)))) }
    ensures remainder { IfOk result (λ made. IsWordGate formula.old formula.new made.remainder (λ w. wrapped_number W (remainder_of (signed_of w a.now) (signed_of w b.now)))) }
    ensures keeps { IsConservative formula.old formula.new }
    ensures size { Adds (W * (4 * W + 17) + 13) (W * (24 * W + 85) + 16) formula.old formula.new }
{
    extension_laws();
    value_laws();
    growth_laws();
    let signs = (a[W - 1], b[W - 1]);
    let parts = magnitudes_divided(alloc, formula, signs, a, b)?;
    let some = disjunction(alloc, formula, b)?;
    let sign = xor(alloc, formula, signs.0, signs.1)?;
    let quotient = turned_unless_none(alloc, formula, some, sign, &parts.quotient)?;
    let remainder = turned_unless_none(alloc, formula, some, signs.0, &parts.remainder)?;
    Ok(Division {
        quotient,
        remainder,
    })
}

/// The quotient of two words in two's complement, rounded toward zero, and what it leaves, with the sign of `a`. By 0
/// both are 0, and the least number by -1 gives itself and 0.
pub fn divrem<const W: usize>(
    alloc: Global,
    formula: &mut Formula,
    a: &[Lit; W],
    b: &[Lit; W],
) -> Mem<Division<W>>
    requires first { AreOf formula.old a.now }
    requires second { AreOf formula.old b.now }
    ensures quotient { IfOk result (λ made. IsWordGate formula.old formula.new made.quotient (λ w. wrapped_number W (quotient_of (signed_of w a.now) (signed_of w b.now)))) }
    ensures remainder { IfOk result (λ made. IsWordGate formula.old formula.new made.remainder (λ w. wrapped_number W (remainder_of (signed_of w a.now) (signed_of w b.now)))) }
    ensures keeps { IsConservative formula.old formula.new }
    ensures size { Adds (W * (4 * W + 17) + 13) (W * (24 * W + 85) + 16) formula.old formula.new }
{
    extension_laws();
    growth_laws();
    if W == 0 {
        return Ok(Division {
            quotient: *a,
            remainder: *a,
        });
    }
    signed_division(alloc, formula, a, b)
}
