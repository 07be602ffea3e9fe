// Words shifted by the number of a word.
ghost use Rattle.std.specs.Prelude.{◌≡◌, ◌<◌, ◌+◌, ◌*◌, ◌/◌, ◌%◌, ◌^◌, ℕ, Bool, false, [], ◌∷◌, IfOk, IsTrue};
ghost use Rattle.std.specs.Int.{is_power_of_two, int_shr};
ghost use Rattle.cn_clauses.specs.Literals.{lit_value};
ghost use Rattle.cn_clauses.specs.Extension.{Shows};
ghost use Rattle.bb_gates.specs.Growth.{AreOf, IsConservative, Adds};
ghost use Rattle.bb_arith.specs.Words.{number_of, signed_of, IsWordGate};
ghost use Rattle.jv_list.specs.Numbers.{wrapped_number};
ghost use Rattle.bb_arith.specs.Calls.Moves.{moved_number};

use crate::choice::choose;
use crate::places::moved;
use bb_gates::{constant_lit, growth_laws};
use cn_clauses::{Formula, Lit, extension_laws};
use jv_list::Mem;
use std::alloc::Global;

// The word shifted by the distance, down or up, with the literal in the places that are free: for each bit of the
// distance a choice of the word that is moved by its power of two.
fn shifted<const W: usize>(
    alloc: Global,
    formula: &mut Formula,
    word: &[Lit; W],
    distance: &[Lit; W],
    down: bool,
    fill: Lit,
) -> Mem<[Lit; W]>
    requires power { IsTrue (is_power_of_two W) }
    requires word { AreOf formula.old word.now }
    requires distance { AreOf formula.old distance.now }
    requires fill { AreOf formula.old (fill ∷ []) }
    requires zeros { down ≡ false → Shows formula.old fill (λ w. false) }
    ensures gate { IfOk result (λ lits. IsWordGate formula.old formula.new lits (λ w. moved_number down W (lit_value w fill) (number_of w distance.now % W) (number_of w word.now))) }
    ensures keeps { IsConservative formula.old formula.new }
    ensures size { (m : ℕ) → W ≡ 2 ^ m → Adds (m * W) (m * (4 * W)) formula.old formula.new }
{
    extension_laws();
    growth_laws();
    let mut shifted = *word;
    let mut places = 1;
    let mut i = 0;
    while places < W {
        let other = moved(&shifted, down, places, fill);
        shifted = choose(alloc, formula, distance[i], &other, &shifted)?;
        places *= 2;
        i += 1;
    }
    Ok(shifted)
}

/// The word moved up by the distance modulo W, with zeros below. W is a power of two.
pub fn shl<const W: usize>(
    alloc: Global,
    formula: &mut Formula,
    word: &[Lit; W],
    distance: &[Lit; W],
) -> Mem<[Lit; W]>
    requires power { IsTrue (is_power_of_two W) }
    requires first { AreOf formula.old word.now }
    requires second { AreOf formula.old distance.now }
    ensures gate { IfOk result (λ lits. IsWordGate formula.old formula.new lits (λ w. (number_of w word.now * 2 ^ (number_of w distance.now % W)) % 2 ^ W)) }
    ensures keeps { IsConservative formula.old formula.new }
    ensures size { (m : ℕ) → W ≡ 2 ^ m → Adds (m * W + 1) (m * (4 * W) + 1) formula.old formula.new }
{
    extension_laws();
    growth_laws();
    let zero = constant_lit(alloc, formula, false)?;
    shifted(alloc, formula, word, distance, false, zero)
}

/// The word moved down by the distance modulo W, with zeros above. W is a power of two.
pub fn ushr<const W: usize>(
    alloc: Global,
    formula: &mut Formula,
    word: &[Lit; W],
    distance: &[Lit; W],
) -> Mem<[Lit; W]>
    requires power { IsTrue (is_power_of_two W) }
    requires first { AreOf formula.old word.now }
    requires second { AreOf formula.old distance.now }
    ensures gate { IfOk result (λ lits. IsWordGate formula.old formula.new lits (λ w. number_of w word.now / 2 ^ (number_of w distance.now % W))) }
    ensures keeps { IsConservative formula.old formula.new }
    ensures size { (m : ℕ) → W ≡ 2 ^ m → Adds (m * W + 1) (m * (4 * W) + 1) formula.old formula.new }
{
    extension_laws();
    growth_laws();
    let zero = constant_lit(alloc, formula, false)?;
    shifted(alloc, formula, word, distance, true, zero)
}

/// The word moved down by the distance modulo W, with its sign above. W is a power of two.
pub fn shr<const W: usize>(
    alloc: Global,
    formula: &mut Formula,
    word: &[Lit; W],
    distance: &[Lit; W],
) -> Mem<[Lit; W]>
    requires power { IsTrue (is_power_of_two W) }
    requires first { AreOf formula.old word.now }
    requires second { AreOf formula.old distance.now }
    ensures gate { IfOk result (λ lits. IsWordGate formula.old formula.new lits (λ w. wrapped_number W (int_shr (signed_of w word.now) (number_of w distance.now % W)))) }
    ensures keeps { IsConservative formula.old formula.new }
    ensures size { (m : ℕ) → W ≡ 2 ^ m → Adds (m * W) (m * (4 * W)) formula.old formula.new }
{
    let sign = word[W - 1];
    shifted(alloc, formula, word, distance, true, sign)
}
