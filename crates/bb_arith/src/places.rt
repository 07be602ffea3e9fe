// Words moved by places.
ghost use Rattle.std.specs.Prelude.{◌≡◌, ◌≤◌, ◌+◌, ◌-◌, ◌*◌, ◌/◌, ◌%◌, ◌^◌, ℕ, Bool, false, [], ◌∷◌};
ghost use Rattle.cn_clauses.specs.declared.formula.Formula.{Formula};
ghost use Rattle.cn_clauses.specs.Literals.{lit_value};
ghost use Rattle.bb_gates.specs.Growth.{AreOf};
ghost use Rattle.bb_arith.specs.Words.{number_of};
ghost use Rattle.jv_list.specs.Numbers.{bit_number};
ghost use Rattle.bb_arith.specs.Calls.Moves.{moved_number};

use cn_clauses::Lit;

// The word moved down by so many places, or up. The literal stands in the places that are free.
pub fn moved<const W: usize>(word: &[Lit; W], down: bool, places: usize, fill: Lit) -> [Lit; W]
    requires { places ≤ W }
    ensures within { (f : Formula) → AreOf f word.now → AreOf f (fill ∷ []) → AreOf f result }
    ensures value { (w : ℕ → Bool) → (down ≡ false → lit_value w fill ≡ false) → number_of w result ≡ moved_number down W (lit_value w fill) places (number_of w word.now) }
{
    if down {
        moved_down(word, places, fill)
    } else {
        moved_up(word, places, fill)
    }
}

// The word moved up by so many places. The literal stands in the places below.
pub fn moved_up<const W: usize>(word: &[Lit; W], places: usize, fill: Lit) -> [Lit; W]
    requires { places ≤ W }
    ensures within { (f : Formula) → AreOf f word.now → AreOf f (fill ∷ []) → AreOf f result }
    ensures value { (w : ℕ → Bool) → number_of w result ≡ (number_of w word.now * 2 ^ places) % 2 ^ W + bit_number (lit_value w fill) * (2 ^ places - 1) }
{
    let mut moved = [fill; W];
    let upper = &mut moved[..];
    upper[places..].copy_from_slice(&word[..W - places]);
    moved
}

// The word moved down by so many places. The literal stands in the places above.
fn moved_down<const W: usize>(word: &[Lit; W], places: usize, fill: Lit) -> [Lit; W]
    requires { places ≤ W }
    ensures within { (f : Formula) → AreOf f word.now → AreOf f (fill ∷ []) → AreOf f result }
    ensures value { (w : ℕ → Bool) → number_of w result ≡ number_of w word.now / 2 ^ places + bit_number (lit_value w fill) * (2 ^ W - 2 ^ (W - places)) }
{
    let mut moved = [fill; W];
    let upper = &word[..];
    let lower = &mut moved[..];
    lower[0..W - places].copy_from_slice(&upper[places..]);
    moved
}
