// Literals as they are or opposed.
ghost use Rattle.std.specs.Prelude.{◌≡◌, ℕ, Bool, not};
ghost use Rattle.cn_clauses.specs.Literals.{variable_of, opposite_of, lit_value};
ghost use Rattle.bb_gates.specs.Calls.Table.{signed_lit};

use cn_clauses::{Lit, literal_laws};

// The opposite, with what the laws of literals say of it.
pub fn opposed(lit: Lit) -> Lit
    ensures is { result ≡ opposite_of lit }
    ensures variable { variable_of result ≡ variable_of lit }
    ensures value { (w : ℕ → Bool) → lit_value w result ≡ not (lit_value w lit) }
{
    literal_laws();
    lit.opposite()
}

// The literal, or its opposite.
pub fn signed(lit: Lit, sign: bool) -> Lit
    ensures { result ≡ signed_lit lit sign }
{
    if sign { lit } else { opposed(lit) }
}
