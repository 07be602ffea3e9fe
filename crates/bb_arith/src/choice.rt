// A choice between two words.
ghost use Rattle.std.specs.Prelude.{◌≡◌, ◌*◌, [], ◌∷◌, IfOk, if◌then◌else◌};
ghost use Rattle.cn_clauses.specs.Literals.{lit_value};
ghost use Rattle.bb_gates.specs.Growth.{AreOf, IsConservative, Adds};
ghost use Rattle.bb_arith.specs.Words.{number_of, IsWordGate};

use bb_gates::{growth_laws, mux};
use cn_clauses::{Formula, Lit, extension_laws};
use jv_list::Mem;
use std::alloc::Global;

/// The first word where the choice is true, and else the second.
pub fn choose<const W: usize>(
    alloc: Global,
    formula: &mut Formula,
    choice: Lit,
    a: &[Lit; W],
    b: &[Lit; W],
) -> Mem<[Lit; W]>
    requires choice { AreOf formula.old (choice ∷ []) }
    requires first { AreOf formula.old a.now }
    requires second { AreOf formula.old b.now }
    ensures gate { IfOk result (λ lits. IsWordGate formula.old formula.new lits (λ w. if lit_value w choice then number_of w a.now else number_of w b.now)) }
    ensures keeps { IsConservative formula.old formula.new }
    ensures size { Adds W (4 * W) formula.old formula.new }
{
    extension_laws();
    growth_laws();
    let mut made = *a;
    for i in 0..W {
        made[i] = mux(alloc, formula, choice, a[i], b[i])?;
    }
    Ok(made)
}
