// A choice between two words.
ghost use Rattle.std.specs.Prelude.{◌≡◌, ◌+◌, [], ◌∷◌, length, IfOk, if◌then◌else◌};
ghost use Rattle.cn_clauses.specs.Literals.{lit_value};
ghost use Rattle.bb_gates.specs.Growth.{AreOf, IsConservative};
ghost use Rattle.bb_arith.specs.Words.{number_of};
ghost use Rattle.bb_terms.specs.Calls.Words.{IsWord, chosen_number};

use bb_gates::{growth_laws, mux};
use cn_clauses::{Formula, Lit, extension_laws};
use jv_list::{List, Mem};
use std::alloc::Global;

// The first word where the choice is true, and else the second.
pub(crate) fn chosen_word(
    alloc: Global,
    formula: &mut Formula,
    choice: Lit,
    a: &[Lit],
    b: &[Lit],
) -> Mem<List<Lit>>
    requires even { length b.now ≡ length a.now }
    requires choice { AreOf formula.old (choice ∷ []) }
    requires first { AreOf formula.old a.now }
    requires second { AreOf formula.old b.now }
    ensures gate { IfOk result (λ lits. IsWord (length a.now) formula.old formula.new lits (chosen_number choice a.now b.now)) }
    ensures keeps { IsConservative formula.old formula.new }
{
    extension_laws();
    growth_laws();
    let mut lits = List::new(alloc);
    for i in 0..a.len() {
        let lit = mux(alloc, formula, choice, a[i], b[i])?;
        lits.add(lit)?;
    }
    Ok(lits)
}
