// Constant words.
ghost use Rattle.std.specs.Prelude.{◌≡◌, ◌≤◌, ◌%◌, ◌^◌, length, IfOk};
ghost use Rattle.bb_gates.specs.Growth.{AreOf, IsConservative};
ghost use Rattle.bb_terms.specs.Calls.Words.{IsWord};

use bb_gates::{constant_lit, growth_laws};
use cn_clauses::{Formula, Lit, extension_laws};
use jv_list::{List, Mem};
use std::alloc::Global;

// The literals of the lowest bits of a number.
pub(crate) fn constant_word(
    alloc: Global,
    formula: &mut Formula,
    width: u32,
    number: u64,
) -> Mem<List<Lit>>
    requires { width ≤ 64 }
    ensures gate { IfOk result (λ lits. IsWord width formula.old formula.new lits (λ w. number % 2 ^ width)) }
    ensures keeps { IsConservative formula.old formula.new }
{
    extension_laws();
    growth_laws();
    let mut lits = List::new(alloc);
    for i in 0..width {
        let lit = constant_lit(alloc, formula, (number >> i) % 2 == 1)?;
        lits.add(lit)?;
    }
    Ok(lits)
}
