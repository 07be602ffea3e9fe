// Words of fresh variables.
ghost use Rattle.std.specs.Prelude.{◌≡◌, IfOk};
ghost use Rattle.bb_gates.specs.Growth.{IsConservative};
ghost use Rattle.bb_terms.specs.Calls.Words.{IsFreeWord};

use bb_gates::growth_laws;
use cn_clauses::{Formula, Lit, extension_laws, input_laws};
use jv_list::{List, Mem};
use std::alloc::Global;

// So many fresh literals.
pub(crate) fn free_word(alloc: Global, formula: &mut Formula, width: u32) -> Mem<List<Lit>>
    ensures gate { IfOk result (λ lits. IsFreeWord width formula.old formula.new lits) }
    ensures keeps { IsConservative formula.old formula.new }
{
    extension_laws();
    growth_laws();
    input_laws();
    let mut lits = List::new(alloc);
    while lits.length() < width as usize {
        let lit = formula.fresh()?;
        lits.add(lit)?;
    }
    Ok(lits)
}
