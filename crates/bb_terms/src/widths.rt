// Words made longer or shorter.
ghost use Rattle.std.specs.Prelude.{◌≡◌, ◌≤◌, ◌<◌, ◌%◌, ◌^◌, [], ◌∷◌, take, length, IfOk};
ghost use Rattle.bb_terms.specs.Calls.Words.{IsLonger};

use cn_clauses::Lit;
use jv_list::{List, Mem};
use std::alloc::Global;

// The word with a literal in each further place.
pub(crate) fn longer(alloc: Global, lits: &[Lit], fill: Lit, width: u32) -> Mem<List<Lit>>
    requires { length lits.now ≤ width }
    ensures { IfOk result (λ made. IsLonger lits.now fill width made) }
{
    let mut made = List::copied(alloc, lits)?;
    while made.length() < width as usize {
        made.add(fill)?;
    }
    Ok(made)
}
