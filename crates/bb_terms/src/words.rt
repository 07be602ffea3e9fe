// Words of a width that is known.
ghost use Rattle.std.specs.Prelude.{◌≡◌, length, IfOk};

use cn_clauses::Lit;
use jv_list::{List, Mem};
use std::alloc::Global;

// The literals as an array.
pub fn word<const W: usize>(lits: &[Lit]) -> [Lit; W]
    requires { length lits.now ≡ W }
    ensures { result ≡ lits.now }
{
    let mut made = [Lit(0); W];
    made.copy_from_slice(lits);
    made
}

// The literals as a list.
pub fn listed<const W: usize>(alloc: Global, word: &[Lit; W]) -> Mem<List<Lit>>
    ensures { IfOk result (λ lits. (lits ≡ word.now) × (length lits ≡ W)) }
{
    List::copied(alloc, word)
}
