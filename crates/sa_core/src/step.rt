// A step of the trail.
use cn_clauses::Lit;

/// A literal that became true, and the place in the store of the clause that forced it. A decision has no reason.
#[derive(Clone, Copy, Debug)]
pub struct Step {
    pub lit: Lit,
    pub reason: Option<usize>,
}
