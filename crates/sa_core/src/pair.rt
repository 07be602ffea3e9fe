// The pair of a clause.
use cn_clauses::Lit;

/// The two literals by which a clause is watched. A clause is not watched where they are the same.
#[derive(Clone, Copy, Debug)]
pub struct Pair {
    pub first: Lit,
    pub second: Lit,
    /// Where in the clause a literal that is not false is looked for first. It is a hint, of which no clause speaks.
    pub hint: usize,
}
