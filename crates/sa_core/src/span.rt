// Where a clause lies in the store.

/// The literals from `start` on and before `end`.
#[derive(Clone, Copy, Debug)]
pub struct Span {
    pub start: usize,
    pub end: usize,
}
