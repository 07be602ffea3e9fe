//! Terms over words of 1, 16, 32 and 64 bits: what they mean, and a bank that shares them and folds constants.
#![tactic(auto)]

mod bank;
mod bits;
mod chain;
mod constant;
mod fits;
mod fold;
mod guards;
mod known;
mod laws;
mod numbers;
mod op;
mod order;
mod places;
mod rewrite;
mod same;
mod sort;
mod splits;
mod sums;
mod truths;
mod values;
mod words;

pub use bank::Bank;
pub use laws::{growth_laws, term_laws};
pub use op::{Op, Operands, StrTerm, TermId};
pub use sort::Sort;
pub use values::Valuation;
