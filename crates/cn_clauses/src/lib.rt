//! Formulas in conjunctive normal form: literals, clauses, assignments, and what follows from a formula.
#![tactic(auto)]

mod assignment;
mod clause;
mod formula;
mod laws;
mod lit;

pub use assignment::{Assignment, holds};
pub use clause::Clause;
pub use formula::Formula;
pub use laws::{extension_laws, input_laws, literal_laws, propagation_laws, value_laws};
pub use lit::Lit;
