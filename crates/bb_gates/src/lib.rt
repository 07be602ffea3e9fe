//! Gates: literals for the values of other literals.
#![tactic(auto)]

mod adder;
mod choice;
mod constant;
mod laws;
mod pairs;
mod relation;
mod signs;
mod slices;
mod table;
mod triple;

pub use adder::{carry_bit, sum_bit};
pub use choice::mux;
pub use constant::constant_lit;
pub use laws::growth_laws;
pub use pairs::{and, or, xor};
pub use slices::{conjunction, disjunction};
