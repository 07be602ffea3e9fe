//! Terms to clauses: literals for the bits of terms.
#![tactic(auto)]

mod arithmetic;
mod bits;
mod blaster;
mod choice;
mod cone;
mod constant;
mod free;
mod laws;
mod operation;
mod order;
mod step;
mod table;
mod widths;
mod words;

pub use blaster::blast;
pub use laws::blasting_laws;
pub use table::Table;
