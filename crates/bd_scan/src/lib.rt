//! What the loading rules and the list of what is not supported read from a method: its facts.
#![tactic(auto)]

mod descriptor;
mod exception;
mod fact;
mod laws;
mod method;
mod named;
mod opcode;
mod pool;
mod used;

pub use cf_code::FieldUse;
pub use fact::{Fact, Why};
pub use laws::{class_names, float_descriptors, refused_opcodes};
pub use method::scan;
pub use pool::{field_at, method_at};
