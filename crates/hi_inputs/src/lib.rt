//! The inputs of an entry method: the types that stand in them, and the classes of their objects.
#![tactic(auto)]

mod above;
mod below;
mod classes;
mod fields;
mod first;
mod flat;
mod made;
mod types;

pub use above::upward;
pub use classes::input_classes;
pub use made::is_made;
pub use types::input_types;
