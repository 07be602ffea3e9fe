//! What stands in the way of a verdict on what was loaded: the refusals, exactly and in order.
#![tactic(auto)]

mod circular;
mod entry;
mod known;
mod refusal;
mod suited;
mod table;

pub use circular::is_circular;
pub use entry::lacks_entry;
pub use refusal::Refusal;
pub use suited::has_unsuited;
pub use table::suited_classes;
