//! Texts of the machine: lists of UTF-16 units, and what the methods of java.lang.String compute of them.
#![tactic(auto)]

mod laws;
mod order;
mod search;
mod text;

pub use jv_list::{List, Mem, TryCopy};
pub use laws::{compare_laws, place_laws};
pub use text::Text;
