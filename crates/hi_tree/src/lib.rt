//! The hierarchy of the classes that were read: what is a subtype, and which field or method a reference means.
#![tactic(auto)]

mod candidate;
mod declared;
mod fault;
mod field;
mod known;
mod laws;
mod names;
mod resolve;
mod select;
mod sought;
mod special;
mod subtype;
mod table;
mod walk;
mod world;

pub use declared::{Access, Declared, has_flag};
pub use fault::TreeFault;
pub use known::Up;
pub use laws::{fault_laws, growth_laws, method_laws, subtype_laws, walk_laws};
pub use table::Classes;
pub use world::{Asked, Was, World};
