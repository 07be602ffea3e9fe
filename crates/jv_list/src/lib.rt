//! `List`, which contracts see as the list of its elements, and the general lemmas about lists that every crate may cite.
#![tactic(auto)]

mod list;

pub use list::{List, TryCopy};

/// What a call gives that may find no memory.
pub type Mem<T> = Result<T, std::alloc::AllocError>;
