//! The constant pool of a class file, and modified UTF-8: read by a grammar, each fault named at its place.
#![tactic(auto)]

mod content;
mod entry;
mod fault;
mod laws;
mod reader;
mod tag;
mod units;

pub use entry::{Pool, PoolEntry};
pub use fault::{Fault, PoolFault, What};
pub use laws::{one_pool, one_text, round_trip};
pub use reader::read_pool;
pub use tag::Tag;
pub use units::units_of;
