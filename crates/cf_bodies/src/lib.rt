//! The judging of the code of methods, in a class file whose structure was read and whose names, descriptors and indices are in
//! order: the instructions of each Code, or the first fault.
#![tactic(auto)]

mod bodies;
mod code;
mod fault;
mod laws;
mod need;
mod place;
mod row;
mod size;

pub use bodies::judge_bodies;
pub use laws::{one_file, one_verdict};
pub use need::{Need, PoolKind, is_met, need_of};
