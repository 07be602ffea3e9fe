//! Class files as bytes: what a class file that was read, or made, is written as.
#![tactic(auto)]

mod attribute;
mod class_file;
mod code;
mod laws;
mod member;
mod number;
mod pool;
mod text;

pub use class_file::write_class;
pub use laws::{canonical, round_trip};
