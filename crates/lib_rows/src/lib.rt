//! The classes and methods of the JDK that are known without a class file.
#![tactic(auto)]

mod class;
mod laws;
mod method;
mod row;

pub use class::{Builtin, find_class};
pub use laws::{class_rules, one_row};
pub use method::LibMethod;
pub use row::find_row;
