//! Class files, read whole: the value that a file stands for, with the name at each index and the instructions of each method, or
//! the first fault.
#![tactic(auto)]

mod attribute;
mod bodies;
mod class_file;
mod code;
mod declared;
mod laws;
mod member;
mod named;

pub use attribute::{Attribute, Body};
pub use class_file::{ClassFile, read_class};
pub use code::{Code, Skipped};
pub use declared::{code_in, member_in};
pub use laws::one_class;
pub use member::Member;
pub use named::Named;
