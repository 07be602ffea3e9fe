//! Copies of class files: each equals the class file that it was made of.
#![tactic(auto)]

mod attribute;
mod class_file;
mod code;
mod copied;
mod instr;
mod member;
mod named;
mod pool;

pub use class_file::copy_class;
