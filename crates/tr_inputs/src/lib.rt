//! Inputs as JSON.
#![tactic(auto)]

mod arguments;
mod text;
mod tree;

pub use text::input_text;
