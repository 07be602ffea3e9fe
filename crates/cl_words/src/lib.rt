//! The words of the command line, read to the command that they are.
#![tactic(auto)]

mod command;
mod fault;
mod laws;
mod line;
mod matched;
mod option;
mod reading;
#[cfg(test)]
mod tests;

pub use command::{Command, Mode};
pub use fault::WordsFault;
pub use laws::one_command;
pub use reading::read_words;
