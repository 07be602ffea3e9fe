//! Tests of the public calls of inputs as JSON.
#![tactic(auto)]

#[cfg(test)]
mod large;
#[cfg(test)]
mod texts;
#[cfg(test)]
mod trees;
