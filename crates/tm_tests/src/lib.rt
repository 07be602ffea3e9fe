//! Tests of the public calls of terms. What they expect was worked out by hand, or comes from the JVM.
#![tactic(auto)]

#[cfg(test)]
mod operations;
#[cfg(test)]
mod rows;
#[cfg(test)]
mod sharing;
#[cfg(test)]
mod tables;
