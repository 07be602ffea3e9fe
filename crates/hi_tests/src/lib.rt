//! Tests of the public calls of the hierarchy. What they expect is what a Java virtual machine answers.
#![tactic(auto)]

#[cfg(test)]
mod cases;
#[cfg(test)]
mod hierarchies;
#[cfg(test)]
mod inputs;
#[cfg(test)]
mod names;
#[cfg(test)]
mod sizes;
#[cfg(test)]
mod worlds;
