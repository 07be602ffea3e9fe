//! Tests of the public calls of the loading layer: the facts of methods, and the least sets. What they expect comes from the Java Virtual
//! Machine Specification and from javac and javap.
#![tactic(auto)]

#[cfg(test)]
mod cases;
#[cfg(test)]
mod facts;
#[cfg(test)]
mod refusals;
#[cfg(test)]
mod tables;
#[cfg(test)]
mod worlds;
