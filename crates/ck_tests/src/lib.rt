//! Tests of shapes. What they expect follows from the rules of the JVM Specification, by hand, and of methods of class
//! files from the JVM.
#![tactic(auto)]

#[cfg(test)]
mod class;
#[cfg(test)]
mod code;
#[cfg(test)]
mod methods;
#[cfg(test)]
mod shapes;
