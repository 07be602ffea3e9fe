//! Tests of the public calls of the lower layer: lists, names and their texts, folders and sinks, constant pools and the
//! structure of class files, instructions and code, and thin methods. What they expect comes from the Java Virtual Machine
//! Specification and from javac and javap.
#![tactic(auto)]

#[cfg(test)]
mod bodies;
#[cfg(test)]
mod classes;
#[cfg(test)]
mod codes;
#[cfg(test)]
mod copies;
#[cfg(test)]
mod descriptors;
#[cfg(test)]
mod entries;
#[cfg(test)]
mod folders;
#[cfg(test)]
mod instructions;
#[cfg(test)]
mod judgements;
#[cfg(test)]
mod kinds;
#[cfg(test)]
mod lists;
#[cfg(test)]
mod names;
#[cfg(test)]
mod pools;
#[cfg(test)]
mod sinks;
#[cfg(test)]
mod sites;
#[cfg(test)]
mod structures;
#[cfg(test)]
mod tables;
#[cfg(test)]
mod thin_classes;
#[cfg(test)]
mod thin_code;
#[cfg(test)]
mod told;
#[cfg(test)]
mod transfers;
#[cfg(test)]
mod units;
#[cfg(test)]
mod written;
