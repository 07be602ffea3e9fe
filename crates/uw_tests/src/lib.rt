//! Tests of the public calls of the keys of frames. What they expect was worked out by hand, or comes from slow definitions that
//! stand beside.
#![tactic(auto)]

#[cfg(test)]
mod graphs;
#[cfg(test)]
mod intervals;
#[cfg(test)]
mod keys;
#[cfg(test)]
mod slow;
#[cfg(test)]
mod walks;
