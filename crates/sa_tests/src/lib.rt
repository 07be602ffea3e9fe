//! Tests of the public calls of the solver. What they expect comes from truth tables, from a plain search outside, and from
//! counting: pigeons and parities.
#![tactic(auto)]

#[cfg(test)]
mod checker;
#[cfg(test)]
mod formulas;
#[cfg(test)]
mod solving;
