//! Tests of the public calls of formulas, gates and arithmetic, and of those from terms to clauses. What they expect was worked
//! out by hand, or with numbers.
#![tactic(auto)]

#[cfg(test)]
mod arithmetic;
#[cfg(test)]
mod clauses;
#[cfg(test)]
mod extension;
#[cfg(test)]
mod gates;
#[cfg(test)]
mod terms;
