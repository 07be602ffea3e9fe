//! A SAT solver that learns clauses. Each answer is proved, and each learned clause follows by unit propagation.
#![tactic(auto)]

mod analyze;
mod backtrack;
mod decide;
mod log;
mod minimize;
mod order;
mod pair;
mod propagate;
mod restarts;
mod search;
mod solver;
mod span;
mod start;
mod step;
mod store;
mod trail;
mod watches;

pub use log::{Log, LogEntry};
pub use solver::{Solved, Solver};
