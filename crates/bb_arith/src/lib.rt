//! Arithmetic of words: literals for the bits of numbers, the lowest first.
#![tactic(auto)]

mod choice;
mod order;
mod places;
mod product;
mod quotient;
mod shift;
mod sum;

pub use choice::choose;
pub use order::{below, less};
pub use product::mul;
pub use quotient::{Division, divrem};
pub use shift::{shl, shr, ushr};
pub use sum::{add, sub};
