//! Keys of frames: the order in which a method is unwound. Each backward transfer that stays within the bounds leads to a greater key.
#![tactic(auto)]

mod backward;
mod interval;
mod intervals;
mod key;
mod laws;
mod next;
mod order;

pub use interval::Interval;
pub use intervals::Intervals;
pub use key::Key;
pub use laws::{order_laws, transfer_laws};
pub use next::{Next, advance};
pub use order::compare;
