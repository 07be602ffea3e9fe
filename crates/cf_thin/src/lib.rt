//! The thin methods of class files: static methods of ints and forward jumps.
#![tactic(auto)]

mod descriptor;
mod instr;
mod laws;
mod shape;
mod starts;
mod thin;
mod thin_code;

pub use instr::{ThinInstr, places_of_code, thin_instr, thin_instr_at};
pub use laws::{go_forward, stand_in_place, weaker_order};
pub use shape::{Limits, OperandType, Shape};
pub use thin::{ThinMethod, read_thin};
pub use thin_code::is_thin_code;
