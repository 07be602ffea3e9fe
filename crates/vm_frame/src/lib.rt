//! What an instruction does that needs the frame alone: its operand stack, its locals and its pc.
#![tactic(auto)]

mod arith;
mod constant;
mod effect;
mod jump;
mod laws;
mod local;
mod number;
mod operand;
mod shift;
mod stack;
mod step;
mod switch;

pub use constant::constant_effect;
pub use effect::{FrameEffect, FrameWent, replace, take_off};
pub use jump::jump_effect;
pub use laws::{local_laws, step_laws};
pub use local::{local_at, local_effect};
pub use number::{int_to_byte, int_to_char, int_to_short, number_effect};
pub use operand::{
    Operands, both, int_in, long_in, reference_in, second, top, two_ints, two_longs,
    two_references, without,
};
pub use stack::stack_effect;
pub use step::{frame_effect, frame_step};
pub use switch::{lookup_effect, table_effect};
