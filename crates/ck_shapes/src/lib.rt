//! Shapes of code: the types of the locals and of the operand stack of a frame at each instruction.
#![tactic(auto)]

mod after;
mod check;
mod effect;
mod families;
mod fault;
mod find;
mod flow;
mod laws;
mod local;
mod locals;
mod method;
mod places;
mod run;
mod search;
mod shape;
mod signature;
mod stack;
mod step;
mod types;
mod way;

pub use check::check_shapes;
pub use effect::{Effect, Move};
pub use fault::ShapeFault;
pub use find::{Shapes, find_shapes};
pub use flow::{Action, Flow, Handler, Step};
pub use laws::signatures;
pub use locals::Locals;
pub use method::method_flow;
pub use shape::{Limits, Shape, ValueType};
pub use signature::Signature;
pub use stack::Stack;
