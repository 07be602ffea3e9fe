//! What an instruction does to the heap and to its frame: the instructions on arrays.
#![tactic(auto)]

mod effect;
mod element;
mod laws;
mod length;
mod load;
mod make;
mod operand;
mod place;
mod step;
mod store;

pub use effect::{ArrayEffect, ArrayWent};
pub use element::{ElementType, default_value, element_type, holds, narrowed, takes, type_text};
pub use laws::{array_laws, change_laws};
pub use length::length_effect;
pub use load::load_effect;
pub use make::make_effect;
pub use operand::{StoreOperands, reference_and_int, store_operands};
pub use place::element_descriptor;
pub use step::{Setting, array_effect, array_step};
pub use store::store_effect;
