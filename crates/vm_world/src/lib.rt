//! The state of the concrete machine: frames, a heap of numbered objects, static fields and class states.
#![tactic(auto)]

mod classes;
mod copies;
mod fields;
mod frame;
mod heap;
mod laws;
mod object;
mod state;

pub use classes::{ClassState, ClassStates, Stage};
pub use fields::{Fields, Slot, Static, is_same_field};
pub use frame::Frame;
pub use heap::Heap;
pub use laws::{field_laws, heap_laws, one_start};
pub use object::{Object, TextKind};
pub use state::{Literal, Mirror, State};
