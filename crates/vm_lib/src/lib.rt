//! What the methods of the JDK that the checker knows do to the state of the machine.
#![tactic(auto)]

mod builder;
mod choice;
mod object;
mod operand;
mod plain;
mod plan;
mod string;
mod value;

pub use builder::{
    append_boolean, append_char, append_int, append_text, builder_char_at, builder_length, init,
    init_text, to_string,
};
pub use choice::call;
pub use object::same_object;
pub use operand::{builder_of, string_of};
pub use plan::{Effect, Plan, carry_out};
pub use string::{
    char_at, compare_to, concat, ends_with, equals, index_of, is_empty, length, of_boolean,
    of_char, of_int, starts_with, substring, tail,
};
