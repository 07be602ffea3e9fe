//! What a step of the concrete machine does to the stack of frames: returns, handlers, exceptions on their way, calls.
#![tactic(auto)]

mod arguments;
mod frames;
mod handlers;
mod invocations;
mod laws;
mod returns;
mod throws;
mod went;
mod word;

pub use arguments::call_arguments;
pub use frames::go_on;
pub use handlers::{handler_at, holds};
pub use invocations::call_step;
pub use laws::{count_laws, handler_laws, kept_laws};
pub use returns::return_step;
pub use throws::{Thrown, athrow_effect, raise, throw};
pub use went::FramesWent;
pub use word::{has_word, word_of};
