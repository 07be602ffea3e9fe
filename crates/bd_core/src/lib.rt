//! The loading core: which classes and methods are loaded, by rules that make least sets.
#![tactic(auto)]

mod answered;
mod by_fact;
mod by_member;
mod closing;
mod crossing;
mod entry;
mod groups;
mod item;
mod job;
mod laws;
mod loaded;
mod loading;
mod log;
mod member;
mod put;
mod queue;

pub use groups::Call;
pub use item::{Event, Facts, Item, Took, Unread};
pub use job::Job;
pub use laws::{least_is_contained, run_laws};
pub use loaded::Loaded;
pub use loading::Core;
pub use member::Member;
