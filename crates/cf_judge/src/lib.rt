//! The judging of the names, the descriptors and the indices of a class file whose structure was read: the first one that is
//! not as the format has it.
#![tactic(auto)]

mod attribute;
mod class_file;
mod entry;
mod form;
mod index;
mod laws;
mod member;
mod size;
mod text;

pub use class_file::judge;
pub use form::Form;
pub use index::{Wanted, wrong_index};
pub use laws::{form_decided, one_first, one_judgement, one_name, plain_class_decided};
pub use member::MemberKind;
pub use size::entry_size;
pub use text::{Forms, Text, name_of_units};
