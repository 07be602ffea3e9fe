//! The structure of class files: the version, the constant pool, and what stands behind it by indices into it, or the first
//! fault.
#![tactic(auto)]

mod attribute;
mod class_file;
mod code;
mod cursor;
mod fault;
mod laws;
mod member;

pub use attribute::{AttributePart, BodyKind, BodyPart, Holder};
pub use class_file::{ClassPart, Structure, Version, read_structure};
pub use code::{CodePart, Row, SkippedPart};
pub use fault::{ClassFault, Cut};
pub use laws::{extra_bytes, one_structure, spelled};
pub use member::MemberPart;
