// Values of the machine, and the types of descriptors.
use crate::{List, Name};
use sqlite_items::Boxed;

/// A value on the operand stack, in a local or in a field. A reference is the number of an object, or null.
#[derive(Clone, Copy, Debug, PartialEq, Eq)]
pub enum Value {
    Int(i32),
    Long(i64),
    Ref(Option<u64>),
}

/// A type of a field descriptor (JVM Specification SE 8, 4.3.2).
#[derive(Debug, Drop)]
pub enum Ty {
    Boolean,
    Byte,
    Char,
    Short,
    Int,
    Long,
    Float,
    Double,
    Class(Name),
    Array(Boxed<Ty>),
}

/// A method descriptor (JVM Specification SE 8, 4.3.3). No result is `V`.
#[derive(Debug, Drop)]
pub struct Desc {
    pub params: List<Ty>,
    pub result: Option<Ty>,
}
