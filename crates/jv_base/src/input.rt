// Inputs of an entry method, as trees.
use crate::{FieldId, List};
use sqlite_items::Items;

/// One argument. A boolean, byte, char, short or int is an `Int`; a text is a list of UTF-16 units.
#[derive(Debug, Drop)]
#[cycle(tree)]
pub enum Tree {
    Int(i32),
    Long(i64),
    Null,
    Text(List<u16>),
    Array(Items<Tree>),
    Object(Items<Part>),
}

/// A field of an object, with its value.
#[derive(Debug, Drop)]
#[cycle(tree)]
pub struct Part {
    pub field: FieldId,
    pub value: Tree,
}

/// The arguments of the entry, in order; the receiver first, where there is one.
#[derive(Debug, Drop)]
pub struct Input {
    pub args: List<Tree>,
}
