// What a folder answered for the names of classes.
use jv_base::{List, Name};

/// What there is under a name: bytes, nothing, or a file that is longer than the folder allows.
#[derive(Debug, Drop)]
pub enum Was {
    Found(List<u8>),
    Absent,
    TooLong,
}

/// A name that the folder was asked for, and its answer.
#[derive(Debug, Drop)]
pub struct Asked {
    pub name: Name,
    pub was: Was,
}

/// The classes of a run: the names that the folder was asked for, in that order.
#[derive(Debug, Drop)]
pub struct World {
    pub entries: List<Asked>,
}
