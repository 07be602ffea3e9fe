// What is asked for, what is told of it, and the events of that.
use bd_scan::Fact;
use cf_class::ClassFile;
use cf_pool::Fault;
use jv_base::{List, Mem, MethodId, Name, TryCopy};
use std::alloc::Global;

/// What is asked for: a class file by its name, or the facts of a method whose class was read.
#[derive(Debug, Drop, PartialEq, Eq, Hash)]
pub enum Item {
    Class(Name),
    Method(MethodId),
}

impl TryCopy for Item {
    fn copy(&self, alloc: Global) -> Mem<Item> {
        match self {
            Item::Class(name) => Ok(Item::Class(name.copy(alloc)?)),
            Item::Method(method) => Ok(Item::Method(method.copy(alloc)?)),
        }
    }
}

/// What is told of an item: of a class its file, or why there is none; of a method its facts.
#[derive(Debug, Drop)]
pub enum Facts {
    Class(ClassFile),
    Absent,
    /// The file is longer than the folder allows.
    TooLong,
    Malformed(Fault),
    Method(List<Fact>),
}

/// Why there is no class file under a name that was asked for.
#[derive(Debug, Drop)]
pub enum Unread {
    Absent,
    TooLong,
    Malformed(Fault),
}

/// What a worker did with an item; the number is the worker's.
#[derive(Debug, Drop)]
pub enum Event {
    Take(u32, Item),
    Give(u32, Item),
    Back(u32, Item),
}

/// What a worker gets that asks for an item.
#[derive(Debug, Drop)]
pub enum Took {
    /// It has this item, until it gives its facts or gives it back.
    Item(Item),
    /// Nothing is pending, and a worker has an item.
    Later,
    /// Nothing is pending, and no worker has an item: the sets are closed.
    Closed,
    NoMemory,
}
