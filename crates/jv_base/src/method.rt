// Methods, fields, places in code, and what can go wrong there.
ghost use Rattle.std.specs.Prelude.{◌≡◌, IfOk};

use crate::{Mem, Name, TryCopy};
use std::alloc::Global;

/// A method by its class, name and descriptor (JVM Specification SE 8, 4.3.3).
#[derive(Debug, Drop, PartialEq, Eq, Hash)]
pub struct MethodId {
    pub class: Name,
    pub name: Name,
    pub desc: Name,
}

impl MethodId {
    pub fn copy(&self, alloc: Global) -> Mem<MethodId>
        ensures { IfOk result (λ copy. copy ≡ self.now) }
    {
        Ok(MethodId {
            class: self.class.copy(alloc)?,
            name: self.name.copy(alloc)?,
            desc: self.desc.copy(alloc)?,
        })
    }
}

impl TryCopy for MethodId {
    fn copy(&self, alloc: Global) -> Mem<MethodId> {
        MethodId::copy(self, alloc)
    }
}

/// A field by its class, name and descriptor (JVM Specification SE 8, 4.3.2).
#[derive(Debug, Drop, PartialEq, Eq, Hash)]
pub struct FieldId {
    pub class: Name,
    pub name: Name,
    pub desc: Name,
}

/// An instruction: a method, and the place of the instruction in the bytes of its code.
#[derive(Debug, Drop, PartialEq, Eq)]
pub struct Site {
    pub method: MethodId,
    pub pc: u16,
}

/// A kind of fault that an instruction can raise, in the order of the report.
#[derive(Clone, Copy, Debug, PartialEq, Eq, PartialOrd, Ord)]
pub enum Kind {
    Null,
    Zero,
    Bounds,
    NegSize,
    Store,
    Cast,
    StrIndex,
    Assert,
}

/// One assertion: a kind of fault at an instruction.
#[derive(Debug, Drop, PartialEq, Eq)]
pub struct Goal {
    pub site: Site,
    pub kind: Kind,
}

/// How far runs are followed: transfers back to one target in a frame, frames, the depth of inputs, the units of a
/// string, the elements of an array.
#[derive(Clone, Copy, Debug, PartialEq, Eq)]
pub struct Bounds {
    pub unwind: u8,
    pub frames: u8,
    pub depth: u8,
    pub string: u8,
    pub array: u8,
}
