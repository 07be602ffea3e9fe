// Copies of parts, and of lists of parts.
ghost use Rattle.std.specs.Prelude.{◌≡◌, IfOk};

use jv_base::{List, Mem};
use std::alloc::Global;

/// A part of a class file that can be copied where memory suffices. The copy equals what was copied.
pub(crate) trait PartCopy: Drop {
    fn copy(&self, alloc: Global) -> Mem<Self>
        ensures { IfOk result (λ copy. copy ≡ self.now) };
}

/// A list of copies of the parts, in order.
pub(crate) fn copied<T: PartCopy>(alloc: Global, parts: &[T]) -> Mem<List<T>>
    ensures { IfOk result (λ copy. copy ≡ parts.now) }
{
    let mut copy = List::with_capacity(alloc, parts.len())?;
    for part in parts {
        copy.add(part.copy(alloc)?)?;
    }
    Ok(copy)
}
