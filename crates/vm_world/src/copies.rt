// Copies of lists.
ghost use Rattle.std.specs.Prelude.{◌≡◌, IfOk};

use jv_base::{Mem, TryCopy};
use std::alloc::Global;

/// A list of copies of the elements, in order.
pub(crate) fn copied<T: TryCopy>(alloc: Global, items: &[T]) -> Mem<Vec<T>>
    ensures { IfOk result (λ copy. copy.items ≡ items.now) }
{
    let mut copy = Vec::with_capacity(alloc, items.len())?;
    for item in items {
        copy.push(item.copy(alloc)?)?;
    }
    Ok(copy)
}
