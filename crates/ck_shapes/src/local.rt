// What is known of locals.
ghost use Rattle.std.specs.Prelude.{◌≡◌, ◌↔◌, IsTrue, IsFalse, IfOk, length};
ghost use Rattle.ck_shapes.specs.Shape.{is_long, local_at, IsKnownLess, HasRoom};
ghost use Rattle.ck_shapes.specs.Calls.Joins.{common, AreCommon, IsKnownOnlyHere};

use crate::shape::{Limits, ValueType};
use jv_list::{List, Mem};
use std::alloc::Global;

/// What is known of a local.
pub(crate) fn local_of(locals: &[Option<ValueType>], index: usize) -> Option<ValueType>
    ensures { result ≡ local_at locals.now index }
{
    match locals.get(index) {
        Some(local) => *local,
        None => None,
    }
}

pub(crate) fn is_long(local: Option<ValueType>) -> bool
    ensures { result ≡ is_long local }
{
    matches!(local, Some(ValueType::Long))
}

/// Whether a value of a type has room in the locals from an index on.
pub(crate) fn has_room(limits: Limits, of: ValueType, index: u16) -> bool
    ensures { IsTrue result ↔ HasRoom limits of index }
{
    usize::from(index) + of.width() <= usize::from(limits.max_locals)
}

/// What two frames both know of a local.
fn common(left: Option<ValueType>, right: Option<ValueType>) -> Option<ValueType>
    ensures { result ≡ common left right }
{
    if left == right { left } else { None }
}

/// What two frames both know of their locals.
pub(crate) fn common_locals(
    alloc: Global,
    left: &[Option<ValueType>],
    right: &[Option<ValueType>],
) -> Mem<List<Option<ValueType>>>
    ensures common { IfOk result (λ both. AreCommon left.now right.now both) }
    ensures long { IfOk result (λ both. length both ≡ length left.now) }
{
    let mut both = Vec::with_capacity(alloc, left.len())?;
    for at in 0..left.len() {
        both.push(common(local_of(left, at), local_of(right, at)))?;
    }
    Ok(List::from_vec(both))
}

/// Whether less is known of the first locals than of the second, or the same.
pub(crate) fn is_known_less(less: &[Option<ValueType>], more: &[Option<ValueType>]) -> bool
    ensures yes { IsTrue result → IsKnownLess less.now more.now }
    ensures no { IsFalse result → IsKnownOnlyHere less.now more.now }
{
    for at in 0..less.len() {
        let local = local_of(less, at);
        if local.is_some() && local != local_of(more, at) {
            return false;
        }
    }
    true
}
