// The classes of the objects that inputs can hold.
ghost use Rattle.std.specs.Prelude.{◌≡◌, map, nat_eq, IfOk, OnOk, IsSorted};
ghost use Rattle.std.specs.List.{IsDistinct};
ghost use Rattle.std.specs.Ordering.{nat_cmp};
ghost use Rattle.std.specs.Cmp.Lexicographic.{pointwise, slice_cmp};
ghost use Rattle.hi_inputs.specs.Types.{AreInputClasses, AreOnce};
ghost use Rattle.hi_inputs.specs.Calls.Flat.{field_of_flat};
ghost use Rattle.hi_inputs.specs.Calls.Made.{AddsMade, AreMadeAmong};

use crate::flat::{Element, FlatType};
use crate::made::is_made;
use crate::types::standing;
use hi_tree::Classes;
use indexmap::IndexSet;
use jv_base::{List, Mem, MethodId, Name};
use std::alloc::Global;

// Takes a class in, where the type is one of which objects can be made.
fn take_made(alloc: Global, classes: &Classes, ty: &FlatType, found: &mut IndexSet<Name>) -> Mem<()>
    ensures { OnOk result (AddsMade classes.now (field_of_flat ty.now) found.old.keys found.new.keys) }
{
    if ty.dimensions > 0 {
        return Ok(());
    }
    let Element::Class(name) = &ty.element else {
        return Ok(());
    };
    if is_made(classes, name) {
        found.insert(name.copy(alloc)?)?;
    }
    Ok(())
}

fn made_among(alloc: Global, classes: &Classes, types: &[FlatType]) -> Mem<IndexSet<Name>>
    ensures { IfOk result (λ found. AreMadeAmong classes.now (map field_of_flat types.now) found.keys) }
{
    let mut found = IndexSet::new(alloc);
    'types: for ty in types {
        take_made(alloc, classes, ty, &mut found)?;
    }
    Ok(found)
}

fn names_of(alloc: Global, found: IndexSet<Name>) -> Mem<List<Name>>
    ensures value { IfOk result (λ names. names ≡ found.keys) }
    ensures apart { IfOk result (IsDistinct (pointwise nat_eq)) }
{
    let mut names = List::new(alloc);
    'names: for name in found {
        names.add(name)?;
    }
    Ok(names)
}

/// The classes of the objects that the inputs of an entry method can hold, to a depth, in the order of their bytes.
pub fn input_classes(
    alloc: Global,
    classes: &Classes,
    entry: &MethodId,
    depth: u8,
) -> Mem<List<Name>>
    ensures value { IfOk result (AreInputClasses classes.now entry.now depth) }
    ensures sorted { IfOk result (IsSorted (slice_cmp nat_cmp)) }
    ensures once { IfOk result AreOnce }
{
    let types = standing(alloc, classes, entry, depth)?;
    let found = made_among(alloc, classes, types.as_slice())?;
    let mut names = names_of(alloc, found)?.into_vec();
    names.sort_unstable_by(|a, b| a.compare(b));
    Ok(List::from_vec(names))
}
