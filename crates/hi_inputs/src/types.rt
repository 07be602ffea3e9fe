// The types that stand in inputs, found level by level: each is followed once.
ghost use Rattle.std.specs.Prelude.{◌≡◌, ◌<◌, length, map, IfOk, OnOk};
ghost use Rattle.jv_base.specs.Types.{field_of};
ghost use Rattle.hi_inputs.specs.Types.{AreInputTypes, AreOnce, AreStanding};
ghost use Rattle.hi_inputs.specs.Calls.Flat.{field_of_flat};
ghost use Rattle.hi_inputs.specs.Calls.Below.{IsBelow};
ghost use Rattle.hi_inputs.specs.Calls.Sets.{Follows, Deepens};

use crate::below::types_below;
use crate::first::first_types;
use crate::flat::{FlatType, nested_type};
use hi_tree::Classes;
use indexmap::IndexSet;
use jv_base::{List, Mem, MethodId, Ty};
use std::alloc::Global;

// Takes in the types below the one at a place.
fn follow(alloc: Global, classes: &Classes, found: &mut IndexSet<FlatType>, place: usize) -> Mem<()>
    requires { place < length found.old.keys }
    ensures { OnOk result (Follows (IsBelow classes.now) (map field_of_flat found.old.keys) place
        (map field_of_flat found.new.keys)) }
{
    let Some(ty) = found.get_index(place) else {
        unreachable!()
    };
    let below = types_below(alloc, classes, ty)?;
    found.extend(below)
}

// Takes in the types below those that stand from a place on.
fn deepen(alloc: Global, classes: &Classes, found: &mut IndexSet<FlatType>, from: usize) -> Mem<()>
    ensures { OnOk result (Deepens (IsBelow classes.now) (map field_of_flat found.old.keys) from
        (map field_of_flat found.new.keys)) }
{
    let end = found.len();
    let mut place = from;
    'places: while place < end {
        follow(alloc, classes, found, place)?;
        place += 1;
    }
    Ok(())
}

pub(crate) fn standing(
    alloc: Global,
    classes: &Classes,
    entry: &MethodId,
    depth: u8,
) -> Mem<IndexSet<FlatType>>
    ensures { IfOk result (λ found. AreStanding classes.now entry.now depth (map field_of_flat found.keys)) }
{
    let mut found = IndexSet::new(alloc);
    if depth == 0 {
        return Ok(found);
    }
    found.extend(first_types(alloc, classes, entry)?)?;
    let mut from = 0;
    let mut level = 1;
    'levels: while level < depth {
        let end = found.len();
        deepen(alloc, classes, &mut found, from)?;
        from = end;
        level += 1;
    }
    Ok(found)
}

fn nested_types(alloc: Global, flat: &[FlatType]) -> Mem<List<Ty>>
    ensures { IfOk result (λ types. map field_of types ≡ map field_of_flat flat.now) }
{
    let mut types = List::new(alloc);
    'types: for ty in flat {
        types.add(nested_type(alloc, ty)?)?;
    }
    Ok(types)
}

/// The types that stand in the inputs of an entry method, each once, at a depth of at most `depth`.
pub fn input_types(alloc: Global, classes: &Classes, entry: &MethodId, depth: u8) -> Mem<List<Ty>>
    ensures value { IfOk result (AreInputTypes classes.now entry.now depth) }
    ensures once { IfOk result (λ types. AreOnce (map field_of types)) }
{
    let found = standing(alloc, classes, entry, depth)?;
    nested_types(alloc, found.as_slice())
}
