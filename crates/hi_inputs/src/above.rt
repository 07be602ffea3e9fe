// A class and those above it.
ghost use Rattle.std.specs.Prelude.{◌<◌, length, IfOk, OnOk};
ghost use Rattle.hi_inputs.specs.Upward.{AreUpward};
ghost use Rattle.hi_inputs.specs.Calls.Below.{IsSuperOf};
ghost use Rattle.hi_inputs.specs.Calls.Sets.{Follows};

use hi_tree::{Classes, Up};
use indexmap::IndexSet;
use jv_base::{Mem, Name};
use std::alloc::Global;

// Takes in the names directly above the class at a place.
fn climb(
    alloc: Global,
    classes: &Classes,
    up: Up,
    found: &mut IndexSet<Name>,
    place: usize,
) -> Mem<()>
    requires { place < length found.old.keys }
    ensures { OnOk result (Follows (IsSuperOf classes.now up) found.old.keys place found.new.keys) }
{
    let Some(class) = found.get_index(place) else {
        unreachable!()
    };
    let above = classes.names_above(alloc, class, up)?;
    found.extend(above)
}

/// A class and those above it, each once, also where the class is above itself.
pub fn upward(alloc: Global, classes: &Classes, class: &Name, up: Up) -> Mem<IndexSet<Name>>
    ensures { IfOk result (λ found. AreUpward classes.now up class.now found.keys) }
{
    let mut found = IndexSet::new(alloc);
    found.insert(class.copy(alloc)?)?;
    let mut place = 0;
    'places: while place < found.len() {
        climb(alloc, classes, up, &mut found, place)?;
        place += 1;
    }
    Ok(found)
}
