// The names directly above a class.
ghost use Rattle.std.specs.Prelude.{◌≡◌, IfOk};
ghost use Rattle.hi_tree.specs.Classes.{known_class};
ghost use Rattle.hi_tree.specs.Supers.{names_above, names_above_some};
ghost use Rattle.hi_tree.specs.Calls.Steps.{known_of};

use crate::known::{Above, KnownClass, Up};
use crate::table::Classes;
use jv_base::{List, Mem, Name};
use std::alloc::Global;

/// The names directly above a known class, in order.
fn names_of(alloc: Global, class: KnownClass<'_>, up: Up) -> Mem<List<Name>>
    ensures { IfOk result (λ names. names ≡ names_above up (known_of class.entry)) }
{
    let mut names = List::new(alloc);
    let mut place = 0;
    while let Some(above) = class.above(up, place) {
        names.add(Name::from_text(alloc, above.text())?)?;
        place += 1;
    }
    Ok(names)
}

impl Classes {
    /// The names directly above a class, in order; none where the class is not known.
    pub fn names_above(&self, alloc: Global, class: &Name, up: Up) -> Mem<List<Name>>
        ensures { IfOk result (λ names. names ≡ names_above_some up (known_class self.now class.now)) }
    {
        match self.known(Above::Named(class)) {
            Some(known) => names_of(alloc, known, up),
            None => Ok(List::new(alloc)),
        }
    }
}
