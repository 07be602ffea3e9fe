// Whether a class is among its own supertypes (JVM Specification SE 8, 5.3.5).
ghost use Rattle.std.specs.Prelude.{◌≡◌, ◌↔◌, IfOk, IsTrue, Contains};
ghost use Rattle.hi_tree.specs.Subtypes.{supertypes};
ghost use Rattle.bd_refusals.specs.Suited.{IsCircular};

use hi_inputs::upward;
use hi_tree::{Classes, Up};
use jv_base::{Mem, Name};
use std::alloc::Global;

// Whether a name is directly above a class.
fn is_above(alloc: Global, classes: &Classes, class: &Name, name: &Name) -> Mem<bool>
    ensures { IfOk result (λ yes. IsTrue yes ↔ Contains (supertypes classes.now class.now) name.now) }
{
    let names = classes.names_above(alloc, class, Up::Supertypes)?;
    Ok(names.as_slice().contains(name))
}

/// Whether a class is among its own supertypes: one of them has it directly above itself, or it does so itself.
pub fn is_circular(alloc: Global, classes: &Classes, name: &Name) -> Mem<bool>
    ensures { IfOk result (λ yes. IsTrue yes ↔ IsCircular classes.now name.now) }
{
    let found = upward(alloc, classes, name, Up::Supertypes)?;
    'found: for class in found.as_slice() {
        if is_above(alloc, classes, class, name)? {
            return Ok(true);
        }
    }
    Ok(false)
}
