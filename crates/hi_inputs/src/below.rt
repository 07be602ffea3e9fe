// The types one deeper than a type: of the elements of an array, and of the fields of an object.
ghost use Rattle.std.specs.Prelude.{IfOk};
ghost use Rattle.hi_inputs.specs.Calls.Flat.{AreTypes, element_of, field_of_flat};
ghost use Rattle.hi_inputs.specs.Calls.Below.{IsBelow, IsBelowElement};

use crate::fields::field_types;
use crate::flat::{Element, FlatType};
use crate::made::is_made;
use hi_tree::Classes;
use jv_base::{List, Mem};
use std::alloc::Global;

fn below_element(alloc: Global, classes: &Classes, element: &Element) -> Mem<List<FlatType>>
    ensures { IfOk result (AreTypes (IsBelowElement classes.now (element_of element.now))) }
{
    match element {
        Element::Class(name) => {
            if is_made(classes, name) {
                field_types(alloc, classes, name)
            } else {
                Ok(List::new(alloc))
            }
        }
        _ => Ok(List::new(alloc)),
    }
}

pub(crate) fn types_below(alloc: Global, classes: &Classes, ty: &FlatType) -> Mem<List<FlatType>>
    ensures { IfOk result (AreTypes (IsBelow classes.now (field_of_flat ty.now))) }
{
    if ty.dimensions == 0 {
        return below_element(alloc, classes, &ty.element);
    }
    let mut types = List::new(alloc);
    types.add(FlatType {
        dimensions: ty.dimensions - 1,
        element: ty.element.copy(alloc)?,
    })?;
    Ok(types)
}
