// The types of the fields that objects of a class have.
ghost use Rattle.std.specs.Prelude.{IfOk, OnOk};
ghost use Rattle.hi_tree.specs.Inputs.{HasField};
ghost use Rattle.hi_inputs.specs.Calls.Flat.{AreTypes, AddsTypes};
ghost use Rattle.hi_inputs.specs.Calls.Below.{IsInstanceType, IsOfFields, DeclaresType};

use crate::above::upward;
use crate::flat::{FlatType, flat_type};
use cf_class::Member;
use hi_tree::{Classes, Up, has_flag};
use jv_base::{List, Mem, Name, TextFault, one_form, read_field_type};
use std::alloc::{AllocError, Global};

const STATIC: u16 = 0x0008;

// Puts the type of a field behind the others, where the field is no static one.
fn put_field(alloc: Global, field: &Member, out: &mut List<FlatType>) -> Mem<()>
    ensures { OnOk result (AddsTypes (IsInstanceType field.now) out.old out.new) }
{
    one_form();
    if has_flag(field.flags, STATIC) {
        return Ok(());
    }
    match read_field_type(alloc, &field.desc.name) {
        Ok(ty) => out.add(flat_type(alloc, &ty)?),
        Err(TextFault::Bad(_)) => Ok(()),
        Err(TextFault::NoMemory) => Err(AllocError),
    }
}

fn put_fields(alloc: Global, fields: &[Member], out: &mut List<FlatType>) -> Mem<()>
    ensures { OnOk result (AddsTypes (IsOfFields fields.now) out.old out.new) }
{
    'fields: for field in fields {
        put_field(alloc, field, out)?;
    }
    Ok(())
}

fn put_declared(alloc: Global, classes: &Classes, class: &Name, out: &mut List<FlatType>) -> Mem<()>
    ensures { OnOk result (AddsTypes (DeclaresType classes.now class.now) out.old out.new) }
{
    match classes.find(class) {
        Some(class) => put_fields(alloc, class.fields.as_slice(), out),
        None => Ok(()),
    }
}

/// The types of the fields that objects of a class have, inherited ones too.
pub(crate) fn field_types(alloc: Global, classes: &Classes, class: &Name) -> Mem<List<FlatType>>
    ensures { IfOk result (AreTypes (HasField classes.now class.now)) }
{
    let found = upward(alloc, classes, class, Up::Superclasses)?;
    let mut types = List::new(alloc);
    'classes: for above in found.as_slice() {
        put_declared(alloc, classes, above, &mut types)?;
    }
    Ok(types)
}
