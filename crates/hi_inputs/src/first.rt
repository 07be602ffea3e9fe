// The types of the receiver and of the parameters of an entry method.
ghost use Rattle.std.specs.Prelude.{IfOk, OnOk, All, Contains, map};
ghost use Rattle.jv_base.specs.Descriptor.{IsFieldType};
ghost use Rattle.jv_base.specs.Types.{field_of};
ghost use Rattle.hi_inputs.specs.Calls.Flat.{AreTypes, AddsTypes};
ghost use Rattle.hi_inputs.specs.Calls.First.{IsReceiver, IsParameter, IsFirst};

use crate::flat::{Element, FlatType, flat_type};
use cf_class::member_in;
use hi_tree::{Classes, has_flag};
use jv_base::{List, Mem, MethodId, TextFault, Ty, one_form, read_descriptor};
use std::alloc::{AllocError, Global};

const STATIC: u16 = 0x0008;

fn put_receiver(
    alloc: Global,
    classes: &Classes,
    entry: &MethodId,
    out: &mut List<FlatType>,
) -> Mem<()>
    ensures { OnOk result (AddsTypes (IsReceiver classes.now entry.now) out.old out.new) }
{
    let Some(class) = classes.find(&entry.class) else {
        return Ok(());
    };
    let Some(method) = member_in(class.methods.as_slice(), &entry.name, &entry.desc) else {
        return Ok(());
    };
    if has_flag(method.flags, STATIC) {
        return Ok(());
    }
    out.add(FlatType {
        dimensions: 0,
        element: Element::Class(entry.class.copy(alloc)?),
    })
}

fn put_types(alloc: Global, types: &[Ty], out: &mut List<FlatType>) -> Mem<()>
    requires { All IsFieldType (map field_of types.now) }
    ensures { OnOk result (AddsTypes (Contains (map field_of types.now)) out.old out.new) }
{
    'types: for ty in types {
        out.add(flat_type(alloc, ty)?)?;
    }
    Ok(())
}

fn put_parameters(alloc: Global, entry: &MethodId, out: &mut List<FlatType>) -> Mem<()>
    ensures { OnOk result (AddsTypes (IsParameter entry.now) out.old out.new) }
{
    one_form();
    match read_descriptor(alloc, &entry.desc) {
        Ok(desc) => put_types(alloc, desc.params.as_slice(), out),
        Err(TextFault::Bad(_)) => Ok(()),
        Err(TextFault::NoMemory) => Err(AllocError),
    }
}

/// The types of the arguments of an entry method, that of its receiver among them.
pub(crate) fn first_types(alloc: Global, classes: &Classes, entry: &MethodId) -> Mem<List<FlatType>>
    ensures { IfOk result (AreTypes (IsFirst classes.now entry.now)) }
{
    let mut types = List::new(alloc);
    put_receiver(alloc, classes, entry, &mut types)?;
    put_parameters(alloc, entry, &mut types)?;
    Ok(types)
}
