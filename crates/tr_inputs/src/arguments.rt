// The types of the arguments of an entry method, as descriptors.
ghost use Rattle.std.specs.Prelude.{◌≡◌, ◌++◌, map, IfOk, OnOk};
ghost use Rattle.jv_base.specs.Descriptor.{field_text, IsMethodDescriptor};
ghost use Rattle.jv_base.specs.Types.{field_of, method_of};
ghost use Rattle.tr_inputs.specs.Arguments.{receiver_type, argument_types, AreArgumentTypes};

use jv_base::{
    Desc, List, Mem, MethodId, Name, TextFault, Ty, field_type_text, one_form, read_descriptor,
};
use std::alloc::{AllocError, Global};

fn receiver_type(alloc: Global, entry: &MethodId) -> Mem<Name>
    ensures { IfOk result (λ text. text ≡ receiver_type entry.now) }
{
    let mut text = String::from_str(alloc, "L")?;
    text.push_str(entry.class.as_str())?;
    text.push(';')?;
    Ok(Name::from_string(text))
}

fn put_types(alloc: Global, types: &[Ty], out: &mut List<Name>) -> Mem<()>
    ensures { OnOk result (out.new ≡ out.old ++ map field_text (map field_of types.now)) }
{
    for ty in types {
        out.add(field_type_text(alloc, ty)?)?;
    }
    Ok(())
}

fn types_by(alloc: Global, entry: &MethodId, desc: &Desc, count: usize) -> Mem<List<Name>>
    ensures { IfOk result (λ types. types ≡ argument_types entry.now (method_of desc.now) count) }
{
    let mut types = List::new(alloc);
    if count > 0 && desc.params.length() == count - 1 {
        types.add(receiver_type(alloc, entry)?)?;
    }
    put_types(alloc, desc.params.as_slice(), &mut types)?;
    Ok(types)
}

/// The types of so many arguments of an entry.
pub(crate) fn argument_types(alloc: Global, entry: &MethodId, count: usize) -> Mem<List<Name>>
    requires { IsMethodDescriptor entry.now.desc }
    ensures { IfOk result (AreArgumentTypes entry.now count) }
{
    one_form();
    match read_descriptor(alloc, &entry.desc) {
        Ok(desc) => types_by(alloc, entry, &desc, count),
        Err(TextFault::NoMemory) => Err(AllocError),
        Err(TextFault::Bad(_)) => unreachable!(),
    }
}
