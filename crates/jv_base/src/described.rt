// The texts of field types and descriptors, and when types are equal.
ghost use Rattle.std.specs.Prelude.{◌≡◌, ◌++◌, string_bytes, map, IfOk, OnOk};
ghost use Rattle.std.specs.List.{flat_map};
ghost use Rattle.jv_base.specs.Descriptor.{field_text, element_text, method_text, result_text};
ghost use Rattle.jv_base.specs.Types.{field_of, result_of, method_of};

use crate::{Desc, Mem, Name, Ty};
use std::alloc::Global;

// Puts the text of a type at the end, all but the brackets of its dimensions.
fn push_element(out: &mut String, ty: &Ty) -> Mem<()>
    ensures { OnOk result (string_bytes out.new ≡ string_bytes out.old ++ element_text (field_of ty.now).element) }
{
    match ty {
        Ty::Boolean => out.push('Z'),
        Ty::Byte => out.push('B'),
        Ty::Char => out.push('C'),
        Ty::Short => out.push('S'),
        Ty::Int => out.push('I'),
        Ty::Long => out.push('J'),
        Ty::Float => out.push('F'),
        Ty::Double => out.push('D'),
        Ty::Class(name) => {
            out.push('L')?;
            out.push_str(name.as_str())?;
            out.push(';')
        }
        Ty::Array(elements) => push_element(out, elements.get()),
    }
}

fn push_field_type(out: &mut String, ty: &Ty) -> Mem<()>
    ensures { OnOk result (string_bytes out.new ≡ string_bytes out.old ++ field_text (field_of ty.now)) }
{
    let mut element = ty;
    while let Ty::Array(elements) = element {
        out.push('[')?;
        element = elements.get();
    }
    push_element(out, element)
}

fn push_field_types(out: &mut String, types: &[Ty]) -> Mem<()>
    ensures { OnOk result (string_bytes out.new ≡ string_bytes out.old ++ flat_map field_text (map field_of types.now)) }
{
    for ty in types {
        push_field_type(out, ty)?;
    }
    Ok(())
}

fn push_descriptor(out: &mut String, desc: &Desc) -> Mem<()>
    ensures { OnOk result (string_bytes out.new ≡ string_bytes out.old ++ method_text (method_of desc.now)) }
{
    out.push('(')?;
    push_field_types(out, desc.params.as_slice())?;
    out.push(')')?;
    match &desc.result {
        None => out.push('V'),
        Some(ty) => push_field_type(out, ty),
    }
}

/// The text of a field type (JVM Specification SE 8, 4.3.2).
pub fn field_type_text(alloc: Global, ty: &Ty) -> Mem<Name>
    ensures { IfOk result (λ text. text ≡ field_text (field_of ty.now)) }
{
    let mut out = String::new(alloc);
    push_field_type(&mut out, ty)?;
    Ok(Name::from_string(out))
}

/// The text of a method descriptor (JVM Specification SE 8, 4.3.3).
pub fn descriptor_text(alloc: Global, desc: &Desc) -> Mem<Name>
    ensures { IfOk result (λ text. text ≡ method_text (method_of desc.now)) }
{
    let mut out = String::new(alloc);
    push_descriptor(&mut out, desc)?;
    Ok(Name::from_string(out))
}
