// Attributes (JVM Specification SE 8, 4.7).
ghost use Rattle.std.specs.Prelude.{◌≡◌, ◌++◌, OnOk};
ghost use Rattle.std.specs.List.{flat_map};
ghost use Rattle.cf_structure.specs.Spelled.{sized_text, counted_text};
ghost use Rattle.cf_write.specs.Calls.Texts.{body_text, attribute_text, BodyFits, AttributeFits, AttributesFit};

use crate::code::code_bytes;
use crate::number::{put_count, put_length, put_sized, put_two};
use cf_class::{Attribute, Body};
use jv_base::{List, Mem};
use std::alloc::Global;

/// Puts the content of an attribute at the end, behind its length.
fn put_body(alloc: Global, out: &mut List<u8>, body: &Body) -> Mem<()>
    requires { BodyFits body.now }
    ensures { OnOk result (out.new ≡ out.old ++ sized_text (body_text body.now)) }
{
    match body {
        Body::Constant(index) => {
            put_length(out, 2)?;
            put_two(out, *index)
        }
        Body::Code(code) => {
            let content = code_bytes(alloc, code)?;
            put_sized(out, content.as_slice())
        }
        Body::Skipped(content) => put_sized(out, content.as_slice()),
    }
}

fn put_attribute(alloc: Global, out: &mut List<u8>, attribute: &Attribute) -> Mem<()>
    requires { AttributeFits attribute.now }
    ensures { OnOk result (out.new ≡ out.old ++ attribute_text attribute.now) }
{
    put_two(out, attribute.name.index)?;
    put_body(alloc, out, &attribute.body)
}

fn put_attribute_list(alloc: Global, out: &mut List<u8>, attributes: &[Attribute]) -> Mem<()>
    requires { AttributesFit attributes.now }
    ensures { OnOk result (out.new ≡ out.old ++ flat_map attribute_text attributes.now) }
{
    for attribute in attributes {
        put_attribute(alloc, out, attribute)?;
    }
    Ok(())
}

/// Puts attributes at the end, behind how many there are.
pub(crate) fn put_attributes(alloc: Global, out: &mut List<u8>, attributes: &[Attribute]) -> Mem<()>
    requires { AttributesFit attributes.now }
    ensures { OnOk result (out.new ≡ out.old ++ counted_text attribute_text attributes.now) }
{
    put_count(out, attributes.len())?;
    put_attribute_list(alloc, out, attributes)
}
