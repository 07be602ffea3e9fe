// The Codes of the methods of a class file, with their places (JVM Specification SE 8, 4.6 and 4.7).
ghost use Rattle.std.specs.Prelude.{◌≡◌, ◌+◌, ◌^◌, ◌<◌, ◌++◌, length, map, IfOk, OnOk};
ghost use Rattle.std.specs.List.{flat_map};
ghost use Rattle.jv_list.specs.Places.{each_place};
ghost use Rattle.cf_structure.specs.Spelled.{attribute_text, file_text};
ghost use Rattle.cf_structure.specs.Views.{attribute_of, file_of};
ghost use Rattle.cf_bodies.specs.Places.{attribute_codes, codes};
ghost use Rattle.cf_bodies.specs.Calls.Views.{placed_of};

use crate::size::{attribute_size, member_size, methods_place};
use cf_structure::{AttributePart, BodyPart, CodePart, Structure};
use jv_base::{List, Mem};
use std::alloc::Global;

/// What stands before the content of an attribute: its name and its length.
const BEFORE_CONTENT: u64 = 6;

/// What stands before the attributes of a member: its flags, its name, its descriptor and their count.
const BEFORE_ATTRIBUTES: u64 = 8;

/// A Code whose content begins at a place.
#[derive(Clone, Copy, Debug)]
pub struct CodeAt<'a> {
    pub place: u64,
    pub code: &'a CodePart<'a>,
}

/// Puts the Code of an attribute at the end, where it is one.
fn push_code<'a>(
    found: &mut List<CodeAt<'a>>,
    place: u64,
    attribute: &'a AttributePart<'a>,
) -> Mem<()>
    requires { place + length (attribute_text (attribute_of attribute.now)) < 2 ^ 64 }
    ensures { OnOk result (map placed_of found.new ≡ map placed_of found.old ++ attribute_codes place (attribute_of attribute.now)) }
{
    match &attribute.body {
        BodyPart::Code(code) => found.add(CodeAt {
            place: place + BEFORE_CONTENT,
            code,
        }),
        _ => Ok(()),
    }
}

/// Puts the Codes of attributes, the first of which begins at a place, at the end.
fn push_codes<'a>(
    found: &mut List<CodeAt<'a>>,
    start: u64,
    attributes: &'a [AttributePart<'a>],
) -> Mem<()>
    requires { start + length (flat_map attribute_text (map attribute_of attributes.now)) < 2 ^ 64 }
    ensures { OnOk result (map placed_of found.new
        ≡ map placed_of found.old ++ each_place attribute_codes attribute_text start (map attribute_of attributes.now)) }
{
    let mut place = start;
    for attribute in attributes {
        push_code(found, place, attribute)?;
        place += attribute_size(attribute);
    }
    Ok(())
}

/// The Codes of the methods of a class file, in file order.
pub(crate) fn codes_of<'a>(alloc: Global, structure: &'a Structure<'a>) -> Mem<List<CodeAt<'a>>>
    requires { length (file_text (file_of structure.now)) < 2 ^ 64 }
    ensures { IfOk result (λ found. map placed_of found ≡ codes (file_of structure.now)) }
{
    let mut found = List::new(alloc);
    let mut place = methods_place(structure);
    for method in structure.class.methods.as_slice() {
        push_codes(
            &mut found,
            place + BEFORE_ATTRIBUTES,
            method.attributes.as_slice(),
        )?;
        place += member_size(method);
    }
    Ok(found)
}
