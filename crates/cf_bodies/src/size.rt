// How many bytes the parts of a class file take (JVM Specification SE 8, 4.1, 4.5 to 4.7).
ghost use Rattle.std.specs.Prelude.{◌≡◌, ◌<◌, ◌^◌, length, map};
ghost use Rattle.std.specs.List.{flat_map};
ghost use Rattle.cf_pool.specs.Spelling.{entry_text};
ghost use Rattle.cf_structure.specs.Spelled.{skipped_text, code_text, body_text, attribute_text, member_text, file_text};
ghost use Rattle.cf_structure.specs.Views.{skipped_of, code_of, body_of, attribute_of, member_of, file_of};
ghost use Rattle.cf_bodies.specs.Places.{methods_start};

use cf_judge::entry_size;
use cf_pool::PoolEntry;
use cf_structure::{AttributePart, BodyPart, CodePart, MemberPart, SkippedPart, Structure};

/// Where the pool's entries begin.
const POOL_PLACE: u64 = 10;

fn skipped_size(attributes: &[SkippedPart<'_>]) -> u64
    requires { length (flat_map skipped_text (map skipped_of attributes.now)) < 2 ^ 64 }
    ensures { result ≡ length (flat_map skipped_text (map skipped_of attributes.now)) }
{
    let mut size = 0;
    for attribute in attributes {
        size += 6 + attribute.content.len() as u64;
    }
    size
}

fn code_size(code: &CodePart<'_>) -> u64
    requires { length (code_text (code_of code.now)) < 2 ^ 64 }
    ensures { result ≡ length (code_text (code_of code.now)) }
{
    let rows = 8 * code.rows.length() as u64;
    12 + code.code.len() as u64 + rows + skipped_size(code.attributes.as_slice())
}

fn body_size(body: &BodyPart<'_>) -> u64
    requires { length (body_text (body_of body.now)) < 2 ^ 64 }
    ensures { result ≡ length (body_text (body_of body.now)) }
{
    match body {
        BodyPart::Constant(_) => 2,
        BodyPart::Code(code) => code_size(code),
        BodyPart::Skipped(content) => content.len() as u64,
    }
}

/// An attribute, with its name and its length.
pub(crate) fn attribute_size(attribute: &AttributePart<'_>) -> u64
    requires { length (attribute_text (attribute_of attribute.now)) < 2 ^ 64 }
    ensures { result ≡ length (attribute_text (attribute_of attribute.now)) }
{
    6 + body_size(&attribute.body)
}

/// The attributes of a member, without their count.
fn attributes_size(attributes: &[AttributePart<'_>]) -> u64
    requires { length (flat_map attribute_text (map attribute_of attributes.now)) < 2 ^ 64 }
    ensures { result ≡ length (flat_map attribute_text (map attribute_of attributes.now)) }
{
    let mut size = 0;
    for attribute in attributes {
        size += attribute_size(attribute);
    }
    size
}

/// A field or a method.
pub(crate) fn member_size(member: &MemberPart<'_>) -> u64
    requires { length (member_text (member_of member.now)) < 2 ^ 64 }
    ensures { result ≡ length (member_text (member_of member.now)) }
{
    8 + attributes_size(member.attributes.as_slice())
}

/// The fields or the methods, without their count.
fn members_size(members: &[MemberPart<'_>]) -> u64
    requires { length (flat_map member_text (map member_of members.now)) < 2 ^ 64 }
    ensures { result ≡ length (flat_map member_text (map member_of members.now)) }
{
    let mut size = 0;
    for member in members {
        size += member_size(member);
    }
    size
}

/// The entries of the pool.
fn entries_size(pool: &[PoolEntry]) -> u64
    requires { length (flat_map entry_text pool.now) < 2 ^ 64 }
    ensures { result ≡ length (flat_map entry_text pool.now) }
{
    let mut size = 0;
    for entry in pool {
        size += entry_size(entry);
    }
    size
}

/// Where the first method begins.
pub(crate) fn methods_place(structure: &Structure<'_>) -> u64
    requires { length (file_text (file_of structure.now)) < 2 ^ 64 }
    ensures { result ≡ methods_start (file_of structure.now) }
{
    let class = &structure.class;
    let behind_pool = POOL_PLACE + entries_size(structure.pool.entries.as_slice());
    let fields = behind_pool + 8 + 2 * class.interfaces.length() as u64 + 2;
    fields + members_size(class.fields.as_slice()) + 2
}
