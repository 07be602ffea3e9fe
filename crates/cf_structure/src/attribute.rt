// Attributes (JVM Specification SE 8, 4.7).
ghost use Rattle.std.specs.Prelude.{◌≡◌, ◌+◌, ◌^◌, ◌<◌, length, map};
ghost use Rattle.cf_structure.specs.Texts.{has_text};
ghost use Rattle.cf_structure.specs.Structure.{at_end, constant_at, body_kind, body_at, attribute_at, many_at, counted_at};
ghost use Rattle.cf_structure.specs.Views.{body_of, attribute_of};
ghost use Rattle.cf_structure.specs.Calls.Views.{Gives};

use crate::code::{CodePart, read_code};
use crate::cursor::{front, u16_at, u32_at};
use crate::fault::{AT_END, Cut, Stop};
use cf_pool::{PoolEntry, What};
use jv_base::List;
use std::alloc::Global;

/// "ConstantValue" in UTF-16 units.
const CONSTANT_VALUE: [u16; 13] = [
    0x43, 0x6f, 0x6e, 0x73, 0x74, 0x61, 0x6e, 0x74, 0x56, 0x61, 0x6c, 0x75, 0x65,
];

/// "Code" in UTF-16 units.
const CODE: [u16; 4] = [0x43, 0x6f, 0x64, 0x65];

/// Where an attribute stands. It tells which attributes count.
#[derive(Clone, Copy, Debug, PartialEq, Eq)]
pub enum Holder {
    InClass,
    InField,
    InMethod,
}

/// What the content of an attribute is.
#[derive(Clone, Copy, Debug, PartialEq, Eq)]
pub enum BodyKind {
    ConstantValue,
    Code,
    /// It is passed over.
    Other,
}

/// The content of an attribute.
#[derive(Debug, Drop)]
pub enum BodyPart<'a> {
    /// The index of a ConstantValue.
    Constant(u16),
    Code(CodePart<'a>),
    /// Bytes that are passed over.
    Skipped(&'a [u8]),
}

/// An attribute, by the index of its name.
#[derive(Debug, Drop)]
pub struct AttributePart<'a> {
    pub name: u16,
    pub body: BodyPart<'a>,
}

/// Whether the text with these units stands at the index.
#[tactic(auto, unfolding(crate::specs::Texts::has_text))]
fn has_text(pool: &[PoolEntry], index: u16, units: &[u16]) -> bool
    ensures { result ≡ has_text pool.now index units.now }
{
    match pool.get(usize::from(index)) {
        Some(PoolEntry::Utf8(found)) => found.as_slice() == units,
        _ => false,
    }
}

/// The index of a ConstantValue, which is all of these bytes.
#[tactic(auto, unfolding(crate::specs::Structure::constant_at))]
fn read_constant(holder: Cut, content: &[u8]) -> Result<u16, Stop>
    ensures { Gives (λ x. x) result (constant_at holder content.now) }
{
    let (index, rest) = u16_at(content, holder)?;
    if !rest.is_empty() {
        return Err(Stop::At(holder));
    }
    Ok(index)
}

fn body_kind(place: Holder, pool: &[PoolEntry], name: u16) -> BodyKind
    ensures { result ≡ body_kind place pool.now name }
{
    match place {
        Holder::InField if has_text(pool, name, &CONSTANT_VALUE) => BodyKind::ConstantValue,
        Holder::InMethod if has_text(pool, name, &CODE) => BodyKind::Code,
        _ => BodyKind::Other,
    }
}

/// The content of an attribute, which is all of these bytes.
#[tactic(auto, unfolding(crate::specs::Structure::body_at))]
fn read_body(
    alloc: Global,
    kind: BodyKind,
    holder: Cut,
    behind: usize,
    content: &[u8],
) -> Result<BodyPart<'_>, Stop>
    requires { length content.now + behind < 2 ^ 64 }
    ensures { Gives body_of result (body_at kind holder behind content.now) }
{
    match kind {
        BodyKind::ConstantValue => {
            let index = read_constant(holder, content)?;
            Ok(BodyPart::Constant(index))
        }
        BodyKind::Code => {
            let code = read_code(alloc, holder, behind, content)?;
            Ok(BodyPart::Code(code))
        }
        BodyKind::Other => Ok(BodyPart::Skipped(content)),
    }
}

#[tactic(auto, unfolding(crate::specs::Structure::attribute_at))]
fn read_attribute<'a>(
    alloc: Global,
    place: Holder,
    pool: &[PoolEntry],
    bytes: &'a [u8],
) -> Result<(AttributePart<'a>, &'a [u8]), Stop>
    ensures { Gives (λ x. (attribute_of x.0, x.1.now)) result (attribute_at place pool.now bytes.now) }
{
    let (name, sized) = u16_at(bytes, AT_END)?;
    let (size, rest) = u32_at(sized, AT_END)?;
    let (content, rest) = front(rest, size as usize, AT_END)?;
    let holder = Cut {
        left: sized.len(),
        what: What::BadLength,
    };
    let kind = body_kind(place, pool, name);
    let body = read_body(alloc, kind, holder, rest.len(), content)?;
    Ok((AttributePart { name, body }, rest))
}

fn read_attribute_list<'a>(
    alloc: Global,
    place: Holder,
    pool: &[PoolEntry],
    count: u16,
    bytes: &'a [u8],
) -> Result<(List<AttributePart<'a>>, &'a [u8]), Stop>
    ensures { Gives (λ x. (map attribute_of x.0, x.1.now)) result (many_at (attribute_at place pool.now) count bytes.now) }
{
    let mut attributes = List::new(alloc);
    let mut rest = bytes;
    for _ in 0..count {
        let (attribute, after) = read_attribute(alloc, place, pool, rest)?;
        attributes.add(attribute)?;
        rest = after;
    }
    Ok((attributes, rest))
}

/// The attributes behind their count.
#[tactic(auto, unfolding(crate::specs::Structure::counted_at))]
pub(crate) fn read_attributes<'a>(
    alloc: Global,
    place: Holder,
    pool: &[PoolEntry],
    bytes: &'a [u8],
) -> Result<(List<AttributePart<'a>>, &'a [u8]), Stop>
    ensures { Gives (λ x. (map attribute_of x.0, x.1.now)) result (counted_at at_end (attribute_at place pool.now) bytes.now) }
{
    let (count, rest) = u16_at(bytes, AT_END)?;
    read_attribute_list(alloc, place, pool, count, rest)
}
