// Attributes (JVM Specification SE 8, 4.7).
ghost use Rattle.std.specs.Prelude.{◌≡◌, ◌∷◌, [], ◌+◌, ◌^◌, ◌<◌, ◌⊎◌, ◌↔◌, IsTrue, length, map};
ghost use Rattle.std.specs.List.{flat_map};
ghost use Rattle.jv_list.specs.Places.{each_place};
ghost use Rattle.cf_structure.specs.Spelled.{row_text, skipped_text, code_text, body_text, attribute_text};
ghost use Rattle.cf_structure.specs.Views.{skipped_of, code_of, body_of, attribute_of};
ghost use Rattle.cf_judge.specs.Indices.{Fits, FitsField};
ghost use Rattle.cf_judge.specs.Demands.{demand, fits, attribute_name, row_demands, skipped_demands, code_demands, body_demands, attribute_demands};
ghost use Rattle.cf_judge.specs.Texts.{AreTexts};
ghost use Rattle.cf_judge.specs.Calls.Tells.{Tells};

use crate::form::Form;
use crate::index::{Judged, Wanted, fault_at, judge_index};
use crate::text::Text;
use cf_pool::{PoolEntry, What};
use cf_structure::{AttributePart, BodyPart, CodePart, Row, SkippedPart};

/// "Ljava/lang/String;" in UTF-16 units.
const STRING: [u16; 18] = [
    0x4c, 0x6a, 0x61, 0x76, 0x61, 0x2f, 0x6c, 0x61, 0x6e, 0x67, 0x2f, 0x53, 0x74, 0x72, 0x69, 0x6e,
    0x67, 0x3b,
];

fn is_letter(desc: &[u16], letter: u16) -> bool
    ensures { IsTrue result ↔ (desc.now ≡ letter ∷ []) }
{
    desc == [letter].as_slice()
}

/// Whether a field with that descriptor can have the constant for its value (4.7.2, table 4.7.2-A).
fn fits_type(entry: &PoolEntry, desc: &[u16]) -> bool
    ensures { IsTrue result ↔ Fits entry.now desc.now }
{
    match entry {
        PoolEntry::Integer(_) => {
            is_letter(desc, 0x49)
                || is_letter(desc, 0x53)
                || is_letter(desc, 0x43)
                || is_letter(desc, 0x42)
                || is_letter(desc, 0x5a)
        }
        PoolEntry::Float(_) => is_letter(desc, 0x46),
        PoolEntry::Long(_) => is_letter(desc, 0x4a),
        PoolEntry::Double(_) => is_letter(desc, 0x44),
        PoolEntry::Str(_) => desc == STRING.as_slice(),
        _ => false,
    }
}

/// Whether a constant that fits a descriptor stands at the index.
fn fits_field(pool: &[PoolEntry], desc: u16, index: u16) -> bool
    ensures { IsTrue result ↔ FitsField pool.now desc index }
{
    match (pool.get(usize::from(desc)), pool.get(usize::from(index))) {
        (Some(PoolEntry::Utf8(units)), Some(entry)) => fits_type(entry, units.as_slice()),
        _ => false,
    }
}

fn judge_constant(pool: &[PoolEntry], desc: u16, place: u64, index: u16) -> Judged
    requires { place + 2 < 2 ^ 64 }
    ensures { Tells pool.now (demand place (fits desc index) ∷ []) (place + 2) result }
{
    if !fits_field(pool, desc, index) {
        return fault_at(place, What::BadIndex);
    }
    Ok(place + 2)
}

fn judge_name(pool: &[PoolEntry], texts: &[Option<Text>], place: u64, name: u16) -> Judged
    requires texts { AreTexts pool.now texts.now }
    requires fits { place + 2 < 2 ^ 64 }
    ensures { Tells pool.now (attribute_name place name ∷ []) (place + 2) result }
{
    judge_index(pool, texts, place, Wanted::Formed(Form::Attribute), name)
}

fn judge_row(pool: &[PoolEntry], texts: &[Option<Text>], place: u64, row: &Row) -> Judged
    requires texts { AreTexts pool.now texts.now }
    requires fits { place + length (row_text row.now) < 2 ^ 64 }
    ensures { Tells pool.now (row_demands place row.now) (place + length (row_text row.now)) result }
{
    judge_index(pool, texts, place + 6, Wanted::CatchType, row.catch_type)
}

fn judge_rows(pool: &[PoolEntry], texts: &[Option<Text>], start: u64, rows: &[Row]) -> Judged
    requires texts { AreTexts pool.now texts.now }
    requires fits { start + length (flat_map row_text rows.now) < 2 ^ 64 }
    ensures { Tells pool.now (each_place row_demands row_text start rows.now) (start + length (flat_map row_text rows.now)) result }
{
    let mut place = start;
    for row in rows {
        place = judge_row(pool, texts, place, row)?;
    }
    Ok(place)
}

/// An attribute that is passed over.
fn judge_skipped(
    pool: &[PoolEntry],
    texts: &[Option<Text>],
    place: u64,
    attribute: &SkippedPart<'_>,
) -> Judged
    requires texts { AreTexts pool.now texts.now }
    requires fits { place + length (skipped_text (skipped_of attribute.now)) < 2 ^ 64 }
    ensures { Tells pool.now (skipped_demands place (skipped_of attribute.now)) (place + length (skipped_text (skipped_of attribute.now))) result }
{
    let next = judge_name(pool, texts, place, attribute.name)?;
    Ok(next + 4 + attribute.content.len() as u64)
}

fn judge_skipped_list(
    pool: &[PoolEntry],
    texts: &[Option<Text>],
    start: u64,
    attributes: &[SkippedPart<'_>],
) -> Judged
    requires texts { AreTexts pool.now texts.now }
    requires fits { start + length (flat_map skipped_text (map skipped_of attributes.now)) < 2 ^ 64 }
    ensures { Tells pool.now (each_place skipped_demands skipped_text start (map skipped_of attributes.now))
        (start + length (flat_map skipped_text (map skipped_of attributes.now))) result }
{
    let mut place = start;
    for attribute in attributes {
        place = judge_skipped(pool, texts, place, attribute)?;
    }
    Ok(place)
}

fn judge_code(pool: &[PoolEntry], texts: &[Option<Text>], place: u64, code: &CodePart<'_>) -> Judged
    requires texts { AreTexts pool.now texts.now }
    requires fits { place + length (code_text (code_of code.now)) < 2 ^ 64 }
    ensures { Tells pool.now (code_demands place (code_of code.now)) (place + length (code_text (code_of code.now))) result }
{
    let rows = place + 8 + code.code.len() as u64 + 2;
    let next = judge_rows(pool, texts, rows, code.rows.as_slice())?;
    judge_skipped_list(pool, texts, next + 2, code.attributes.as_slice())
}

/// The content of an attribute of a member with that descriptor.
fn judge_body(
    pool: &[PoolEntry],
    texts: &[Option<Text>],
    desc: u16,
    place: u64,
    body: &BodyPart<'_>,
) -> Judged
    requires texts { AreTexts pool.now texts.now }
    requires fits { place + length (body_text (body_of body.now)) < 2 ^ 64 }
    ensures { Tells pool.now (body_demands desc place (body_of body.now)) (place + length (body_text (body_of body.now))) result }
{
    match body {
        BodyPart::Constant(index) => judge_constant(pool, desc, place, *index),
        BodyPart::Code(code) => judge_code(pool, texts, place, code),
        BodyPart::Skipped(content) => Ok(place + content.len() as u64),
    }
}

fn judge_attribute(
    pool: &[PoolEntry],
    texts: &[Option<Text>],
    desc: u16,
    place: u64,
    attribute: &AttributePart<'_>,
) -> Judged
    requires texts { AreTexts pool.now texts.now }
    requires fits { place + length (attribute_text (attribute_of attribute.now)) < 2 ^ 64 }
    ensures { Tells pool.now (attribute_demands desc place (attribute_of attribute.now)) (place + length (attribute_text (attribute_of attribute.now))) result }
{
    let next = judge_name(pool, texts, place, attribute.name)?;
    judge_body(pool, texts, desc, next + 4, &attribute.body)
}

/// The attributes of a member with that descriptor, or those of a class, with 0.
pub(crate) fn judge_attributes(
    pool: &[PoolEntry],
    texts: &[Option<Text>],
    desc: u16,
    start: u64,
    attributes: &[AttributePart<'_>],
) -> Judged
    requires texts { AreTexts pool.now texts.now }
    requires fits { start + length (flat_map attribute_text (map attribute_of attributes.now)) < 2 ^ 64 }
    ensures { Tells pool.now (each_place (attribute_demands desc) attribute_text start (map attribute_of attributes.now))
        (start + length (flat_map attribute_text (map attribute_of attributes.now))) result }
{
    let mut place = start;
    for attribute in attributes {
        place = judge_attribute(pool, texts, desc, place, attribute)?;
    }
    Ok(place)
}
