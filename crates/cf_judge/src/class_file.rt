// A class file as a whole (JVM Specification SE 8, 4.1).
ghost use Rattle.std.specs.Prelude.{◌≡◌, ◌+◌, ◌^◌, ◌<◌, length, map, IfOk, IfErr};
ghost use Rattle.std.specs.List.{flat_map};
ghost use Rattle.jv_list.specs.Places.{each_place};
ghost use Rattle.cf_structure.specs.Spelled.{two, class_text, file_text};
ghost use Rattle.cf_structure.specs.ClassFile.{Names};
ghost use Rattle.cf_structure.specs.Views.{class_of, file_of};
ghost use Rattle.cf_judge.specs.Demands.{index_demands, header_demands, class_demands, demands};
ghost use Rattle.cf_judge.specs.Judged.{IsJudged, IsJudgedFault};
ghost use Rattle.cf_judge.specs.Texts.{AreTexts};
ghost use Rattle.cf_judge.specs.Calls.Tells.{Tells};

use crate::attribute::judge_attributes;
use crate::entry::judge_entries;
use crate::index::{Judged, Wanted, judge_index, judge_pair};
use crate::member::{MemberKind, judge_members};
use crate::text::{Text, texts_of};
use cf_pool::PoolEntry;
use cf_structure::{ClassFault, ClassPart, Structure};
use jv_base::List;
use std::alloc::Global;

/// Where the pool's entries begin.
const POOL_PLACE: u64 = 10;

fn judge_interfaces(
    pool: &[PoolEntry],
    texts: &[Option<Text>],
    start: u64,
    interfaces: &[u16],
) -> Judged
    requires texts { AreTexts pool.now texts.now }
    requires fits { start + length (flat_map two interfaces.now) < 2 ^ 64 }
    ensures { Tells pool.now (each_place index_demands two start interfaces.now) (start + length (flat_map two interfaces.now)) result }
{
    let mut place = start;
    for index in interfaces {
        place = judge_index(pool, texts, place, Wanted::PlainClass, *index)?;
    }
    Ok(place)
}

/// The class, its superclass and its interfaces.
fn judge_header(
    pool: &[PoolEntry],
    texts: &[Option<Text>],
    place: u64,
    class: &ClassPart<'_>,
) -> Judged
    requires texts { AreTexts pool.now texts.now }
    requires fits { place + 8 + length (flat_map two class.now.interfaces) < 2 ^ 64 }
    ensures { Tells pool.now (header_demands place (class_of class.now)) (place + 8 + length (flat_map two class.now.interfaces)) result }
{
    let this_class = (Wanted::PlainClass, class.this_class);
    let super_class = (Wanted::PlainClass, class.super_class);
    let next = judge_pair(pool, texts, place + 2, this_class, super_class)?;
    judge_interfaces(pool, texts, next + 2, class.interfaces.as_slice())
}

/// What stands behind the pool.
fn judge_class(
    alloc: Global,
    pool: &[PoolEntry],
    texts: &[Option<Text>],
    place: u64,
    class: &ClassPart<'_>,
) -> Judged
    requires texts { AreTexts pool.now texts.now }
    requires fits { place + length (class_text (class_of class.now)) < 2 ^ 64 }
    ensures { Tells pool.now (class_demands place (class_of class.now)) (place + length (class_text (class_of class.now))) result }
{
    let fields = class.fields.as_slice();
    let methods = class.methods.as_slice();
    let attributes = class.attributes.as_slice();
    let header = judge_header(pool, texts, place, class)?;
    let behind_fields = judge_members(pool, texts, alloc, MemberKind::Field, header + 2, fields)?;
    let next = behind_fields + 2;
    let behind_methods = judge_members(pool, texts, alloc, MemberKind::Method, next, methods)?;
    judge_attributes(pool, texts, 0, behind_methods + 2, attributes)
}

/// A file, with the texts of its pool.
fn judge_file(alloc: Global, texts: &[Option<Text>], structure: &Structure<'_>) -> Judged
    requires texts { AreTexts structure.now.pool.entries texts.now }
    requires fits { length (file_text (file_of structure.now)) < 2 ^ 64 }
    ensures { Tells structure.now.pool.entries (demands (file_of structure.now)) (length (file_text (file_of structure.now))) result }
{
    let pool = structure.pool.entries.as_slice();
    let place = judge_entries(pool, texts, POOL_PLACE)?;
    judge_class(alloc, pool, texts, place, &structure.class)
}

/// Whether a file has what the format demands of its names, its descriptors and its indices; then it gives the texts of its
/// pool. The fault is the one of the least place, and of several at one place the first by the order of `What`.
pub fn judge(alloc: Global, structure: &Structure<'_>) -> Result<List<Option<Text>>, ClassFault>
    requires { length (file_text (file_of structure.now)) < 2 ^ 64 }
    ensures found { IfOk result (λ _. IsJudged (file_of structure.now)) }
    ensures texts { IfOk result (λ texts. AreTexts structure.now.pool.entries texts) }
    ensures fault { IfErr result (Names (IsJudgedFault (file_of structure.now))) }
    ensures outside { IfErr result (Names (λ _. IsJudged (file_of structure.now) → ⊥)) }
{
    let texts = texts_of(alloc, structure.pool.entries.as_slice())?;
    judge_file(alloc, texts.as_slice(), structure)?;
    Ok(texts)
}
