// The entries of the pool (JVM Specification SE 8, 4.4).
ghost use Rattle.std.specs.Prelude.{◌≡◌, ℕ, ◌+◌, ◌^◌, ◌<◌, ◌≤◌, length};
ghost use Rattle.std.specs.List.{flat_map};
ghost use Rattle.jv_list.specs.Places.{each_place};
ghost use Rattle.cf_pool.specs.Spelling.{entry_text};
ghost use Rattle.cf_judge.specs.Demands.{entry_demands};
ghost use Rattle.cf_judge.specs.Texts.{AreTexts};
ghost use Rattle.cf_judge.specs.Calls.Tells.{Tells};
ghost use Rattle.cf_judge.specs.Calls.Inner.{indices_demands, indices_size};

use crate::form::Form;
use crate::index::{Judged, Wanted, judge_index, judge_pair};
use crate::size::entry_size;
use crate::text::Text;
use cf_pool::PoolEntry;

const FIELD_TYPE: Wanted = Wanted::NameAndType(Form::Unqualified, Form::FieldDescriptor);

const METHOD_TYPE: Wanted = Wanted::NameAndType(Form::Method, Form::MethodDescriptor);

/// The indices that stand behind the tag of an entry and are judged, each with what it has to find.
#[derive(Clone, Copy, Debug, PartialEq, Eq)]
enum Indices {
    None,
    One(Wanted, u16),
    Two(Wanted, u16, Wanted, u16),
}

fn indices_of(entry: &PoolEntry) -> Indices
    ensures demands { (place : ℕ) → indices_demands place result ≡ entry_demands place entry.now }
    ensures within { indices_size result ≤ length (entry_text entry.now) }
{
    match entry {
        PoolEntry::Class(name) => Indices::One(Wanted::Formed(Form::ClassOrArray), *name),
        PoolEntry::Str(text) => Indices::One(Wanted::Text, *text),
        PoolEntry::Field(class, ty) => Indices::Two(Wanted::PlainClass, *class, FIELD_TYPE, *ty),
        PoolEntry::Method(class, ty) | PoolEntry::InterfaceMethod(class, ty) => {
            Indices::Two(Wanted::Class, *class, METHOD_TYPE, *ty)
        }
        PoolEntry::NameAndType(name, desc) => Indices::Two(
            Wanted::Formed(Form::Unqualified),
            *name,
            Wanted::Formed(Form::Descriptor),
            *desc,
        ),
        _ => Indices::None,
    }
}

fn judge_indices(pool: &[PoolEntry], texts: &[Option<Text>], place: u64, indices: Indices) -> Judged
    requires texts { AreTexts pool.now texts.now }
    requires fits { place + indices_size indices < 2 ^ 64 }
    ensures { Tells pool.now (indices_demands place indices) (place + indices_size indices) result }
{
    match indices {
        Indices::None => Ok(place),
        Indices::One(wanted, index) => judge_index(pool, texts, place + 1, wanted, index),
        Indices::Two(first, a, second, b) => {
            judge_pair(pool, texts, place + 1, (first, a), (second, b))
        }
    }
}

fn judge_entry(pool: &[PoolEntry], texts: &[Option<Text>], place: u64, entry: &PoolEntry) -> Judged
    requires texts { AreTexts pool.now texts.now }
    requires fits { place + length (entry_text entry.now) < 2 ^ 64 }
    ensures { Tells pool.now (entry_demands place entry.now) (place + length (entry_text entry.now)) result }
{
    judge_indices(pool, texts, place, indices_of(entry))?;
    Ok(place + entry_size(entry))
}

pub(crate) fn judge_entries(pool: &[PoolEntry], texts: &[Option<Text>], start: u64) -> Judged
    requires texts { AreTexts pool.now texts.now }
    requires fits { start + length (flat_map entry_text pool.now) < 2 ^ 64 }
    ensures { Tells pool.now (each_place entry_demands entry_text start pool.now) (start + length (flat_map entry_text pool.now)) result }
{
    let mut place = start;
    for entry in pool {
        place = judge_entry(pool, texts, place, entry)?;
    }
    Ok(place)
}
