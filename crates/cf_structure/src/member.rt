// Fields and methods (JVM Specification SE 8, 4.5 and 4.6).
ghost use Rattle.std.specs.Prelude.{◌≡◌, map};
ghost use Rattle.cf_structure.specs.Structure.{at_end, member_at, many_at, counted_at};
ghost use Rattle.cf_structure.specs.Views.{member_of};
ghost use Rattle.cf_structure.specs.Calls.Views.{Gives};

use crate::attribute::{AttributePart, Holder, read_attributes};
use crate::cursor::u16_at;
use crate::fault::{AT_END, Stop};
use cf_pool::PoolEntry;
use jv_base::List;
use std::alloc::Global;

/// A field or a method, by the indices of its name and its descriptor.
#[derive(Debug, Drop)]
pub struct MemberPart<'a> {
    pub flags: u16,
    pub name: u16,
    pub desc: u16,
    pub attributes: List<AttributePart<'a>>,
}

#[tactic(auto, unfolding(crate::specs::Structure::member_at))]
fn read_member<'a>(
    alloc: Global,
    place: Holder,
    pool: &[PoolEntry],
    bytes: &'a [u8],
) -> Result<(MemberPart<'a>, &'a [u8]), Stop>
    ensures { Gives (λ x. (member_of x.0, x.1.now)) result (member_at place pool.now bytes.now) }
{
    let (flags, rest) = u16_at(bytes, AT_END)?;
    let (name, rest) = u16_at(rest, AT_END)?;
    let (desc, rest) = u16_at(rest, AT_END)?;
    let (attributes, rest) = read_attributes(alloc, place, pool, rest)?;
    let member = MemberPart {
        flags,
        name,
        desc,
        attributes,
    };
    Ok((member, rest))
}

fn read_member_list<'a>(
    alloc: Global,
    place: Holder,
    pool: &[PoolEntry],
    count: u16,
    bytes: &'a [u8],
) -> Result<(List<MemberPart<'a>>, &'a [u8]), Stop>
    ensures { Gives (λ x. (map member_of x.0, x.1.now)) result (many_at (member_at place pool.now) count bytes.now) }
{
    let mut members = List::new(alloc);
    let mut rest = bytes;
    for _ in 0..count {
        let (member, after) = read_member(alloc, place, pool, rest)?;
        members.add(member)?;
        rest = after;
    }
    Ok((members, rest))
}

/// The fields or the methods behind their count.
#[tactic(auto, unfolding(crate::specs::Structure::counted_at))]
pub(crate) fn read_members<'a>(
    alloc: Global,
    place: Holder,
    pool: &[PoolEntry],
    bytes: &'a [u8],
) -> Result<(List<MemberPart<'a>>, &'a [u8]), Stop>
    ensures { Gives (λ x. (map member_of x.0, x.1.now)) result (counted_at at_end (member_at place pool.now) bytes.now) }
{
    let (count, rest) = u16_at(bytes, AT_END)?;
    read_member_list(alloc, place, pool, count, rest)
}
