// Fields and methods (JVM Specification SE 8, 4.5 and 4.6).
ghost use Rattle.std.specs.Prelude.{◌≡◌, ◌++◌, OnOk};
ghost use Rattle.std.specs.List.{flat_map};
ghost use Rattle.cf_structure.specs.Spelled.{counted_text};
ghost use Rattle.cf_write.specs.Calls.Texts.{member_text, MemberFits, MembersFit};

use crate::attribute::put_attributes;
use crate::number::{put_count, put_two};
use cf_class::Member;
use jv_base::{List, Mem};
use std::alloc::Global;

fn put_member(alloc: Global, out: &mut List<u8>, member: &Member) -> Mem<()>
    requires { MemberFits member.now }
    ensures { OnOk result (out.new ≡ out.old ++ member_text member.now) }
{
    put_two(out, member.flags)?;
    put_two(out, member.name.index)?;
    put_two(out, member.desc.index)?;
    put_attributes(alloc, out, member.attributes.as_slice())
}

fn put_member_list(alloc: Global, out: &mut List<u8>, members: &[Member]) -> Mem<()>
    requires { MembersFit members.now }
    ensures { OnOk result (out.new ≡ out.old ++ flat_map member_text members.now) }
{
    for member in members {
        put_member(alloc, out, member)?;
    }
    Ok(())
}

/// Puts fields or methods at the end, behind how many there are.
pub(crate) fn put_members(alloc: Global, out: &mut List<u8>, members: &[Member]) -> Mem<()>
    requires { MembersFit members.now }
    ensures { OnOk result (out.new ≡ out.old ++ counted_text member_text members.now) }
{
    put_count(out, members.len())?;
    put_member_list(alloc, out, members)
}
