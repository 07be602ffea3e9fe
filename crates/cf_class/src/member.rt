// Fields and methods (JVM Specification SE 8, 4.5 and 4.6).
ghost use Rattle.std.specs.Prelude.{◌≡◌, drop, length, map, IfOk, OnOk};
ghost use Rattle.std.specs.List.{flat_map, AllZip};
ghost use Rattle.cf_structure.specs.Views.{member_of};
ghost use Rattle.cf_class.specs.Content.{IsMemberContent};
ghost use Rattle.cf_class.specs.Calls.Contents.{AreNames, HasContent, HaveContent, HaveBodies, member_codes};

use crate::attribute::{Attribute, attribute_list};
use crate::bodies::Bodies;
use crate::named::{Named, PoolTexts, text_named};
use cf_structure::MemberPart;
use jv_base::{List, Mem};
use std::alloc::Global;

/// A field or a method, with its name and its descriptor.
#[derive(Debug, Drop)]
pub struct Member {
    pub flags: u16,
    pub name: Named,
    pub desc: Named,
    pub attributes: List<Attribute>,
}

fn member_content(
    alloc: Global,
    names: &PoolTexts<'_>,
    bodies: &mut Bodies,
    part: &MemberPart<'_>,
) -> Mem<Member>
    requires names { AreNames names.now }
    requires content { HasContent (IsMemberContent names.now.pool.now) (member_of part.now) }
    requires bodies { HaveBodies (member_codes (member_of part.now)) bodies.old }
    ensures content { IfOk result (λ m. IsMemberContent names.now.pool.now (member_of part.now) m) }
    ensures left { OnOk result (bodies.new ≡ drop (length (member_codes (member_of part.now))) bodies.old) }
{
    Ok(Member {
        flags: part.flags,
        name: text_named(alloc, names, part.name)?,
        desc: text_named(alloc, names, part.desc)?,
        attributes: attribute_list(alloc, names, bodies, part.attributes.as_slice())?,
    })
}

pub(crate) fn member_list(
    alloc: Global,
    names: &PoolTexts<'_>,
    bodies: &mut Bodies,
    parts: &[MemberPart<'_>],
) -> Mem<List<Member>>
    requires names { AreNames names.now }
    requires content { HaveContent (IsMemberContent names.now.pool.now) (map member_of parts.now) }
    requires bodies { HaveBodies (flat_map member_codes (map member_of parts.now)) bodies.old }
    ensures content { IfOk result (λ made. AllZip (IsMemberContent names.now.pool.now) (map member_of parts.now) made) }
    ensures left { OnOk result (bodies.new ≡ drop (length (flat_map member_codes (map member_of parts.now))) bodies.old) }
{
    let mut made = List::with_capacity(alloc, parts.len())?;
    for part in parts {
        made.add(member_content(alloc, names, bodies, part)?)?;
    }
    Ok(made)
}
