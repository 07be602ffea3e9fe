// What a class declares (JVM Specification SE 8, 4.5, 4.6 and 4.7.3).
ghost use Rattle.std.specs.Prelude.{◌≡◌, option_copied};
ghost use Rattle.cf_class.specs.Members.{is_named, member_in, code_in};

use crate::attribute::{Attribute, Body};
use crate::code::Code;
use crate::member::Member;
use jv_base::Name;

fn is_named(name: &Name, desc: &Name, member: &Member) -> bool
    ensures { result ≡ is_named name.now desc.now member.now }
{
    member.name.name.as_str() == name.as_str() && member.desc.name.as_str() == desc.as_str()
}

/// The first field or method of a name and a descriptor: a class file has one at most.
pub fn member_in<'a>(members: &'a [Member], name: &Name, desc: &Name) -> Option<&'a Member>
    ensures { option_copied result ≡ member_in name.now desc.now members.now }
{
    for member in members {
        if is_named(name, desc, member) {
            return Some(member);
        }
    }
    None
}

/// The content of the first Code: the method of a class file has one at most.
pub fn code_in(attributes: &[Attribute]) -> Option<&Code>
    ensures { option_copied result ≡ code_in attributes.now }
{
    for attribute in attributes {
        if let Body::Code(code) = &attribute.body {
            return Some(code);
        }
    }
    None
}
