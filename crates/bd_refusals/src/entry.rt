// Whether runs can begin at an entry method.
ghost use Rattle.std.specs.Prelude.{◌↔◌, IsTrue};
ghost use Rattle.bd_refusals.specs.Refusals.{HasNoObject, LacksMethod, LacksEntry};

use cf_class::{ClassFile, Member, code_in, member_in};
use hi_tree::{Classes, has_flag};
use jv_base::MethodId;
use lib_rows::find_class;

const STATIC: u16 = 0x0008;

const INTERFACE: u16 = 0x0200;

const ABSTRACT: u16 = 0x0400;

// Whether a method wants a receiver, and no object is of the class itself.
fn has_no_object(class: &ClassFile, method: &Member) -> bool
    ensures { IsTrue result ↔ HasNoObject class.now method.now }
{
    !has_flag(method.flags, STATIC)
        && (has_flag(class.flags, INTERFACE) || has_flag(class.flags, ABSTRACT))
}

// Whether a class file lacks a method to begin at.
fn lacks_method(class: &ClassFile, entry: &MethodId) -> bool
    ensures { IsTrue result ↔ LacksMethod class.now entry.now }
{
    match member_in(class.methods.as_slice(), &entry.name, &entry.desc) {
        Some(method) => {
            code_in(method.attributes.as_slice()).is_none() || has_no_object(class, method)
        }
        None => true,
    }
}

/// Whether runs cannot begin at an entry method: its class is built in, or was read and declares no such method with
/// code, or the method wants a receiver and the class is abstract or an interface.
pub fn lacks_entry(classes: &Classes, entry: &MethodId) -> bool
    ensures { IsTrue result ↔ LacksEntry classes.now entry.now }
{
    if let Some(_built_in) = find_class(&entry.class) {
        return true;
    }
    match classes.read(&entry.class) {
        Some(class) => lacks_method(class, entry),
        None => false,
    }
}
