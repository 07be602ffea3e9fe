// Classes of which objects can be made.
ghost use Rattle.std.specs.Prelude.{◌↔◌, IsTrue};
ghost use Rattle.cf_class.specs.declared.class_file.ClassFile.{ClassFile as a_class};
ghost use Rattle.hi_tree.specs.Inputs.{IsMade};

use hi_tree::{Classes, has_flag};
use jv_base::Name;

const ABSTRACT: u16 = 0x0400;

const INTERFACE: u16 = 0x0200;

/// Whether objects of a class can be made: a class that was read under the name, neither abstract nor an interface (JVM
/// Specification SE 8, 4.1).
pub fn is_made(classes: &Classes, name: &Name) -> bool
    ensures { IsTrue result ↔ ((c : a_class) × IsMade classes.now name.now c) }
{
    let Some(class) = classes.read(name) else {
        return false;
    };
    !has_flag(class.flags, ABSTRACT) && !has_flag(class.flags, INTERFACE)
}
