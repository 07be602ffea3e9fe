// Which methods a class declares, and what their flags say (JVM Specification SE 8, 4.6).
ghost use Rattle.std.specs.Prelude.{◌≡◌, ◌<◌};
ghost use Rattle.hi_tree.specs.Members.{has_flag};
ghost use Rattle.hi_tree.specs.Methods.{access_of, flags_declared, row_declared, declared, is_interface_class, is_virtual};
ghost use Rattle.hi_tree.specs.Calls.Steps.{known_of};

use crate::known::KnownClass;
use cf_class::member_in;
use jv_base::Name;
use lib_rows::LibMethod;

/// Who may use a method: its class alone, its package, or more (`public` and `protected`).
#[derive(Clone, Copy, Debug, PartialEq, Eq)]
pub enum Access {
    Private,
    Package,
    Wide,
}

/// What a class says of a method that it declares.
#[derive(Clone, Copy, Debug)]
pub struct Declared {
    pub access: Access,
    pub is_static: bool,
    pub is_abstract: bool,
}

/// Whether a flag, one bit, is set.
pub fn has_flag(flags: u16, flag: u16) -> bool
    requires { 0 < flag }
    ensures { result ≡ has_flag flags flag }
{
    flags / flag % 2 == 1
}

fn access_of(flags: u16) -> Access
    ensures { result ≡ access_of flags }
{
    if has_flag(flags, 0x0002) {
        Access::Private
    } else if has_flag(flags, 0x0001) || has_flag(flags, 0x0004) {
        Access::Wide
    } else {
        Access::Package
    }
}

fn flags_declared(flags: u16) -> Declared
    ensures { result ≡ flags_declared flags }
{
    Declared {
        access: access_of(flags),
        is_static: has_flag(flags, 0x0008),
        is_abstract: has_flag(flags, 0x0400),
    }
}

fn row_declared(row: LibMethod) -> Declared
    ensures { result ≡ row_declared row }
{
    Declared {
        access: Access::Wide,
        is_static: row.is_static(),
        is_abstract: false,
    }
}

impl Declared {
    /// Whether a receiver's class can override it, or inherit it from an interface.
    pub(crate) fn is_virtual(self) -> bool
        ensures { result ≡ is_virtual self }
    {
        match self.access {
            Access::Private => false,
            Access::Package | Access::Wide => !self.is_static,
        }
    }
}

impl KnownClass<'_> {
    ghost use Rattle.hi_tree.specs.Methods.{declared, is_interface_class};

    /// What the class says of its method of a name and a descriptor, if it declares one.
    pub(crate) fn declared(self, name: &Name, desc: &Name) -> Option<Declared>
        ensures { result ≡ declared name.now desc.now (known_of self.entry) }
    {
        match self {
            KnownClass::Builtin(class) => Some(row_declared(class.row(name, desc)?)),
            KnownClass::Read(class) => Some(flags_declared(
                member_in(class.methods.as_slice(), name, desc)?.flags,
            )),
        }
    }

    pub(crate) fn is_interface(self) -> bool
        ensures { result ≡ is_interface_class (known_of self.entry) }
    {
        match self {
            KnownClass::Builtin(class) => class.is_interface(),
            KnownClass::Read(class) => has_flag(class.flags, 0x0200),
        }
    }
}
