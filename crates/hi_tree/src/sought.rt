// What a walk looks for.
ghost use Rattle.std.specs.Prelude.{◌≡◌};
ghost use Rattle.hi_tree.specs.Members.{declares_field, is_builtin_field};
ghost use Rattle.hi_tree.specs.Sought.{package_of, can_override, override_sought};
ghost use Rattle.hi_tree.specs.Calls.Steps.{known_of};

use crate::declared::Access;
use crate::known::KnownClass;
use cf_class::member_in;
use jv_base::{FieldId, MethodId, Name};
use lib_rows::Builtin;

#[derive(Clone, Copy, Debug)]
pub(crate) enum Sought<'a> {
    /// Nothing: the whole walk.
    Nothing,
    /// A class.
    Class(&'a str),
    /// A class that declares a field of the name and the descriptor.
    Field(&'a FieldId),
    /// A class that declares a method of the name and the descriptor.
    Method(&'a MethodId),
    /// The class of a method of this access, or one that declares a method which overrides it.
    Override(&'a MethodId, Access),
}

fn is_builtin_field(class: Builtin, name: &str, desc: &str) -> bool
    ensures { result ≡ is_builtin_field name.now desc.now class }
{
    match class {
        Builtin::System => (name == "out" || name == "err") && desc == "Ljava/io/PrintStream;",
        _ => false,
    }
}

/// Whether a class declares a field.
fn declares_field(class: KnownClass<'_>, field: &FieldId) -> bool
    ensures { result ≡ declares_field field.now.name field.now.desc (known_of class.entry) }
{
    match class {
        KnownClass::Builtin(class) => is_builtin_field(
            class,
            field.name.as_str(),
            field.desc.as_str(),
        ),
        KnownClass::Read(class) => member_in(
            class.fields.as_slice(),
            &field.name,
            &field.desc,
        ).is_some(),
    }
}

/// The part of a class name up to the last slash.
fn package_of(name: &str) -> &[u8]
    ensures { result.now ≡ package_of name.now }
{
    let mut left = name.as_bytes();
    while let [front @ .., last] = left {
        if *last == b'/' {
            return left;
        }
        left = front;
    }
    left
}

/// Whether a method of a class can be overridden in another class.
fn can_override(access: Access, class: &str, name: &str) -> bool
    ensures { result ≡ can_override access class.now name.now }
{
    match access {
        Access::Package => package_of(name) == package_of(class),
        Access::Private | Access::Wide => true,
    }
}

/// Whether a class declares a method that overrides another, or is the class of that one.
fn overrides(name: &str, class: KnownClass<'_>, method: &MethodId, access: Access) -> bool
    ensures { result ≡ override_sought method.now access name.now (known_of class.entry) }
{
    if name == method.class.as_str() {
        return true;
    }
    match class.declared(&method.name, &method.desc) {
        Some(declared) => {
            declared.is_virtual() && can_override(access, method.class.as_str(), name)
        }
        None => false,
    }
}

impl Sought<'_> {
    ghost use Rattle.hi_tree.specs.Calls.Steps.{known_of, sought_of};

    /// Whether a class is sought.
    pub(crate) fn is_at(self, name: &str, class: KnownClass<'_>) -> bool
        ensures { result ≡ sought_of self.entry name.now (known_of class.entry) }
    {
        match self {
            Sought::Nothing => false,
            Sought::Class(sought) => name == sought,
            Sought::Field(field) => declares_field(class, field),
            Sought::Method(method) => class.declared(&method.name, &method.desc).is_some(),
            Sought::Override(method, access) => overrides(name, class, method, access),
        }
    }
}
