// Classes that are known, and the classes directly above them.
ghost use Rattle.std.specs.Prelude.{◌≡◌, ◌<◌, ◌≤◌, ◌^◌, IfSome, length, map, option_map, option_to_list, slice_get};
ghost use Rattle.hi_tree.specs.Calls.Steps.{above_name};
ghost use Rattle.hi_tree.specs.Resolution.{holder};

use cf_class::ClassFile;
use jv_base::Name;
use lib_rows::Builtin;

/// Which supertypes a walk climbs to: the superclasses alone, `java/lang/Object` alone, or the superinterfaces of each
/// class and then its superclass.
#[derive(Clone, Copy, Debug, PartialEq, Eq)]
pub enum Up {
    Superclasses,
    ObjectAlone,
    Supertypes,
}

/// What is known under a name.
#[derive(Clone, Copy, Debug)]
pub(crate) enum KnownClass<'a> {
    Builtin(Builtin),
    Read(&'a ClassFile),
}

/// A class that stands directly above another: a built-in one, or one that a class file names.
#[derive(Clone, Copy, Debug)]
pub(crate) enum Above<'a> {
    Builtin(Builtin),
    Named(&'a Name),
}

impl<'a> Above<'a> {
    ghost use Rattle.hi_tree.specs.Calls.Steps.{above_name};

    pub(crate) fn text(self) -> &'a str
        ensures { result.now ≡ above_name self.entry }
    {
        match self {
            Above::Builtin(class) => class.name(),
            Above::Named(name) => name.as_str(),
        }
    }
}

impl<'a> KnownClass<'a> {
    ghost use Rattle.hi_tree.specs.Calls.Steps.{known_of, above_name};
    ghost use Rattle.hi_tree.specs.Supers.{superclass_names, superinterface_names, object_names, names_above};

    fn superclass(self) -> Option<Above<'a>>
        ensures { map above_name (option_to_list result) ≡ superclass_names (known_of self.entry) }
    {
        match self {
            KnownClass::Builtin(class) => Some(Above::Builtin(class.superclass()?)),
            KnownClass::Read(class) => Some(Above::Named(&class.super_class.name)),
        }
    }

    fn object_above(self) -> Option<Above<'a>>
        ensures { map above_name (option_to_list result) ≡ object_names (known_of self.entry) }
    {
        match self {
            KnownClass::Builtin(Builtin::Object) => None,
            _ => Some(Above::Builtin(Builtin::Object)),
        }
    }

    fn superinterface_count(self) -> usize
        ensures value { result ≡ length (superinterface_names (known_of self.entry)) }
        ensures within { result < 2 ^ 63 }
    {
        match self {
            KnownClass::Builtin(class) => class.superinterfaces().len(),
            KnownClass::Read(class) => class.interfaces.as_slice().len(),
        }
    }

    fn superinterface(self, place: usize) -> Option<Above<'a>>
        ensures { option_map above_name result ≡ slice_get (superinterface_names (known_of self.entry)) place }
    {
        match self {
            KnownClass::Builtin(class) => Some(Above::Builtin(
                *class.superinterfaces().get(place)?,
            )),
            KnownClass::Read(class) => Some(Above::Named(&class.interfaces.get(place)?.name)),
        }
    }

    /// The class at a place among those directly above.
    pub(crate) fn above(self, up: Up, place: usize) -> Option<Above<'a>>
        ensures value { option_map above_name result ≡ slice_get (names_above up (known_of self.entry)) place }
        ensures within { IfSome result (λ _. place ≤ 2 ^ 63) }
    {
        let before = match up {
            Up::Superclasses | Up::ObjectAlone => 0,
            Up::Supertypes => self.superinterface_count(),
        };
        if place < before {
            self.superinterface(place)
        } else if place > before {
            None
        } else if up == Up::ObjectAlone {
            self.object_above()
        } else {
            self.superclass()
        }
    }
}

/// The class whose methods a class has: those of an array are the methods of `java/lang/Object` (10.7).
pub(crate) fn holder(class: &Name) -> Above<'_>
    ensures { above_name result ≡ holder class.now }
{
    if class.as_str().as_bytes().first() == Some(&b'[') {
        Above::Builtin(Builtin::Object)
    } else {
        Above::Named(class)
    }
}
