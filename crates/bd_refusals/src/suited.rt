// Whether a class file has a supertype that it may not have (JVM Specification SE 8, 4.1 and 5.3.5).
ghost use Rattle.std.specs.Prelude.{◌≡◌, ◌↔◌, IsTrue, false};
ghost use Rattle.lib_rows.specs.Classes.{class_name};
ghost use Rattle.lib_rows.specs.declared.class.Builtin.TheVariants.{Object};
ghost use Rattle.bd_refusals.specs.Suited.{IsThrowable, IsOpen, HasKind, HasUnsuited};
ghost use Rattle.bd_refusals.specs.Calls.Suits.{IsClosed, HasClassAbove, HasUnsuitedSuper};

use crate::known::kind_of;
use cf_class::{ClassFile, Named};
use hi_tree::{Classes, has_flag};
use jv_base::Name;
use lib_rows::{Builtin, find_class};

const INTERFACE: u16 = 0x0200;

// java.lang.Throwable and the built-in classes under it.
fn is_throwable(class: Builtin) -> bool
    ensures { IsTrue result ↔ IsThrowable class }
{
    matches!(
        class,
        Builtin::Throwable
            | Builtin::Exception
            | Builtin::Error
            | Builtin::RuntimeException
            | Builtin::AssertionError
            | Builtin::ArithmeticException
            | Builtin::ArrayStoreException
            | Builtin::ClassCastException
            | Builtin::IllegalArgumentException
            | Builtin::IllegalStateException
            | Builtin::IndexOutOfBoundsException
            | Builtin::NegativeArraySizeException
            | Builtin::NullPointerException
            | Builtin::UnsupportedOperationException
            | Builtin::ArrayIndexOutOfBoundsException
            | Builtin::StringIndexOutOfBoundsException
            | Builtin::NumberFormatException
    )
}

// Whether a class file may have a built-in class as its superclass.
fn is_open(class: Builtin) -> bool
    ensures { IsTrue result ↔ IsOpen class }
{
    matches!(class, Builtin::Object) || is_throwable(class)
}

// Whether the name is that of a built-in class that no class file extends.
fn is_closed(name: &Name) -> bool
    ensures { IsTrue result ↔ IsClosed name.now }
{
    match find_class(name) {
        Some(class) => !is_open(class),
        None => false,
    }
}

fn is_object(name: &Name) -> bool
    ensures { IsTrue result ↔ (name.now ≡ class_name Object) }
{
    name.as_str() == Builtin::Object.name()
}

// Whether the name is that of a class that is no interface.
fn is_class(classes: &Classes, name: &Name) -> bool
    ensures { IsTrue result ↔ HasKind classes.now name.now false }
{
    match kind_of(classes, name) {
        Some(interface) => !interface,
        None => false,
    }
}

// Whether one of the names is that of a class that is no interface.
fn has_class_above(classes: &Classes, names: &[Named]) -> bool
    ensures { IsTrue result ↔ HasClassAbove classes.now names.now }
{
    'names: for above in names {
        if is_class(classes, &above.name) {
            return true;
        }
    }
    false
}

// Whether the superclass is unsuited.
fn has_unsuited_super(classes: &Classes, class: &ClassFile) -> bool
    ensures { IsTrue result ↔ HasUnsuitedSuper classes.now class.now }
{
    let super_class = &class.super_class.name;
    if is_closed(super_class) {
        return true;
    }
    match kind_of(classes, super_class) {
        Some(true) => true,
        Some(false) => has_flag(class.flags, INTERFACE) && !is_object(super_class),
        None => false,
    }
}

/// Whether a class file has a supertype that it may not have.
pub fn has_unsuited(classes: &Classes, class: &ClassFile) -> bool
    ensures { IsTrue result ↔ HasUnsuited classes.now class.now }
{
    has_unsuited_super(classes, class) || has_class_above(classes, class.interfaces.as_slice())
}
