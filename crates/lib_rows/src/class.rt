// The built-in classes.
ghost use Rattle.std.specs.Prelude.{◌≡◌, IfSome, Some};
ghost use Rattle.lib_rows.specs.declared.class.Builtin.{Builtin};
ghost use Rattle.lib_rows.specs.Calls.{class_in};
ghost use Rattle.lib_rows.specs.Classes.{class_name, superclass_of, superinterfaces_of, is_interface};

use jv_base::Name;

/// A class or an interface of the JDK that is known without a class file.
#[derive(Clone, Copy, Debug, PartialEq, Eq)]
pub enum Builtin {
    Object,
    String,
    StringBuilder,
    Class,
    System,
    PrintStream,
    Throwable,
    Exception,
    Error,
    RuntimeException,
    AssertionError,
    ArithmeticException,
    ArrayStoreException,
    ClassCastException,
    IllegalArgumentException,
    IllegalStateException,
    IndexOutOfBoundsException,
    NegativeArraySizeException,
    NullPointerException,
    UnsupportedOperationException,
    ArrayIndexOutOfBoundsException,
    StringIndexOutOfBoundsException,
    NumberFormatException,
    Comparable,
    CharSequence,
    Cloneable,
    Serializable,
}

impl Builtin {
    /// The name, as class files write it (JVM Specification SE 8, 4.2.1).
    pub fn name(self) -> &'static str
        ensures { result.now ≡ class_name self }
    {
        match self {
            Builtin::Object => "java/lang/Object",
            Builtin::String => "java/lang/String",
            Builtin::StringBuilder => "java/lang/StringBuilder",
            Builtin::Class => "java/lang/Class",
            Builtin::System => "java/lang/System",
            Builtin::PrintStream => "java/io/PrintStream",
            Builtin::Throwable => "java/lang/Throwable",
            Builtin::Exception => "java/lang/Exception",
            Builtin::Error => "java/lang/Error",
            Builtin::RuntimeException => "java/lang/RuntimeException",
            Builtin::AssertionError => "java/lang/AssertionError",
            Builtin::ArithmeticException => "java/lang/ArithmeticException",
            Builtin::ArrayStoreException => "java/lang/ArrayStoreException",
            Builtin::ClassCastException => "java/lang/ClassCastException",
            Builtin::IllegalArgumentException => "java/lang/IllegalArgumentException",
            Builtin::IllegalStateException => "java/lang/IllegalStateException",
            Builtin::IndexOutOfBoundsException => "java/lang/IndexOutOfBoundsException",
            Builtin::NegativeArraySizeException => "java/lang/NegativeArraySizeException",
            Builtin::NullPointerException => "java/lang/NullPointerException",
            Builtin::UnsupportedOperationException => "java/lang/UnsupportedOperationException",
            Builtin::ArrayIndexOutOfBoundsException => "java/lang/ArrayIndexOutOfBoundsException",
            Builtin::StringIndexOutOfBoundsException => "java/lang/StringIndexOutOfBoundsException",
            Builtin::NumberFormatException => "java/lang/NumberFormatException",
            Builtin::Comparable => "java/lang/Comparable",
            Builtin::CharSequence => "java/lang/CharSequence",
            Builtin::Cloneable => "java/lang/Cloneable",
            Builtin::Serializable => "java/io/Serializable",
        }
    }

    /// The direct superclass. That of an interface is Object, as its class file says (4.1).
    pub fn superclass(self) -> Option<Builtin>
        ensures { result ≡ superclass_of self }
    {
        match self {
            Builtin::Object => None,
            Builtin::Exception | Builtin::Error => Some(Builtin::Throwable),
            Builtin::RuntimeException => Some(Builtin::Exception),
            Builtin::AssertionError => Some(Builtin::Error),
            Builtin::ArithmeticException
            | Builtin::ArrayStoreException
            | Builtin::ClassCastException
            | Builtin::IllegalArgumentException
            | Builtin::IllegalStateException
            | Builtin::IndexOutOfBoundsException
            | Builtin::NegativeArraySizeException
            | Builtin::NullPointerException
            | Builtin::UnsupportedOperationException => Some(Builtin::RuntimeException),
            Builtin::ArrayIndexOutOfBoundsException | Builtin::StringIndexOutOfBoundsException =>
                Some(Builtin::IndexOutOfBoundsException),
            Builtin::NumberFormatException => Some(Builtin::IllegalArgumentException),
            _ => Some(Builtin::Object),
        }
    }

    /// The direct superinterfaces, in order.
    pub fn superinterfaces(self) -> &'static [Builtin]
        ensures { result.now ≡ superinterfaces_of self }
    {
        match self {
            Builtin::String => &[
                Builtin::Serializable,
                Builtin::Comparable,
                Builtin::CharSequence,
            ],
            Builtin::StringBuilder => &[Builtin::Serializable, Builtin::CharSequence],
            Builtin::Class | Builtin::Throwable => &[Builtin::Serializable],
            _ => &[],
        }
    }

    pub fn is_interface(self) -> bool
        ensures { result ≡ is_interface self }
    {
        matches!(
            self,
            Builtin::Comparable | Builtin::CharSequence | Builtin::Cloneable | Builtin::Serializable
        )
    }
}

const CLASSES: [Builtin; 27] = [
    Builtin::Object,
    Builtin::String,
    Builtin::StringBuilder,
    Builtin::Class,
    Builtin::System,
    Builtin::PrintStream,
    Builtin::Throwable,
    Builtin::Exception,
    Builtin::Error,
    Builtin::RuntimeException,
    Builtin::AssertionError,
    Builtin::ArithmeticException,
    Builtin::ArrayStoreException,
    Builtin::ClassCastException,
    Builtin::IllegalArgumentException,
    Builtin::IllegalStateException,
    Builtin::IndexOutOfBoundsException,
    Builtin::NegativeArraySizeException,
    Builtin::NullPointerException,
    Builtin::UnsupportedOperationException,
    Builtin::ArrayIndexOutOfBoundsException,
    Builtin::StringIndexOutOfBoundsException,
    Builtin::NumberFormatException,
    Builtin::Comparable,
    Builtin::CharSequence,
    Builtin::Cloneable,
    Builtin::Serializable,
];

/// The class of the name among those of a list.
fn class_named(mut classes: &[Builtin], name: &str) -> Option<Builtin>
    ensures { result ≡ class_in classes.entry.now name.now }
{
    while let [class, rest @ ..] = classes {
        if class.name() == name {
            return Some(*class);
        }
        classes = rest;
    }
    None
}

/// The built-in class of a name.
pub fn find_class(name: &Name) -> Option<Builtin>
    ensures found { IfSome result (λ class. name.now ≡ class_name class) }
    ensures only { (class : Builtin) → name.now ≡ class_name class → result ≡ Some class }
{
    class_named(&CLASSES, name.as_str())
}
