// The methods of rows.
ghost use Rattle.std.specs.Prelude.{◌≡◌};
ghost use Rattle.lib_rows.specs.Methods.{is_static, null_argument, has_index};

use jv_base::Kind;

/// A method of the JDK that is known without a class file: one for each row.
#[derive(Clone, Copy, Debug, PartialEq, Eq)]
pub enum LibMethod {
    ObjectInit,
    ObjectEquals,
    ThrowableInit,
    ThrowableInitText,
    AssertionInit,
    AssertionInitObject,
    AssertionInitBoolean,
    AssertionInitChar,
    AssertionInitInt,
    AssertionInitLong,
    StringLength,
    StringIsEmpty,
    StringCharAt,
    StringTail,
    StringSubstring,
    StringConcat,
    StringEquals,
    StringStartsWith,
    StringEndsWith,
    StringIndexOf,
    StringCompareTo,
    StringOfInt,
    StringOfChar,
    StringOfBoolean,
    BuilderInit,
    BuilderInitText,
    BuilderAppendText,
    BuilderAppendChar,
    BuilderAppendInt,
    BuilderAppendBoolean,
    BuilderToString,
    BuilderLength,
    BuilderCharAt,
    ClassDesiredAssertionStatus,
    PrintBoolean,
    PrintChar,
    PrintInt,
    PrintLong,
    PrintText,
    Println,
    PrintlnBoolean,
    PrintlnChar,
    PrintlnInt,
    PrintlnLong,
    PrintlnText,
}

impl LibMethod {
    /// Whether it is called without a receiver.
    pub fn is_static(self) -> bool
        ensures { result ≡ is_static self }
    {
        matches!(
            self,
            LibMethod::StringOfInt | LibMethod::StringOfChar | LibMethod::StringOfBoolean
        )
    }

    /// The kind of fault that a null argument raises, where it raises one. A null receiver always raises null.
    pub fn null_argument(self) -> Option<Kind>
        ensures { result ≡ null_argument self }
    {
        match self {
            LibMethod::StringConcat
            | LibMethod::StringStartsWith
            | LibMethod::StringEndsWith
            | LibMethod::StringCompareTo
            | LibMethod::BuilderInitText => Some(Kind::Null),
            _ => None,
        }
    }

    /// Whether an argument is a place in a text, so that the call can raise strindex.
    pub fn has_index(self) -> bool
        ensures { result ≡ has_index self }
    {
        matches!(
            self,
            LibMethod::StringCharAt
                | LibMethod::StringTail
                | LibMethod::StringSubstring
                | LibMethod::BuilderCharAt
        )
    }
}
