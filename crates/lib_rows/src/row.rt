// The rows of the built-in classes.
ghost use Rattle.std.specs.Prelude.{◌≡◌, IfSome, Some, map};
ghost use Rattle.lib_rows.specs.declared.method.LibMethod.{LibMethod};
ghost use Rattle.lib_rows.specs.Rows.{IsRow, rows_of};
ghost use Rattle.lib_rows.specs.Rows.{row, named};

use crate::class::{Builtin, find_class};
use crate::method::LibMethod;
use jv_base::{MethodId, Name};

const OBJECT: [(&str, &str, LibMethod); 2] = [
    ("<init>", "()V", LibMethod::ObjectInit),
    ("equals", "(Ljava/lang/Object;)Z", LibMethod::ObjectEquals),
];

const THROWABLE: [(&str, &str, LibMethod); 2] = [
    ("<init>", "()V", LibMethod::ThrowableInit),
    (
        "<init>",
        "(Ljava/lang/String;)V",
        LibMethod::ThrowableInitText,
    ),
];

const ASSERTION: [(&str, &str, LibMethod); 6] = [
    ("<init>", "()V", LibMethod::AssertionInit),
    (
        "<init>",
        "(Ljava/lang/Object;)V",
        LibMethod::AssertionInitObject,
    ),
    ("<init>", "(Z)V", LibMethod::AssertionInitBoolean),
    ("<init>", "(C)V", LibMethod::AssertionInitChar),
    ("<init>", "(I)V", LibMethod::AssertionInitInt),
    ("<init>", "(J)V", LibMethod::AssertionInitLong),
];

const STRING: [(&str, &str, LibMethod); 14] = [
    ("length", "()I", LibMethod::StringLength),
    ("isEmpty", "()Z", LibMethod::StringIsEmpty),
    ("charAt", "(I)C", LibMethod::StringCharAt),
    ("substring", "(I)Ljava/lang/String;", LibMethod::StringTail),
    (
        "substring",
        "(II)Ljava/lang/String;",
        LibMethod::StringSubstring,
    ),
    (
        "concat",
        "(Ljava/lang/String;)Ljava/lang/String;",
        LibMethod::StringConcat,
    ),
    ("equals", "(Ljava/lang/Object;)Z", LibMethod::StringEquals),
    (
        "startsWith",
        "(Ljava/lang/String;)Z",
        LibMethod::StringStartsWith,
    ),
    (
        "endsWith",
        "(Ljava/lang/String;)Z",
        LibMethod::StringEndsWith,
    ),
    ("indexOf", "(I)I", LibMethod::StringIndexOf),
    (
        "compareTo",
        "(Ljava/lang/String;)I",
        LibMethod::StringCompareTo,
    ),
    ("valueOf", "(I)Ljava/lang/String;", LibMethod::StringOfInt),
    ("valueOf", "(C)Ljava/lang/String;", LibMethod::StringOfChar),
    (
        "valueOf",
        "(Z)Ljava/lang/String;",
        LibMethod::StringOfBoolean,
    ),
];

const BUILDER: [(&str, &str, LibMethod); 9] = [
    ("<init>", "()V", LibMethod::BuilderInit),
    (
        "<init>",
        "(Ljava/lang/String;)V",
        LibMethod::BuilderInitText,
    ),
    (
        "append",
        "(Ljava/lang/String;)Ljava/lang/StringBuilder;",
        LibMethod::BuilderAppendText,
    ),
    (
        "append",
        "(C)Ljava/lang/StringBuilder;",
        LibMethod::BuilderAppendChar,
    ),
    (
        "append",
        "(I)Ljava/lang/StringBuilder;",
        LibMethod::BuilderAppendInt,
    ),
    (
        "append",
        "(Z)Ljava/lang/StringBuilder;",
        LibMethod::BuilderAppendBoolean,
    ),
    (
        "toString",
        "()Ljava/lang/String;",
        LibMethod::BuilderToString,
    ),
    ("length", "()I", LibMethod::BuilderLength),
    ("charAt", "(I)C", LibMethod::BuilderCharAt),
];

const CLASS: [(&str, &str, LibMethod); 1] = [(
    "desiredAssertionStatus",
    "()Z",
    LibMethod::ClassDesiredAssertionStatus,
)];

const PRINT: [(&str, &str, LibMethod); 11] = [
    ("print", "(Z)V", LibMethod::PrintBoolean),
    ("print", "(C)V", LibMethod::PrintChar),
    ("print", "(I)V", LibMethod::PrintInt),
    ("print", "(J)V", LibMethod::PrintLong),
    ("print", "(Ljava/lang/String;)V", LibMethod::PrintText),
    ("println", "()V", LibMethod::Println),
    ("println", "(Z)V", LibMethod::PrintlnBoolean),
    ("println", "(C)V", LibMethod::PrintlnChar),
    ("println", "(I)V", LibMethod::PrintlnInt),
    ("println", "(J)V", LibMethod::PrintlnLong),
    ("println", "(Ljava/lang/String;)V", LibMethod::PrintlnText),
];

fn rows_of(class: Builtin) -> &'static [(&'static str, &'static str, LibMethod)]
    ensures { map (λ r. row r.0.now r.1.now r.2) result.now ≡ rows_of class }
{
    match class {
        Builtin::Object => &OBJECT,
        Builtin::String => &STRING,
        Builtin::StringBuilder => &BUILDER,
        Builtin::Class => &CLASS,
        Builtin::PrintStream => &PRINT,
        Builtin::AssertionError => &ASSERTION,
        Builtin::System
        | Builtin::Comparable
        | Builtin::CharSequence
        | Builtin::Cloneable
        | Builtin::Serializable => &[],
        _ => &THROWABLE,
    }
}

/// The method of the first row with the name and the descriptor.
fn named(mut rows: &[(&str, &str, LibMethod)], name: &str, desc: &str) -> Option<LibMethod>
    ensures { result ≡ named (map (λ r. row r.0.now r.1.now r.2) rows.entry.now) name.now desc.now }
{
    while let [row, rest @ ..] = rows {
        if row.0 == name && row.1 == desc {
            return Some(row.2);
        }
        rows = rest;
    }
    None
}

/// The row of a method, by its class, name and descriptor.
pub fn find_row(method: &MethodId) -> Option<LibMethod>
    ensures found { IfSome result (λ row. IsRow method.now row) }
    ensures only { (row : LibMethod) → IsRow method.now row → result ≡ Some row }
{
    match find_class(&method.class) {
        Some(class) => named(rows_of(class), method.name.as_str(), method.desc.as_str()),
        None => None,
    }
}

impl Builtin {
    /// The row of the class itself with a name and a descriptor.
    pub fn row(self, name: &Name, desc: &Name) -> Option<LibMethod>
        ensures { result ≡ named (rows_of self) name.now desc.now }
    {
        named(rows_of(self), name.as_str(), desc.as_str())
    }
}
