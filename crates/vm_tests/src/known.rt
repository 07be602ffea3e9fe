// The built-in classes and the rows, against tables that were written from the documentation of the JDK.
use crate::tables::{cell, rows};
use jv_base::{Kind, MethodId, Name};
use lib_rows::{Builtin, LibMethod, class_rules, find_class, find_row, one_row};
use std::fmt::Write;
use std::process::Abort;

/// A class, its superclass, its superinterfaces in order, and which of the two it is.
const CLASSES: &str = "
    java/lang/Object | none |  | class
    java/lang/String | java/lang/Object | java/io/Serializable java/lang/Comparable java/lang/CharSequence | class
    java/lang/StringBuilder | java/lang/Object | java/io/Serializable java/lang/CharSequence | class
    java/lang/Class | java/lang/Object | java/io/Serializable | class
    java/lang/System | java/lang/Object |  | class
    java/io/PrintStream | java/lang/Object |  | class
    java/lang/Throwable | java/lang/Object | java/io/Serializable | class
    java/lang/Exception | java/lang/Throwable |  | class
    java/lang/Error | java/lang/Throwable |  | class
    java/lang/RuntimeException | java/lang/Exception |  | class
    java/lang/AssertionError | java/lang/Error |  | class
    java/lang/ArithmeticException | java/lang/RuntimeException |  | class
    java/lang/ArrayStoreException | java/lang/RuntimeException |  | class
    java/lang/ClassCastException | java/lang/RuntimeException |  | class
    java/lang/IllegalArgumentException | java/lang/RuntimeException |  | class
    java/lang/IllegalStateException | java/lang/RuntimeException |  | class
    java/lang/IndexOutOfBoundsException | java/lang/RuntimeException |  | class
    java/lang/NegativeArraySizeException | java/lang/RuntimeException |  | class
    java/lang/NullPointerException | java/lang/RuntimeException |  | class
    java/lang/UnsupportedOperationException | java/lang/RuntimeException |  | class
    java/lang/ArrayIndexOutOfBoundsException | java/lang/IndexOutOfBoundsException |  | class
    java/lang/StringIndexOutOfBoundsException | java/lang/IndexOutOfBoundsException |  | class
    java/lang/NumberFormatException | java/lang/IllegalArgumentException |  | class
    java/lang/Comparable | java/lang/Object |  | interface
    java/lang/CharSequence | java/lang/Object |  | interface
    java/lang/Cloneable | java/lang/Object |  | interface
    java/io/Serializable | java/lang/Object |  | interface
    java/lang/Integer | unknown | |
    java/lang/object | unknown | |
    java/lang | unknown | |
    Object | unknown | |
    java.lang.Object | unknown | |
    Ljava/lang/Object; | unknown | |
    [Ljava/lang/Object; | unknown | |
    java/io/Comparable | unknown | |
    java/lang/Serializable | unknown | |
     | unknown | |
";

/// A class, a name, a descriptor, the row, and whether it is static, raises null for its argument and has an index.
const ROWS: &str = "
    java/lang/Object | <init> | ()V | ObjectInit |
    java/lang/Object | equals | (Ljava/lang/Object;)Z | ObjectEquals |
    java/lang/Throwable | <init> | ()V | ThrowableInit |
    java/lang/Exception | <init> | ()V | ThrowableInit |
    java/lang/Error | <init> | ()V | ThrowableInit |
    java/lang/RuntimeException | <init> | ()V | ThrowableInit |
    java/lang/ArithmeticException | <init> | ()V | ThrowableInit |
    java/lang/ArrayStoreException | <init> | ()V | ThrowableInit |
    java/lang/ClassCastException | <init> | ()V | ThrowableInit |
    java/lang/IllegalArgumentException | <init> | ()V | ThrowableInit |
    java/lang/IllegalStateException | <init> | ()V | ThrowableInit |
    java/lang/IndexOutOfBoundsException | <init> | ()V | ThrowableInit |
    java/lang/NegativeArraySizeException | <init> | ()V | ThrowableInit |
    java/lang/NullPointerException | <init> | ()V | ThrowableInit |
    java/lang/UnsupportedOperationException | <init> | ()V | ThrowableInit |
    java/lang/ArrayIndexOutOfBoundsException | <init> | ()V | ThrowableInit |
    java/lang/StringIndexOutOfBoundsException | <init> | ()V | ThrowableInit |
    java/lang/NumberFormatException | <init> | ()V | ThrowableInit |
    java/lang/Throwable | <init> | (Ljava/lang/String;)V | ThrowableInitText |
    java/lang/Exception | <init> | (Ljava/lang/String;)V | ThrowableInitText |
    java/lang/Error | <init> | (Ljava/lang/String;)V | ThrowableInitText |
    java/lang/RuntimeException | <init> | (Ljava/lang/String;)V | ThrowableInitText |
    java/lang/ArithmeticException | <init> | (Ljava/lang/String;)V | ThrowableInitText |
    java/lang/ArrayStoreException | <init> | (Ljava/lang/String;)V | ThrowableInitText |
    java/lang/ClassCastException | <init> | (Ljava/lang/String;)V | ThrowableInitText |
    java/lang/IllegalArgumentException | <init> | (Ljava/lang/String;)V | ThrowableInitText |
    java/lang/IllegalStateException | <init> | (Ljava/lang/String;)V | ThrowableInitText |
    java/lang/IndexOutOfBoundsException | <init> | (Ljava/lang/String;)V | ThrowableInitText |
    java/lang/NegativeArraySizeException | <init> | (Ljava/lang/String;)V | ThrowableInitText |
    java/lang/NullPointerException | <init> | (Ljava/lang/String;)V | ThrowableInitText |
    java/lang/UnsupportedOperationException | <init> | (Ljava/lang/String;)V | ThrowableInitText |
    java/lang/ArrayIndexOutOfBoundsException | <init> | (Ljava/lang/String;)V | ThrowableInitText |
    java/lang/StringIndexOutOfBoundsException | <init> | (Ljava/lang/String;)V | ThrowableInitText |
    java/lang/NumberFormatException | <init> | (Ljava/lang/String;)V | ThrowableInitText |
    java/lang/AssertionError | <init> | ()V | AssertionInit |
    java/lang/AssertionError | <init> | (Ljava/lang/Object;)V | AssertionInitObject |
    java/lang/AssertionError | <init> | (Z)V | AssertionInitBoolean |
    java/lang/AssertionError | <init> | (C)V | AssertionInitChar |
    java/lang/AssertionError | <init> | (I)V | AssertionInitInt |
    java/lang/AssertionError | <init> | (J)V | AssertionInitLong |
    java/lang/String | length | ()I | StringLength |
    java/lang/String | isEmpty | ()Z | StringIsEmpty |
    java/lang/String | charAt | (I)C | StringCharAt | index
    java/lang/String | substring | (I)Ljava/lang/String; | StringTail | index
    java/lang/String | substring | (II)Ljava/lang/String; | StringSubstring | index
    java/lang/String | concat | (Ljava/lang/String;)Ljava/lang/String; | StringConcat | null
    java/lang/String | equals | (Ljava/lang/Object;)Z | StringEquals |
    java/lang/String | startsWith | (Ljava/lang/String;)Z | StringStartsWith | null
    java/lang/String | endsWith | (Ljava/lang/String;)Z | StringEndsWith | null
    java/lang/String | indexOf | (I)I | StringIndexOf |
    java/lang/String | compareTo | (Ljava/lang/String;)I | StringCompareTo | null
    java/lang/String | valueOf | (I)Ljava/lang/String; | StringOfInt | static
    java/lang/String | valueOf | (C)Ljava/lang/String; | StringOfChar | static
    java/lang/String | valueOf | (Z)Ljava/lang/String; | StringOfBoolean | static
    java/lang/StringBuilder | <init> | ()V | BuilderInit |
    java/lang/StringBuilder | <init> | (Ljava/lang/String;)V | BuilderInitText | null
    java/lang/StringBuilder | append | (Ljava/lang/String;)Ljava/lang/StringBuilder; | BuilderAppendText |
    java/lang/StringBuilder | append | (C)Ljava/lang/StringBuilder; | BuilderAppendChar |
    java/lang/StringBuilder | append | (I)Ljava/lang/StringBuilder; | BuilderAppendInt |
    java/lang/StringBuilder | append | (Z)Ljava/lang/StringBuilder; | BuilderAppendBoolean |
    java/lang/StringBuilder | toString | ()Ljava/lang/String; | BuilderToString |
    java/lang/StringBuilder | length | ()I | BuilderLength |
    java/lang/StringBuilder | charAt | (I)C | BuilderCharAt | index
    java/lang/Class | desiredAssertionStatus | ()Z | ClassDesiredAssertionStatus |
    java/io/PrintStream | print | (Z)V | PrintBoolean |
    java/io/PrintStream | print | (C)V | PrintChar |
    java/io/PrintStream | print | (I)V | PrintInt |
    java/io/PrintStream | print | (J)V | PrintLong |
    java/io/PrintStream | print | (Ljava/lang/String;)V | PrintText |
    java/io/PrintStream | println | ()V | Println |
    java/io/PrintStream | println | (Z)V | PrintlnBoolean |
    java/io/PrintStream | println | (C)V | PrintlnChar |
    java/io/PrintStream | println | (I)V | PrintlnInt |
    java/io/PrintStream | println | (J)V | PrintlnLong |
    java/io/PrintStream | println | (Ljava/lang/String;)V | PrintlnText |
    java/lang/Object | hashCode | ()I | none |
    java/lang/Object | <init> | (I)V | none |
    java/lang/AssertionError | <init> | (Ljava/lang/String;)V | none |
    java/lang/Throwable | getMessage | ()Ljava/lang/String; | none |
    java/lang/String | length | ()J | none |
    java/lang/String | size | ()I | none |
    java/lang/String | indexOf | (Ljava/lang/String;)I | none |
    java/lang/String | valueOf | (J)Ljava/lang/String; | none |
    java/lang/String | <init> | ()V | none |
    java/lang/StringBuilder | append | (J)Ljava/lang/StringBuilder; | none |
    java/lang/StringBuilder | equals | (Ljava/lang/Object;)Z | none |
    java/lang/System | exit | (I)V | none |
    java/lang/Comparable | compareTo | (Ljava/lang/Object;)I | none |
    java/lang/CharSequence | length | ()I | none |
    java/lang/Integer | <init> | (I)V | none |
    java/lang/Strin | length | ()I | none |
    java/lang/Stringx | length | ()I | none |
     |  |  | none |
";

fn name<R: Abort + AllocGlobal>(rt: &R, text: &str) -> Name {
    Name::from_text(rt.alloc(), text).expect(rt, "memory")
}

pub(crate) fn row_of<R: Abort + AllocGlobal>(
    rt: &R,
    class: &str,
    method: &str,
    desc: &str,
) -> Option<LibMethod> {
    find_row(&MethodId {
        class: name(rt, class),
        name: name(rt, method),
        desc: name(rt, desc),
    })
}

fn interfaces_of<R: Abort + AllocGlobal>(rt: &R, class: Builtin) -> String {
    let mut text = String::new(rt.alloc());
    for interface in class.superinterfaces() {
        if !text.is_empty() {
            text.push(' ').expect(rt, "memory");
        }
        text.push_str(interface.name()).expect(rt, "memory");
    }
    text
}

#[test]
fn the_built_in_classes_are_those_of_the_table(rt: HostRuntime) {
    for line in &rows(&rt, CLASSES) {
        let (class, rest) = cell(&rt, line);
        let (superclass, rest) = cell(&rt, rest);
        let (interfaces, kind) = cell(&rt, rest);
        match find_class(&name(&rt, class)) {
            Some(found) => {
                assert!(rt; found.name() == class, "{line}");
                let above = found.superclass().map_or("none", Builtin::name);
                assert!(rt; above == superclass, "{line}");
                assert!(rt; interfaces_of(&rt, found).as_str() == interfaces, "{line}");
                assert!(rt; found.is_interface() == (kind == "interface"), "{line}");
            }
            None => assert!(rt; superclass == "unknown", "{line}"),
        }
    }
    class_rules();
}

// What a row tells of itself, a word each.
fn facts_of<R: Abort + AllocGlobal>(rt: &R, row: LibMethod) -> String {
    let mut facts = String::new(rt.alloc());
    if row.is_static() {
        facts.push_str("static ").expect(rt, "memory");
    }
    if row.null_argument() == Some(Kind::Null) {
        facts.push_str("null ").expect(rt, "memory");
    }
    if row.has_index() {
        facts.push_str("index ").expect(rt, "memory");
    }
    facts
}

#[test]
fn the_rows_are_those_of_the_table(rt: HostRuntime) {
    let mut printed = String::new(rt.alloc());
    for line in &rows(&rt, ROWS) {
        let (class, rest) = cell(&rt, line);
        let (method, rest) = cell(&rt, rest);
        let (desc, rest) = cell(&rt, rest);
        let (wanted, facts) = cell(&rt, rest);
        printed.clear();
        match row_of(&rt, class, method, desc) {
            Some(row) => {
                write!(printed, "{row:?}").expect(&rt, "memory");
                assert!(rt; facts_of(&rt, row).as_str().trim() == facts, "{line}");
            }
            None => printed.push_str("none").expect(&rt, "memory"),
        }
        assert!(rt; printed.as_str() == wanted, "{line}");
        if let Some(found) = find_class(&name(&rt, class)) {
            let row = found.row(&name(&rt, method), &name(&rt, desc));
            assert!(rt; row == row_of(&rt, class, method, desc), "{line}");
        }
    }
    one_row();
}
