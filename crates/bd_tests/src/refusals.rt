// What is refused of classes and of entries. Each class has the methods `m` with code, `s` static with code, and `n` native.
use crate::tables::rows;
use bd_refusals::{has_unsuited, is_circular, lacks_entry, suited_classes};
use cf_class::{Attribute, Body, ClassFile, Code, Member, Named};
use cf_pool::Pool;
use hi_tree::Classes;
use jv_base::{List, MethodId, Name};
use std::process::Abort;

// A kind, a name, a superclass, a superinterface, and whether the class has an unsuited supertype and is its own (JVM
// Specification SE 8, 4.1 and 5.3.5).
const CLASSES: &str = "
    class A | java/lang/Object | | no no
    interface I | java/lang/Object | | no no
    abstract K | A | I | no no
    class AboveInterface | I | | yes no
    class AboveBuiltinInterface | java/lang/Cloneable | | yes no
    class AboveString | java/lang/String | | yes no
    class AboveStream | java/io/PrintStream | | yes no
    class OfThrowable | java/lang/Throwable | | no no
    class OfError | java/lang/AssertionError | | no no
    class OfIndex | java/lang/StringIndexOutOfBoundsException | | no no
    class OfNumber | java/lang/NumberFormatException | | no no
    interface InterfaceOfClass | A | | yes no
    interface InterfaceOfThrowable | java/lang/Throwable | | yes no
    class WithClass | java/lang/Object | A | yes no
    class WithBuiltinClass | java/lang/Object | java/lang/Exception | yes no
    class WithBuiltin | java/lang/Object | java/lang/Comparable | no no
    class WithInterface | A | I | no no
    class AboveNothing | Nothing | | no no
    interface InterfaceOfNothing | Nothing | | no no
    class WithNothing | A | Nothing | no no
    class Own | Own | | no yes
    interface OwnInterface | java/lang/Object | OwnInterface | no yes
    class Left | Right | | no yes
    class Right | Left | | no yes
    class OverCircle | Left | | no no
    interface Up | java/lang/Object | Down | no yes
    interface Down | java/lang/Object | Up | no yes
";

// A class, a method, and whether runs cannot begin there.
const ENTRIES: &str = "
    A s no
    A m no
    A n yes
    A none yes
    I s no
    I m yes
    K s no
    K m yes
    K none yes
    Nothing s no
    java/lang/String length yes
    java/lang/Object none yes
";

fn name_of<R: Abort + AllocGlobal>(rt: &R, text: &str) -> Name {
    Name::from_text(rt.alloc(), text).expect(rt, "memory")
}

fn named<R: Abort + AllocGlobal>(rt: &R, text: &str) -> Named {
    Named {
        index: 0,
        name: name_of(rt, text),
    }
}

fn code<R: Abort + AllocGlobal>(rt: &R) -> Attribute {
    let alloc = rt.alloc();
    Attribute {
        name: named(rt, "Code"),
        body: Body::Code(Code {
            max_stack: 0,
            max_locals: 1,
            code: List::new(alloc),
            rows: List::new(alloc),
            attributes: List::new(alloc),
        }),
    }
}

fn method<R: Abort + AllocGlobal>(rt: &R, name: &str, flags: u16, has_code: bool) -> Member {
    let mut attributes = List::new(rt.alloc());
    if has_code {
        attributes.add(code(rt)).expect(rt, "memory");
    }
    Member {
        flags,
        name: named(rt, name),
        desc: named(rt, "()V"),
        attributes,
    }
}

fn methods<R: Abort + AllocGlobal>(rt: &R) -> List<Member> {
    let mut methods = List::new(rt.alloc());
    methods
        .add(method(rt, "m", 0x0001, true))
        .expect(rt, "memory");
    methods
        .add(method(rt, "s", 0x0009, true))
        .expect(rt, "memory");
    methods
        .add(method(rt, "n", 0x0101, false))
        .expect(rt, "memory");
    methods
}

fn flags_of(kind: &str) -> u16 {
    match kind {
        "interface" => 0x0200,
        "abstract" => 0x0400,
        _ => 0,
    }
}

fn class_of<R: Abort + AllocGlobal>(rt: &R, head: &str, above: &str, interface: &str) -> ClassFile {
    let alloc = rt.alloc();
    let (kind, name) = head.split_once(' ').expect(rt, "a kind and a name");
    let mut interfaces = List::new(alloc);
    if !interface.is_empty() {
        interfaces.add(named(rt, interface)).expect(rt, "memory");
    }
    ClassFile {
        minor: 0,
        major: 52,
        pool: Pool {
            entries: List::new(alloc),
        },
        flags: flags_of(kind),
        this_class: named(rt, name),
        super_class: named(rt, above),
        interfaces,
        fields: List::new(alloc),
        methods: methods(rt),
        attributes: List::new(alloc),
    }
}

/// The first cell of a row, and what stands behind its bar.
fn cell<'a, R: Abort>(rt: &R, row: &'a str) -> (&'a str, &'a str) {
    let (front, back) = row.split_once('|').expect(rt, "a row has its bars");
    (front.trim(), back.trim())
}

/// Puts the class of a row in; its name, and what is wanted of it.
fn put_row<'a, R: Abort + AllocGlobal>(
    rt: &R,
    classes: &mut Classes,
    row: &'a str,
) -> (&'a str, &'a str) {
    let (head, rest) = cell(rt, row);
    let (above, rest) = cell(rt, rest);
    let (interface, wanted) = cell(rt, rest);
    let class = class_of(rt, head, above, interface);
    let there = classes.find(&class.this_class.name).is_some();
    assert!(rt; !there, "a class is there once");
    assert!(rt; classes.add(rt.alloc(), class).is_ok(), "memory");
    let (_kind, name) = head.split_once(' ').expect(rt, "a kind and a name");
    (name, wanted)
}

fn word(yes: bool) -> &'static str {
    if yes { "yes" } else { "no" }
}

fn world<R: Abort + AllocGlobal>(rt: &R) -> Classes {
    let mut classes = Classes::new(rt.alloc());
    for row in rows(rt, CLASSES) {
        put_row(rt, &mut classes, row);
    }
    classes
}

#[test]
fn unsuited_supertypes_and_circles_are_found(rt: HostRuntime) {
    let alloc = rt.alloc();
    let classes = world(&rt);
    let mut other = Classes::new(alloc);
    for row in rows(&rt, CLASSES) {
        let (name, wanted) = put_row(&rt, &mut other, row);
        let name = name_of(&rt, name);
        let class = classes.find(&name).expect(&rt, "the class");
        let unsuited = word(has_unsuited(&classes, class));
        let circular = word(is_circular(alloc, &classes, &name).expect(&rt, "memory"));
        let told = format!(in alloc; "{unsuited} {circular}").expect(&rt, "memory");
        assert_eq!(&rt; told.as_str(), wanted, "{row}");
    }
}

#[test]
fn the_others_are_copied(rt: HostRuntime) {
    let alloc = rt.alloc();
    let classes = world(&rt);
    let mut names = Vec::new(alloc);
    let mut other = Classes::new(alloc);
    for row in rows(&rt, CLASSES) {
        let (name, _wanted) = put_row(&rt, &mut other, row);
        names.push(name_of(&rt, name)).expect(&rt, "memory");
    }
    let suited = suited_classes(alloc, &classes, names.as_slice()).expect(&rt, "memory");
    for row in rows(&rt, CLASSES) {
        let (head, rest) = cell(&rt, row);
        let (_kind, name) = head.split_once(' ').expect(&rt, "a kind and a name");
        let is_there = suited.find(&name_of(&rt, name)).is_some();
        assert_eq!(&rt; is_there, rest.ends_with("no no"), "{row}");
    }
}

#[test]
fn runs_begin_at_methods_with_code(rt: HostRuntime) {
    let classes = world(&rt);
    for row in rows(&rt, ENTRIES) {
        let (class, rest) = row.split_once(' ').expect(&rt, "a class");
        let (name, wanted) = rest.split_once(' ').expect(&rt, "a method");
        let entry = MethodId {
            class: name_of(&rt, class),
            name: name_of(&rt, name),
            desc: name_of(&rt, "()V"),
        };
        let told = word(lacks_entry(&classes, &entry));
        assert_eq!(&rt; told, wanted, "{row}");
    }
}
