// Classes by one line of text each, as a value: what the hierarchy looks at, and nothing else.
use cf_class::{ClassFile, Member, Named};
use cf_pool::Pool;
use hi_tree::Classes;
use jv_base::{List, MethodId, Name};
use std::process::Abort;

pub(crate) fn name_of<R: Abort + AllocGlobal>(rt: &R, text: &str) -> Name {
    Name::from_text(rt.alloc(), text).expect(rt, "memory")
}

fn named<R: Abort + AllocGlobal>(rt: &R, text: &str) -> Named {
    Named {
        index: 0,
        name: name_of(rt, text),
    }
}

/// The flag that a word stands for (JVM Specification SE 8, 4.1, 4.5 and 4.6).
fn flag_of(word: &str) -> u16 {
    match word {
        "public" => 0x0001,
        "private" => 0x0002,
        "protected" => 0x0004,
        "static" => 0x0008,
        "interface" => 0x0600,
        "abstract" => 0x0400,
        _ => 0,
    }
}

/// A name and a descriptor, as `name(..)..`; without a descriptor it is that of a method which gives an int.
pub(crate) fn method_of<R: Abort + AllocGlobal>(rt: &R, class: &str, text: &str) -> MethodId {
    let alloc = rt.alloc();
    let (name, rest) = text.split_once('(').unwrap_or((text, ")I"));
    let desc = format!(in alloc; "({rest}").expect(rt, "memory");
    MethodId {
        class: name_of(rt, class),
        name: name_of(rt, name),
        desc: Name::from_string(desc),
    }
}

/// The class and the method that a text names, as `class.name(..)..`.
pub(crate) fn reference<R: Abort + AllocGlobal>(rt: &R, text: &str) -> MethodId {
    let (class, method) = text.split_once('.').expect(rt, "a class and a method");
    method_of(rt, class, method)
}

fn push_member<R: Abort + AllocGlobal>(rt: &R, class: &mut ClassFile, text: &str) {
    let (words, signature) = text.rsplit_once('.').unwrap_or(("", text));
    let mut flags = 0;
    let mut is_field = false;
    for word in words.split('.') {
        flags |= flag_of(word);
        is_field = is_field || word == "field";
    }
    let signature = method_of(rt, "", signature);
    let member = Member {
        flags,
        name: Named {
            index: 0,
            name: signature.name,
        },
        desc: if is_field {
            named(rt, "I")
        } else {
            Named {
                index: 0,
                name: signature.desc,
            }
        },
        attributes: List::new(rt.alloc()),
    };
    if is_field {
        class.fields.add(member).expect(rt, "memory");
    } else {
        class.methods.add(member).expect(rt, "memory");
    }
}

/// A class of a kind, a superclass, superinterfaces and members.
pub(crate) fn class_of<R: Abort + AllocGlobal>(
    rt: &R,
    name: &str,
    kind: &str,
    superclass: &str,
    interfaces: &str,
    members: &str,
) -> ClassFile {
    let alloc = rt.alloc();
    let mut class = ClassFile {
        minor: 0,
        major: 52,
        pool: Pool {
            entries: List::new(alloc),
        },
        flags: flag_of(kind),
        this_class: named(rt, name),
        super_class: named(rt, superclass),
        interfaces: List::new(alloc),
        fields: List::new(alloc),
        methods: List::new(alloc),
        attributes: List::new(alloc),
    };
    for interface in interfaces.split_whitespace() {
        class
            .interfaces
            .add(named(rt, interface))
            .expect(rt, "memory");
    }
    for member in members.split_whitespace() {
        push_member(rt, &mut class, member);
    }
    class
}

/// The first cell of a row, and what stands behind its bar.
pub(crate) fn cell<'a, R: Abort>(rt: &R, row: &'a str) -> (&'a str, &'a str) {
    let (front, back) = row.split_once('|').expect(rt, "a row has its bars");
    (front.trim(), back.trim())
}

pub(crate) fn put<R: Abort + AllocGlobal>(rt: &R, classes: &mut Classes, class: ClassFile) {
    let there = classes.find(&class.this_class.name).is_some();
    assert!(rt; !there, "a class is there once");
    assert!(rt; classes.add(rt.alloc(), class).is_ok(), "memory");
}

/// Puts the class in that a row tells of: `KIND NAME | SUPERCLASS | SUPERINTERFACES | MEMBERS`.
pub(crate) fn put_row<R: Abort + AllocGlobal>(rt: &R, classes: &mut Classes, row: &str) {
    let (head, rest) = cell(rt, row);
    let (superclass, rest) = cell(rt, rest);
    let (interfaces, members) = cell(rt, rest);
    let (kind, name) = head.split_once(' ').expect(rt, "a kind and a name");
    put(
        rt,
        classes,
        class_of(rt, name, kind, superclass, interfaces, members),
    );
}
