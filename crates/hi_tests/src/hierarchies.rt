// Questions to hierarchies, against the answers of a Java virtual machine.
use crate::cases::CASES;
use crate::names::NAMES;
use crate::worlds::{cell, name_of, put_row, reference};
use hi_tree::{Classes, TreeFault, Up, has_flag};
use jv_base::{FieldId, MethodId, Ty, read_field_type};
use std::process::Abort;

fn copied<R: Abort + AllocGlobal>(rt: &R, text: &str) -> String {
    String::from_str(rt.alloc(), text).expect(rt, "memory")
}

fn fault_text<R: Abort + AllocGlobal>(rt: &R, fault: &TreeFault) -> String {
    match fault {
        TreeFault::NotLoaded(name) => {
            format!(in rt.alloc(); "not loaded {}", name.as_str()).expect(rt, "memory")
        }
        TreeFault::NoSuch => copied(rt, "none"),
        TreeFault::Ambiguous => copied(rt, "ambiguous"),
        TreeFault::Circular => copied(rt, "circular"),
        TreeFault::NoMemory => copied(rt, "no memory"),
    }
}

/// The class of the method that is answered, or the fault. Name and descriptor are those that were asked for.
fn answer_text<R: Abort + AllocGlobal>(
    rt: &R,
    asked: &MethodId,
    answer: Result<MethodId, TreeFault>,
) -> String {
    match answer {
        Ok(method) => {
            assert!(rt;
                method.name == asked.name && method.desc == asked.desc,
                "the same method"
            );
            copied(rt, method.class.as_str())
        }
        Err(fault) => fault_text(rt, &fault),
    }
}

fn resolved<R: Abort + AllocGlobal>(rt: &R, classes: &Classes, question: &str) -> String {
    let (kind, method) = question.split_once(' ').expect(rt, "a kind and a method");
    let at = reference(rt, method);
    answer_text(
        rt,
        &at,
        classes.resolve(rt.alloc(), &at, kind == "interface"),
    )
}

fn selected<R: Abort + AllocGlobal>(rt: &R, classes: &Classes, question: &str) -> String {
    let (class, method) = question.split_once(' ').expect(rt, "a class and a method");
    let at = reference(rt, method);
    answer_text(
        rt,
        &at,
        classes.select(rt.alloc(), &name_of(rt, class), &at),
    )
}

fn special<R: Abort + AllocGlobal>(rt: &R, classes: &Classes, question: &str) -> String {
    let (caller, rest) = question.split_once(' ').expect(rt, "a caller");
    let (kind, method) = rest.split_once(' ').expect(rt, "a kind and a method");
    let at = reference(rt, method);
    let caller = name_of(rt, caller);
    answer_text(
        rt,
        &at,
        classes.special(rt.alloc(), &caller, &at, kind == "interface"),
    )
}

/// The names directly above a class, with a space between two.
fn above<R: Abort + AllocGlobal>(rt: &R, classes: &Classes, class: &str, up: Up) -> String {
    let names = classes
        .names_above(rt.alloc(), &name_of(rt, class), up)
        .expect(rt, "memory");
    let mut text = String::new(rt.alloc());
    for name in names.iter() {
        if !text.is_empty() {
            text.push(' ').expect(rt, "memory");
        }
        text.push_str(name.as_str()).expect(rt, "memory");
    }
    text
}

/// What the class file of a name says that it is, if one alone makes the class known.
fn read<R: Abort + AllocGlobal>(rt: &R, classes: &Classes, class: &str) -> String {
    let name = name_of(rt, class);
    match classes.read(&name) {
        Some(file) => {
            assert!(rt; file.this_class.name == name, "the class of the name");
            let is_interface = has_flag(file.flags, 0x0200);
            copied(rt, if is_interface { "interface" } else { "class" })
        }
        None => copied(rt, "none"),
    }
}

fn field<R: Abort + AllocGlobal>(rt: &R, classes: &Classes, question: &str) -> String {
    let (class, name) = question.split_once('.').expect(rt, "a class and a field");
    let (name, desc) = name.split_once(':').unwrap_or((name, "I"));
    let at = FieldId {
        class: name_of(rt, class),
        name: name_of(rt, name),
        desc: name_of(rt, desc),
    };
    match classes.field(rt.alloc(), &at) {
        Ok(field) => {
            assert!(rt;
                field.name == at.name && field.desc == at.desc,
                "the same field"
            );
            copied(rt, field.class.as_str())
        }
        Err(fault) => fault_text(rt, &fault),
    }
}

fn subtype<R: Abort + AllocGlobal>(rt: &R, classes: &Classes, question: &str) -> String {
    let (a, b) = question.split_once(' ').expect(rt, "two types");
    match classes.subtype(rt.alloc(), &type_of(rt, a), &type_of(rt, b)) {
        Ok(yes) => copied(rt, if yes { "yes" } else { "no" }),
        Err(fault) => fault_text(rt, &fault),
    }
}

/// A type, as descriptors write it.
fn type_of<R: Abort + AllocGlobal>(rt: &R, text: &str) -> Ty {
    match read_field_type(rt.alloc(), &name_of(rt, text)) {
        Ok(ty) => ty,
        Err(_) => rt.abort(),
    }
}

fn answer<R: Abort + AllocGlobal>(rt: &R, classes: &Classes, question: &str) -> String {
    let (call, rest) = question.split_once(' ').expect(rt, "a call");
    match call {
        "resolve" => resolved(rt, classes, rest),
        "select" => selected(rt, classes, rest),
        "field" => field(rt, classes, rest),
        "special" => special(rt, classes, rest),
        "above" => above(rt, classes, rest, Up::Supertypes),
        "super" => above(rt, classes, rest, Up::Superclasses),
        "read" => read(rt, classes, rest),
        _ => subtype(rt, classes, rest),
    }
}

fn is_class_row(row: &str) -> bool {
    row.starts_with("class ") || row.starts_with("interface ") || row.starts_with("abstract ")
}

/// Whether an answer is one of those that a cell has, with `or` between them.
fn is_among(told: &str, cell: &str) -> bool {
    let (expected, _) = cell.split_once('|').unwrap_or((cell, ""));
    for one in expected.split(" or ") {
        if one.trim() == told {
            return true;
        }
    }
    false
}

/// Asks the questions of a table.
pub(crate) fn compare<R: Abort + AllocGlobal>(rt: &R, table: &str) {
    let mut classes = Classes::new(rt.alloc());
    for line in table.lines() {
        let row = line.trim();
        if row.starts_with("world ") {
            classes = Classes::new(rt.alloc());
        } else if is_class_row(row) {
            put_row(rt, &mut classes, row);
        } else if !row.is_empty() {
            let (question, expected) = cell(rt, row);
            let told = answer(rt, &classes, question);
            assert!(rt;
                is_among(told.as_str(), expected),
                "{row}: {}",
                told.as_str()
            );
        }
    }
}

#[test]
fn the_answers_are_those_of_a_virtual_machine(rt: HostRuntime) {
    compare(&rt, CASES);
}

#[test]
fn names_are_known_and_stand_above(rt: HostRuntime) {
    compare(&rt, NAMES);
}
