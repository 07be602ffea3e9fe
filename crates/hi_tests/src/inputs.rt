// Which types stand in the inputs of entry methods. A class has a row `KIND NAME | SUPERCLASS | FIELDS | METHODS`, each
// field by its descriptor, behind `static:` where it is static, and each method as name and descriptor, so too. A question
// is the entry and the depth; behind its bar are the types, as descriptors. Behind `classes` it has the classes of the
// objects, in order.
use crate::worlds::{cell, class_of, name_of, put, reference};
use cf_class::{ClassFile, Member, Named};
use hi_inputs::{input_classes, input_types, is_made};
use hi_tree::Classes;
use jv_base::{List, field_type_text};
use std::process::Abort;

const CASES: &str = "
    world arguments alone
    class A | java/lang/Object | I J | run()V static:make(II[ZLA;)V static:odd( static:two(LA;LA;)V
    A.run()V 0 |
    A.run()V 1 | LA;
    A.run()V 2 | LA; I J
    A.make(II[ZLA;)V 0 |
    A.make(II[ZLA;)V 1 | I [Z LA;
    A.make(II[ZLA;)V 2 | I [Z LA; Z J
    A.two(LA;LA;)V 1 | LA;
    A.lost(D)V 1 | D
    B.lost(D)V 1 | D
    A.odd( 3 |

    world fields of superclasses, and none that are static
    class Base | java/lang/Object | [[F static:D |
    class Node | Base | LNode; LShape; static:S | static:f(LNode;)V
    abstract Shape | java/lang/Object | B |
    interface Face | java/lang/Object | static:C |
    Node.f(LNode;)V 1 | LNode;
    Node.f(LNode;)V 2 | LNode; LShape; [[F
    Node.f(LNode;)V 3 | LNode; LShape; [[F [F
    Node.f(LNode;)V 4 | LNode; LShape; [[F [F F
    Node.f(LNode;)V 255 | LNode; LShape; [[F [F F
    Node.g([LFace;)V 3 | [LFace; LFace;
    Node.g(Ljava/lang/String;LLost;)V 3 | Ljava/lang/String; LLost;
    classes Node.f(LNode;)V 1 | Node
    classes Node.f(LNode;)V 2 | Node
    classes Node.f(LNode;LBase;LShape;)V 1 | Base Node
    classes Node.g([LNode;)V 1 |
    classes Node.g([LNode;Ljava/lang/String;LLost;)V 2 | Node
    made Node | yes
    made Base | yes
    made Shape | no
    made Face | no
    made Lost | no
    made java/lang/Object | no

    world circular and lost superclasses, and a class file of a built-in name
    class A | B | LC; |
    class B | A | I |
    class C | Lost | J |
    class java/lang/String | A | D | run()V
    A.f(LA;)V 2 | LA; LC; I
    A.f(LA;)V 3 | LA; LC; I J
    java/lang/String.run()V 3 | Ljava/lang/String;
    classes A.f(LA;)V 2 | A C
    classes A.f(LB;LC;)V 1 | B C
    classes A.f(LC;LB;)V 2 | B C
    made java/lang/String | no
    made C | yes
";

fn member_of<R: Abort + AllocGlobal>(rt: &R, text: &str, name: &str, desc: &str) -> Member {
    Member {
        flags: if text.starts_with("static:") {
            0x0008
        } else {
            0
        },
        name: Named {
            index: 0,
            name: name_of(rt, name),
        },
        desc: Named {
            index: 0,
            name: name_of(rt, desc),
        },
        attributes: List::new(rt.alloc()),
    }
}

fn put_members<R: Abort + AllocGlobal>(rt: &R, class: &mut ClassFile, fields: &str, methods: &str) {
    for text in fields.split_whitespace() {
        let (_, desc) = text.split_once(':').unwrap_or(("", text));
        let field = member_of(rt, text, "f", desc);
        class.fields.add(field).expect(rt, "memory");
    }
    for text in methods.split_whitespace() {
        let (_, signature) = text.split_once(':').unwrap_or(("", text));
        let (name, rest) = signature.split_once('(').expect(rt, "a descriptor");
        let desc = format!(in rt.alloc(); "({rest}").expect(rt, "memory");
        let method = member_of(rt, text, name, desc.as_str());
        class.methods.add(method).expect(rt, "memory");
    }
}

fn put_class<R: Abort + AllocGlobal>(rt: &R, classes: &mut Classes, row: &str) {
    let (head, rest) = cell(rt, row);
    let (superclass, rest) = cell(rt, rest);
    let (fields, methods) = cell(rt, rest);
    let (kind, name) = head.split_once(' ').expect(rt, "a kind and a name");
    let mut class = class_of(rt, name, kind, superclass, "", "");
    put_members(rt, &mut class, fields, methods);
    put(rt, classes, class);
}

fn is_class_row(row: &str) -> bool {
    row.starts_with("class ") || row.starts_with("interface ") || row.starts_with("abstract ")
}

/// Whether the types are exactly those of a cell.
fn are_types<R: Abort + AllocGlobal>(
    rt: &R,
    classes: &Classes,
    question: &str,
    expected: &str,
) -> bool {
    let (entry, depth) = question.split_once(' ').expect(rt, "an entry and a depth");
    let depth: u8 = depth.parse().expect(rt, "a depth");
    let types = input_types(rt.alloc(), classes, &reference(rt, entry), depth);
    let types = types.expect(rt, "memory");
    for ty in types.as_slice() {
        let text = field_type_text(rt.alloc(), ty).expect(rt, "memory");
        let mut is_expected = false;
        for one in expected.split_whitespace() {
            is_expected = is_expected || one == text.as_str();
        }
        if !is_expected {
            return false;
        }
    }
    types.length() == expected.split_whitespace().count()
}

/// Whether the classes are those of a cell, in its order.
fn are_classes<R: Abort + AllocGlobal>(
    rt: &R,
    classes: &Classes,
    question: &str,
    expected: &str,
) -> bool {
    let (entry, depth) = question.split_once(' ').expect(rt, "an entry and a depth");
    let depth: u8 = depth.parse().expect(rt, "a depth");
    let names = input_classes(rt.alloc(), classes, &reference(rt, entry), depth);
    let names = names.expect(rt, "memory");
    let mut told = String::new(rt.alloc());
    for name in names.as_slice() {
        if !told.is_empty() {
            told.push(' ').expect(rt, "memory");
        }
        told.push_str(name.as_str()).expect(rt, "memory");
    }
    told.as_str() == expected
}

fn is_answer<R: Abort + AllocGlobal>(
    rt: &R,
    classes: &Classes,
    question: &str,
    expected: &str,
) -> bool {
    if let Some(name) = question.strip_prefix("made ") {
        return is_made(classes, &name_of(rt, name)) == (expected == "yes");
    }
    match question.strip_prefix("classes ") {
        Some(question) => are_classes(rt, classes, question, expected),
        None => are_types(rt, classes, question, expected),
    }
}

#[test]
fn inputs_have_types_as_deep_as_is_asked(rt: HostRuntime) {
    let mut classes = Classes::new(rt.alloc());
    for line in CASES.lines() {
        let row = line.trim();
        if row.starts_with("world ") {
            classes = Classes::new(rt.alloc());
        } else if is_class_row(row) {
            put_class(&rt, &mut classes, row);
        } else if !row.is_empty() {
            let (question, expected) = cell(&rt, row);
            assert!(&rt; is_answer(&rt, &classes, question, expected), "{row}");
        }
    }
}

/// Each class extends the one before it, and has a field of its type.
fn chain<R: Abort + AllocGlobal>(rt: &R, count: u32) -> Classes {
    let alloc = rt.alloc();
    let mut classes = Classes::new(alloc);
    for number in 1..count {
        let name = format!(in alloc; "C{number}").expect(rt, "memory");
        let above = format!(in alloc; "C{}", number - 1).expect(rt, "memory");
        let field = format!(in alloc; "LC{};", number - 1).expect(rt, "memory");
        let mut class = class_of(rt, name.as_str(), "class", above.as_str(), "", "");
        put_members(rt, &mut class, field.as_str(), "");
        put(rt, &mut classes, class);
    }
    classes
}

#[test]
fn a_chain_of_classes_has_a_type_for_each(rt: HostRuntime) {
    let classes = chain(&rt, 2_000);
    let entry = reference(&rt, "C0.f(LC1999;)V");
    let types = input_types(rt.alloc(), &classes, &entry, 2).expect(&rt, "memory");
    assert_eq!(&rt; types.length(), 2_000, "the argument, and a field of each");
    let names = input_classes(rt.alloc(), &classes, &entry, 2).expect(&rt, "memory");
    assert_eq!(&rt;
        names.length(),
        1_999,
        "all but the first, which was not read"
    );
}

#[test]
fn types_that_were_met_are_not_followed_again(rt: HostRuntime) {
    let classes = chain(&rt, 100);
    let entry = reference(&rt, "C0.f(LC99;)V");
    let types = input_types(rt.alloc(), &classes, &entry, 255).expect(&rt, "memory");
    assert_eq!(&rt; types.length(), 100, "no more types are there");
}
