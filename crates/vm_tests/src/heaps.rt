// Heaps and their objects: what is read and stored, one command after another.
use crate::tables::{cell, number_of, place_of, printed, rows, text_of};
use jv_base::{FieldId, List, Name, TryCopy, Value};
use st_text::Text;
use std::process::Abort;
use vm_world::{
    Fields, Heap, Object, Slot, TextKind, field_laws, heap_laws, is_same_field, one_start,
};

fn name<R: Abort + AllocGlobal>(rt: &R, text: &str) -> Name {
    Name::from_text(rt.alloc(), text).expect(rt, "memory")
}

fn field<R: Abort + AllocGlobal>(rt: &R, class: &str, field: &str) -> FieldId {
    FieldId {
        class: name(rt, class),
        name: name(rt, field),
        desc: name(rt, "I"),
    }
}

fn slot<R: Abort + AllocGlobal>(rt: &R, class: &str, text: &str, value: Value) -> Slot {
    Slot {
        field: field(rt, class, text),
        value,
    }
}

// 1 is a T with the fields T.a, S.a and T.b, 2 an array of three ints, 3 the String "ab", 4 the StringBuilder "x".
fn four_objects<R: Abort + AllocGlobal>(rt: &R) -> Heap {
    let alloc = rt.alloc();
    let mut fields = Fields::new(alloc);
    fields
        .add(slot(rt, "T", "a", Value::Int(1)))
        .expect(rt, "memory");
    fields
        .add(slot(rt, "S", "a", Value::Int(2)))
        .expect(rt, "memory");
    fields
        .add(slot(rt, "T", "b", Value::Int(3)))
        .expect(rt, "memory");
    let ints = [Value::Int(10), Value::Int(20), Value::Int(30)];
    let elements = List::copied(alloc, &ints).expect(rt, "memory");
    let mut heap = Heap::new(alloc);
    let objects = [
        Object::Instance(name(rt, "T"), fields),
        Object::Array(name(rt, "I"), elements),
        Object::Text(TextKind::Str, text_of(rt, "0061 0062")),
        Object::Text(TextKind::Builder, text_of(rt, "0078")),
    ];
    let mut next = 1;
    for object in objects {
        let number = heap.make(object).expect(rt, "memory");
        assert_eq!(rt; number, next);
        next = number.wrapping_add(1);
    }
    heap
}

fn shown<R: Abort + AllocGlobal>(rt: &R, value: Option<Value>) -> String {
    match value {
        Some(Value::Int(number)) => format!(in rt.alloc(); "{number}"),
        Some(_) => format!(in rt.alloc(); "no int"),
        None => format!(in rt.alloc(); "-"),
    }
    .expect(rt, "memory")
}

fn shown_text<R: Abort + AllocGlobal>(rt: &R, text: Option<&Text>) -> String {
    match text {
        Some(text) => printed(rt, text),
        None => format!(in rt.alloc(); "-").expect(rt, "memory"),
    }
}

fn shown_test<R: Abort + AllocGlobal>(rt: &R, test: bool) -> String {
    format!(in rt.alloc(); "{test}").expect(rt, "memory")
}

// One command, and what it answers.
fn answer<R: Abort + AllocGlobal>(rt: &R, heap: &mut Heap, row: &str) -> String {
    let (command, rest) = cell(rt, row);
    let (number, rest) = cell(rt, rest);
    let (at, value) = cell(rt, rest);
    let number = u64::from(place_of(rt, number));
    match command {
        "field" => {
            let (class, of) = at.split_once('.').expect(rt, "a class");
            shown(rt, heap.field(number, &field(rt, class, of)))
        }
        "element" => shown(rt, heap.element(number, place_of(rt, at))),
        "text" => shown_text(rt, heap.text(number)),
        "put field" => {
            let (class, of) = at.split_once('.').expect(rt, "a class");
            let value = Value::Int(number_of(rt, value));
            shown_test(rt, heap.put_field(number, &field(rt, class, of), value))
        }
        "put element" => {
            let value = Value::Int(number_of(rt, value));
            shown_test(rt, heap.put_element(number, place_of(rt, at), value))
        }
        _ => shown_test(rt, heap.put_text(number, text_of(rt, value))),
    }
}

// What it answers, and a command: what it does, the number of the object, a place in it, and a value.
const COMMANDS: &str = "
    1 | field | 1 | T.a |
    2 | field | 1 | S.a |
    3 | field | 1 | T.b |
    - | field | 1 | S.b |
    - | field | 2 | T.a |
    - | field | 0 | T.a |
    - | field | 5 | T.a |
    10 | element | 2 | 0 |
    30 | element | 2 | 2 |
    - | element | 2 | 3 |
    - | element | 1 | 0 |
    - | element | 0 | 0 |
    0061 0062 | text | 3 | |
    0078 | text | 4 | |
    - | text | 2 | |
    - | text | 0 | |
    // Stores into one of two fields of one name.
    true | put field | 1 | S.a | 7
    1 | field | 1 | T.a |
    7 | field | 1 | S.a |
    3 | field | 1 | T.b |
    // Stores at edges.
    true | put element | 2 | 0 | -1
    true | put element | 2 | 2 | 9
    -1 | element | 2 | 0 |
    20 | element | 2 | 1 |
    9 | element | 2 | 2 |
    true | put text | 4 | | 0078 0079
    0061 0062 | text | 3 | |
    0078 0079 | text | 4 | |
    // Stores that find no place change nothing.
    false | put field | 1 | S.b | 5
    false | put field | 2 | T.a | 5
    false | put field | 0 | T.a | 5
    false | put field | 5 | T.a | 5
    false | put element | 2 | 3 | 5
    false | put element | 1 | 0 | 5
    false | put element | 0 | 0 | 5
    false | put element | 5 | 0 | 5
    false | put text | 1 | | 0000
    false | put text | 0 | | 0000
    false | put text | 5 | | 0000
    1 | field | 1 | T.a |
    7 | field | 1 | S.a |
    3 | field | 1 | T.b |
    -1 | element | 2 | 0 |
    20 | element | 2 | 1 |
    9 | element | 2 | 2 |
    0061 0062 | text | 3 | |
    0078 0079 | text | 4 | |
";

#[test]
fn a_store_changes_one_place(rt: HostRuntime) {
    let mut heap = four_objects(&rt);
    let copy = heap.copy(rt.alloc()).expect(&rt, "memory");
    for row in &rows(&rt, COMMANDS) {
        let (wanted, command) = cell(&rt, row);
        let answered = answer(&rt, &mut heap, command);
        assert!(rt; answered.as_str() == wanted, "{row}");
    }
    assert_eq!(rt; heap.count(), 4);
    // The copy is as the heap was.
    assert!(rt; shown(&rt, copy.element(2, 0)).as_str() == "10");
    assert!(rt; shown_text(&rt, copy.text(4)).as_str() == "0078");
    heap_laws();
    field_laws();
    one_start();
}

// Whether each part of a field counts: the class, the name and the descriptor.
#[test]
fn fields_are_told_by_three_texts(rt: HostRuntime) {
    let first = field(&rt, "T", "a");
    let other_type = FieldId {
        class: name(&rt, "T"),
        name: name(&rt, "a"),
        desc: name(&rt, "J"),
    };
    assert!(rt; is_same_field(&first, &field(&rt, "T", "a")));
    assert!(rt; !is_same_field(&first, &field(&rt, "S", "a")));
    assert!(rt; !is_same_field(&first, &field(&rt, "T", "b")));
    assert!(rt; !is_same_field(&first, &other_type));
}

#[test]
fn a_heap_takes_65536_objects(rt: HostRuntime) {
    let alloc = rt.alloc();
    let mut heap = Heap::new(alloc);
    for count in 0..65536u32 {
        let elements = List::copied(alloc, &[Value::Long(i64::from(count))]).expect(&rt, "memory");
        let object = Object::Array(name(&rt, "J"), elements);
        let number = heap.make(object).expect(&rt, "memory");
        assert!(rt; number > u64::from(count));
    }
    assert_eq!(rt; heap.count(), 65536);
    assert!(rt; heap.put_element(65536, 0, Value::Int(5)));
    assert!(rt; heap.element(65536, 0) == Some(Value::Int(5)));
    assert!(rt; heap.element(65535, 0) == Some(Value::Long(65534)));
    assert!(rt; heap.find(65537).is_none() && heap.find(0).is_none());
    let copy = match heap.find(1) {
        Some(object) => object.copy(alloc).expect(&rt, "memory"),
        None => Object::Text(TextKind::Str, Text::new(alloc)),
    };
    assert!(rt; matches!(copy, Object::Array(_, _)));
}
