// What instructions on arrays do. The rows of ArrayRows.java are the JVM's; the others were written from the sections of the
// Specification that describe the instructions.
use crate::array_rows::STORED;
use crate::frames::{PC, frame, instruction, put, same, shown_stack, value, values};
use crate::tables::{cell, rows, text_of};
use cf_code::{Array, Element, Instr};
use jv_base::{Kind, List, Name, Value};
use std::fmt::Write;
use std::process::Abort;
use vm_frame::{both, int_to_byte, int_to_char, int_to_short, replace, take_off, top, without};
use vm_object::{
    ArrayEffect, ArrayWent, ElementType, Setting, array_effect, array_laws, array_step,
    change_laws, default_value, element_descriptor, element_type, holds, length_effect,
    load_effect, make_effect, narrowed, reference_and_int, store_effect, store_operands, takes,
    type_text,
};
use vm_world::{Fields, Frame, Heap, Object, TextKind};

fn name<R: Abort + AllocGlobal>(rt: &R, text: &str) -> Name {
    Name::from_text(rt.alloc(), text).expect(rt, "memory")
}

// The objects of the tables: the descriptor of an array with its elements, a text, and an object with a class.
const OBJECTS: &str = "
    Z | 0 1 0
    B | -128 0 127
    C | 65535 0
    S | -32768 32767
    I | -2147483648 7 2147483647
    J | -9223372036854775808L 9223372036854775807L
    Ljava/lang/String; | null #9
    [I | #5
    text | 0061
    T |
    I |
    F |
";

fn object<R: Abort + AllocGlobal>(rt: &R, row: &str) -> Object {
    let (word, rest) = cell(rt, row);
    match word {
        "text" => Object::Text(TextKind::Str, text_of(rt, rest)),
        "T" => Object::Instance(name(rt, word), Fields::new(rt.alloc())),
        _ => Object::Array(name(rt, word), values(rt, rest)),
    }
}

fn objects<R: Abort + AllocGlobal>(rt: &R) -> Heap {
    let mut heap = Heap::new(rt.alloc());
    for row in &rows(rt, OBJECTS) {
        heap.make(object(rt, row)).expect(rt, "memory");
    }
    heap
}

fn shown_object<R: Abort + AllocGlobal>(rt: &R, object: &Object) -> String {
    let mut out = String::new(rt.alloc());
    match object {
        Object::Array(descriptor, elements) => {
            write!(out, "{}", descriptor.as_str()).expect(rt, "memory");
            for element in elements {
                put(rt, &mut out, Some(*element));
            }
        }
        Object::Instance(class, _) => write!(out, "{}", class.as_str()).expect(rt, "memory"),
        Object::Text(_, text) => write!(out, "text {}", text.length()).expect(rt, "memory"),
    }
    out
}

fn shown_heap<R: Abort + AllocGlobal>(rt: &R, heap: &Heap) -> Vec<String> {
    let mut shown = Vec::new(rt.alloc());
    for number in 0..heap.count() {
        if let Some(object) = heap.find(number.saturating_add(1)) {
            shown.push(shown_object(rt, object)).expect(rt, "memory");
        }
    }
    shown
}

// What is known of an instruction: - for nothing, `no` where a value does not suit, or the descriptor of an element type. An
// array has four elements at most.
fn setting<R: Abort + AllocGlobal>(rt: &R, cell: &str) -> Setting {
    let element = if cell == "-" || cell == "no" {
        None
    } else {
        Some(name(rt, cell))
    };
    Setting {
        element,
        suits: cell != "no",
        bound: 4,
    }
}

fn array<R: Abort>(rt: &R, instr: &Instr) -> Array {
    match instr {
        Instr::Array(array) => Some(*array),
        _ => None,
    }
    .expect(rt, "an instruction on arrays")
}

fn went<R: Abort>(rt: &R, went: ArrayWent) -> &'static str {
    match went {
        ArrayWent::Next => "next",
        ArrayWent::Raised(Kind::Null) => "null",
        ArrayWent::Raised(Kind::Bounds) => "bounds",
        ArrayWent::Raised(Kind::NegSize) => "negsize",
        ArrayWent::Raised(Kind::Store) => "store",
        ArrayWent::Raised(_) => "another kind",
        ArrayWent::Stuck => "stuck",
        ArrayWent::Left => "left",
    }
}

// What comes of an instruction in a frame.
fn answer<R: Abort + AllocGlobal>(
    rt: &R,
    named: &str,
    given: &str,
    frame: &mut Frame,
    heap: &mut Heap,
) -> &'static str {
    let (instr, next) = instruction(rt, named);
    let array = array(rt, &instr);
    let answered = array_step(rt.alloc(), array, setting(rt, given), next, frame, heap);
    let pc = frame.pc;
    let answered = went(rt, answered.expect(rt, "memory"));
    assert!(rt; pc == if answered == "next" { next } else { PC }, "{named}");
    answered
}

#[test]
fn what_is_stored_is_narrowed_as_by_the_jvm(rt: HostRuntime) {
    for row in &rows(&rt, STORED) {
        let (store, rest) = cell(&rt, row);
        let (load, rest) = cell(&rt, rest);
        let (descriptor, rest) = cell(&rt, rest);
        let (number, wanted) = cell(&rt, rest);
        let mut heap = Heap::new(rt.alloc());
        let object = Object::Array(name(&rt, descriptor), values(&rt, "9 9"));
        heap.make(object).expect(&rt, "memory");
        let mut frame = frame(&rt, "", "#1 1");
        frame.stack.add(value(&rt, number)).expect(&rt, "memory");
        assert!(rt;
            answer(&rt, store, "-", &mut frame, &mut heap) == "next",
            "{row}"
        );
        assert!(rt; frame.stack.is_empty(), "{row}");
        frame.stack = values(&rt, "#1 1");
        frame.pc = PC;
        assert!(rt;
            answer(&rt, load, "-", &mut frame, &mut heap) == "next",
            "{row}"
        );
        same(&rt, row, &shown_stack(&rt, frame.stack.as_slice()), wanted);
        assert!(rt; heap.element(1, 0) == Some(Value::Int(9)), "{row}");
    }
}

// An instruction with its bytes, what is known of it, the stack before it and after it, and the object that is new or
// another one, by its number. The run goes on.
const STEPS: &str = "
    newarray_boolean bc 04 | - | 9 2 | 9 #13 | 13 Z 0 0
    newarray_char bc 05 | - | 0 | #13 | 13 C
    newarray_byte bc 08 | - | 1 | #13 | 13 B 0
    newarray_short bc 09 | - | 3 | #13 | 13 S 0 0 0
    newarray_int bc 0a | - | 1L 4 | 1L #13 | 13 I 0 0 0 0
    newarray_long bc 0b | - | 2 | #13 | 13 J 0L 0L
    anewarray bd 00 01 | Ljava/lang/String; | 2 | #13 | 13 Ljava/lang/String; null null
    anewarray bd 00 01 | [J | 1 | #13 | 13 [J null
    anewarray bd 00 01 | [F | 0 | #13 | 13 [F
    arraylength be | - | 9 #1 | 9 3 |
    arraylength be | - | #6 | 2 |
    arraylength be | - | #8 | 1 |
    arraylength be | - | #11 | 0 |
    // loads, first and last
    iaload 2e | - | 9 #5 0 | 9 -2147483648 |
    iaload 2e | - | #5 2 | 2147483647 |
    laload 2f | - | #6 0 | -9223372036854775808L |
    laload 2f | - | 3 #6 1 | 3 9223372036854775807L |
    aaload 32 | - | #7 0 | null |
    aaload 32 | - | #7 1 | #9 |
    aaload 32 | - | #8 0 | #5 |
    baload 33 | - | #2 0 | -128 |
    baload 33 | - | #2 2 | 127 |
    baload 33 | - | #1 1 | 1 |
    caload 34 | - | #3 0 | 65535 |
    saload 35 | - | #4 0 | -32768 |
    saload 35 | - | #4 1 | 32767 |
    // stores, first and last
    iastore 4f | - | 9 #5 0 3 | 9 | 5 I 3 7 2147483647
    iastore 4f | - | #5 2 -1 | | 5 I -2147483648 7 -1
    lastore 50 | - | 8L #6 1 -5L | 8L | 6 J -9223372036854775808L -5L
    aastore 53 | - | #7 0 #9 | | 7 Ljava/lang/String; #9 #9
    aastore 53 | - | #7 1 null | | 7 Ljava/lang/String; null null
    aastore 53 | no | #7 1 null | | 7 Ljava/lang/String; null null
    aastore 53 | - | #8 0 #11 | | 8 [I #11
    bastore 54 | - | #2 2 200 | | 2 B -128 0 -56
    bastore 54 | no | #1 0 3 | | 1 Z 1 1 0
    castore 55 | - | #3 1 -1 | | 3 C 65535 65535
    sastore 56 | - | #4 1 40000 | | 4 S -32768 -25536
";

// The heap is as it was, but for the object of the cell.
fn one_object_changed<R: Abort + AllocGlobal>(
    rt: &R,
    row: &str,
    before: &Vec<String>,
    heap: &Heap,
    changed: &str,
) {
    let after = shown_heap(rt, heap);
    let (number, wanted) = changed.split_once(' ').unwrap_or(("0", ""));
    let place = number.parse::<usize>().expect(rt, "a number");
    assert!(rt; after.len() == before.len().max(place), "{row}");
    for (index, shown) in after.iter().enumerate() {
        if index.saturating_add(1) == place {
            assert!(rt; shown.as_str() == wanted, "{row}: {shown}");
        } else {
            let kept = before.get(index).expect(rt, "an older object");
            assert!(rt; shown.as_str() == kept.as_str(), "{row}: {shown}");
        }
    }
}

#[test]
fn an_instruction_leaves_the_heap_that_the_specification_says(rt: HostRuntime) {
    let before = shown_heap(&rt, &objects(&rt));
    for row in &rows(&rt, STEPS) {
        let (named, rest) = cell(&rt, row);
        let (given, rest) = cell(&rt, rest);
        let (stacked, rest) = cell(&rt, rest);
        let (left, changed) = cell(&rt, rest);
        let mut heap = objects(&rt);
        let mut frame = frame(&rt, "", stacked);
        assert!(rt;
            answer(&rt, named, given, &mut frame, &mut heap) == "next",
            "{row}"
        );
        same(&rt, row, &shown_stack(&rt, frame.stack.as_slice()), left);
        one_object_changed(&rt, row, &before, &heap, changed);
    }
}

// An instruction with its bytes, what is known of it, the stack before it, and what comes of it. Nothing changes.
const REFUSED: &str = "
    newarray_int bc 0a | - | 5 | left
    newarray_int bc 0a | - | 2147483647 | left
    newarray_int bc 0a | - | -1 | negsize
    newarray_int bc 0a | - | -2147483648 | negsize
    newarray_long bc 0b | - | -5 | negsize
    anewarray bd 00 01 | [I | 5 | left
    anewarray bd 00 01 | [I | -1 | negsize
    newarray_float bc 06 | - | 1 | stuck
    newarray_float bc 06 | - | -1 | stuck
    newarray_double bc 07 | - | 1 | stuck
    newarray_of_no_type bc 03 | - | 1 | stuck
    newarray_of_no_type bc 0c | - | 1 | stuck
    newarray_int bc 0a | - | | stuck
    newarray_int bc 0a | - | 1L | stuck
    newarray_int bc 0a | - | null | stuck
    anewarray bd 00 01 | - | 1 | stuck
    anewarray bd 00 01 | [I | 1L | stuck
    multianewarray c5 00 01 02 | [I | 1 1 | stuck
    arraylength be | - | null | null
    arraylength be | - | #9 | stuck
    arraylength be | - | #10 | stuck
    arraylength be | - | #13 | stuck
    arraylength be | - | #0 | stuck
    arraylength be | - | 1 | stuck
    arraylength be | - | | stuck
    // null is tested first, then the bounds, then what may be stored
    iaload 2e | - | null -1 | null
    laload 2f | - | null 0 | null
    aaload 32 | - | null 0 | null
    baload 33 | - | null 0 | null
    caload 34 | - | null 0 | null
    saload 35 | - | null 0 | null
    iaload 2e | - | #5 -1 | bounds
    iaload 2e | - | #5 3 | bounds
    iaload 2e | - | #5 -2147483648 | bounds
    iaload 2e | - | #5 2147483647 | bounds
    iaload 2e | - | #11 0 | bounds
    laload 2f | - | #6 2 | bounds
    aaload 32 | - | #7 2 | bounds
    baload 33 | - | #1 3 | bounds
    caload 34 | - | #3 2 | bounds
    saload 35 | - | #4 -1 | bounds
    iastore 4f | - | null 9 1 | null
    lastore 50 | - | null 0 1L | null
    aastore 53 | no | null -1 #9 | null
    bastore 54 | - | null 0 1 | null
    castore 55 | - | null 0 1 | null
    sastore 56 | - | null 0 1 | null
    iastore 4f | - | #5 3 1 | bounds
    iastore 4f | - | #11 0 1 | bounds
    lastore 50 | - | #6 -1 1L | bounds
    aastore 53 | no | #7 2 #10 | bounds
    aastore 53 | no | #7 -1 #10 | bounds
    bastore 54 | - | #2 3 1 | bounds
    castore 55 | - | #3 2 1 | bounds
    sastore 56 | - | #4 2 1 | bounds
    aastore 53 | no | #7 1 #10 | store
    aastore 53 | no | #8 0 #2 | store
    // other arrays, other objects, other operands
    iaload 2e | - | #6 0 | stuck
    iaload 2e | - | #4 9 | stuck
    laload 2f | - | #5 0 | stuck
    aaload 32 | - | #5 0 | stuck
    baload 33 | - | #3 0 | stuck
    caload 34 | - | #4 0 | stuck
    saload 35 | - | #2 0 | stuck
    iaload 2e | - | #9 0 | stuck
    iaload 2e | - | #10 0 | stuck
    iaload 2e | - | #13 0 | stuck
    iaload 2e | - | #12 0 | stuck
    iaload 2e | - | 5 0 | stuck
    iaload 2e | - | #5 0L | stuck
    iaload 2e | - | 0 | stuck
    faload 30 | - | null 0 | stuck
    faload 30 | - | #12 0 | stuck
    daload 31 | - | null 0 | stuck
    iastore 4f | - | #5 0 1L | stuck
    iastore 4f | - | null 0 null | stuck
    lastore 50 | - | #6 0 1 | stuck
    aastore 53 | - | #7 0 1 | stuck
    bastore 54 | - | #2 0 null | stuck
    castore 55 | - | #2 0 1 | stuck
    sastore 56 | - | #3 0 1 | stuck
    iastore 4f | - | #4 0 1 | stuck
    iastore 4f | - | #9 0 1 | stuck
    iastore 4f | - | #5 0L 1 | stuck
    iastore 4f | - | 5 0 1 | stuck
    iastore 4f | - | 0 1 | stuck
    fastore 51 | - | null 0 1 | stuck
    dastore 52 | - | null 0 1L | stuck
";

#[test]
fn an_instruction_on_arrays_that_does_not_go_on_changes_nothing(rt: HostRuntime) {
    let before = shown_heap(&rt, &objects(&rt));
    for row in &rows(&rt, REFUSED) {
        let (named, rest) = cell(&rt, row);
        let (given, rest) = cell(&rt, rest);
        let (stacked, wanted) = cell(&rt, rest);
        let mut heap = objects(&rt);
        let mut frame = frame(&rt, "", stacked);
        same(
            &rt,
            row,
            answer(&rt, named, given, &mut frame, &mut heap),
            wanted,
        );
        same(&rt, row, &shown_stack(&rt, frame.stack.as_slice()), stacked);
        one_object_changed(&rt, row, &before, &heap, "");
    }
}

fn shown<R: Abort + AllocGlobal>(rt: &R, effect: &ArrayEffect) -> String {
    match effect {
        ArrayEffect::Makes(descriptor, count, value) => format!(in rt.alloc();
            "makes {count} of {}, {value:?}",
            descriptor.as_str()
        ),
        _ => format!(in rt.alloc(); "{effect:?}"),
    }
    .expect(rt, "memory")
}

// An instruction with its bytes, what is known of it, the stack before it, and its effect.
const EFFECTS: &str = "
    newarray_byte bc 08 | - | 3 | makes 3 of B, Int(0)
    anewarray bd 00 01 | [I | 4 | makes 4 of [I, Ref(None)
    arraylength be | - | #5 | Gives(1, Int(3))
    iaload 2e | - | #5 1 | Gives(2, Int(7))
    bastore 54 | - | #2 1 200 | Puts(2, 1, Int(-56))
    aastore 53 | no | #7 1 #10 | Raises(Store)
    laload 2f | - | #5 0 | Sticks
    newarray_int bc 0a | - | 5 | Leaves
";

// The effect of an instruction, by the call of its family.
fn family_effect<R: Abort + AllocGlobal>(
    rt: &R,
    array: Array,
    setting: Setting,
    stack: &[Value],
    heap: &Heap,
) -> ArrayEffect {
    match array {
        Array::Load(element) => load_effect(element, stack, heap),
        Array::Store(element) => store_effect(element, setting.suits, stack, heap),
        Array::New(code) => {
            let text = type_text(code).expect(rt, "a type");
            make_effect(Some(name(rt, text)), setting.bound, stack)
        }
        Array::Length => length_effect(stack, heap),
        _ => make_effect(setting.element, setting.bound, stack),
    }
}

#[test]
fn an_effect_on_arrays_is_known_before_it_is_done(rt: HostRuntime) {
    let heap = objects(&rt);
    for row in &rows(&rt, EFFECTS) {
        let (named, rest) = cell(&rt, row);
        let (given, rest) = cell(&rt, rest);
        let (stacked, wanted) = cell(&rt, rest);
        let (instr, _) = instruction(&rt, named);
        let array = array(&rt, &instr);
        let stack = values(&rt, stacked);
        let effect = array_effect(
            rt.alloc(),
            array,
            setting(&rt, given),
            stack.as_slice(),
            &heap,
        );
        same(&rt, row, &shown(&rt, &effect.expect(&rt, "memory")), wanted);
        let effect = family_effect(&rt, array, setting(&rt, given), stack.as_slice(), &heap);
        same(&rt, row, &shown(&rt, &effect), wanted);
    }
}

#[test]
fn elements_have_types_and_values(rt: HostRuntime) {
    let heap = objects(&rt);
    let descriptor = element_descriptor(&heap, 7).expect(&rt, "an array");
    assert!(rt; descriptor.as_str() == "Ljava/lang/String;");
    assert!(rt; element_type(descriptor) == Some(ElementType::Reference));
    assert!(rt; element_type(&name(&rt, "D")).is_none() && element_type(&name(&rt, "")).is_none());
    assert!(rt; element_descriptor(&heap, 9).is_none() && element_descriptor(&heap, 0).is_none());
    assert!(rt; default_value(ElementType::Long) == Value::Long(0));
    assert!(rt;
        takes(Element::Byte, ElementType::Boolean) && !takes(Element::Int, ElementType::Boolean)
    );
    assert!(rt; holds(Element::Char, Value::Int(1)) && !holds(Element::Long, Value::Int(1)));
    assert!(rt; narrowed(ElementType::Char, Value::Int(-1)) == Value::Int(65535));
    array_laws();
    change_laws();
}

#[test]
fn operands_of_stores_are_read_and_stacks_changed(rt: HostRuntime) {
    let mut stack = values(&rt, "5 #7 2 null");
    let operands = store_operands(stack.as_slice()).expect(&rt, "the operands of a store");
    assert!(rt; operands.array == Some(7) && operands.index == 2);
    assert!(rt; operands.value == Value::Ref(None));
    assert!(rt; reference_and_int(without(stack.as_slice(), 1)) == Some((Some(7), 2)));
    assert!(rt; both(Some(1u8), None::<u8>).is_none());
    take_off(&mut stack, 2);
    replace(&mut stack, 1, Value::Int(4)).expect(&rt, "memory");
    assert!(rt; top(stack.as_slice()) == Some(Value::Int(4)) && stack.length() == 2);
    assert!(rt;
        int_to_byte(200) == -56 && int_to_char(-1) == 65535 && int_to_short(40000) == -25536
    );
}

// Arrays of 255 elements, each stored and loaded at its last index.
#[test]
fn a_heap_takes_4096_arrays(rt: HostRuntime) {
    let alloc = rt.alloc();
    let mut heap = Heap::new(alloc);
    let mut frame = frame(&rt, "", "");
    for count in 0..4096i32 {
        frame.stack = values(&rt, "255");
        let made = Setting {
            element: None,
            suits: true,
            bound: 255,
        };
        array_step(alloc, Array::New(11), made, 1, &mut frame, &mut heap).expect(&rt, "memory");
        let number = top(frame.stack.as_slice()).expect(&rt, "an array");
        let stored = [number, Value::Int(254), Value::Long(i64::from(count))];
        frame.stack = List::copied(alloc, &stored).expect(&rt, "memory");
        let store = Array::Store(Element::Long);
        array_step(alloc, store, setting(&rt, "-"), 2, &mut frame, &mut heap).expect(&rt, "memory");
    }
    assert_eq!(rt; heap.count(), 4096);
    assert!(rt; heap.element(1, 254) == Some(Value::Long(0)));
    assert!(rt; heap.element(4096, 254) == Some(Value::Long(4095)));
    assert!(rt; heap.element(4096, 253) == Some(Value::Long(0)));
}
