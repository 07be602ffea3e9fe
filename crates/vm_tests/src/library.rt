// Library rows at edges, against what the JVM answers.
use crate::known::row_of;
use crate::library_rows::{BUILDERS, STRINGS};
use crate::tables::{cell, number_of, printed, rows, text_of};
use jv_base::{Kind, List, Name, Value};
use lib_rows::LibMethod;
use std::process::Abort;
use vm_lib::{
    Effect, Plan, append_boolean, append_char, append_int, append_text, builder_char_at,
    builder_length, builder_of, call, carry_out, char_at, compare_to, concat, ends_with, equals,
    index_of, init, init_text, is_empty, length, of_boolean, of_char, of_int, same_object,
    starts_with, string_of, substring, tail, to_string,
};
use vm_world::{Fields, Heap, Object, State, TextKind};

const BOUND: u8 = 32;

// A new text object, or null.
fn made<R: Abort + AllocGlobal>(rt: &R, heap: &mut Heap, kind: TextKind, cell: &str) -> Value {
    if cell == "null" {
        return Value::Ref(None);
    }
    let object = Object::Text(kind, text_of(rt, cell));
    Value::Ref(Some(heap.make(object).expect(rt, "memory")))
}

fn shown_text<R: Abort + AllocGlobal>(rt: &R, heap: &Heap, value: Value) -> String {
    let Value::Ref(Some(number)) = value else {
        return format!(in rt.alloc(); "no object").expect(rt, "memory");
    };
    let text = heap.text(number).expect(rt, "a text");
    format!(in rt.alloc(); "text {}", printed(rt, text).as_str()).expect(rt, "memory")
}

// An effect, where a method without a result shows the receiver.
fn shown<R: Abort + AllocGlobal>(rt: &R, heap: &Heap, receiver: Value, effect: Effect) -> String {
    let alloc = rt.alloc();
    match effect {
        Effect::Gives(Some(Value::Int(number))) => format!(in alloc; "{number}"),
        Effect::Gives(Some(value)) => Ok(shown_text(rt, heap, value)),
        Effect::Gives(None) => Ok(shown_text(rt, heap, receiver)),
        Effect::Raises(Kind::Null) => format!(in alloc; "null"),
        Effect::Raises(Kind::StrIndex) => format!(in alloc; "strindex"),
        Effect::Raises(_) => format!(in alloc; "another kind"),
        Effect::Left => format!(in alloc; "left"),
        Effect::Stuck => format!(in alloc; "stuck"),
    }
    .expect(rt, "memory")
}

// The row of a word of the tables, by its class, name and descriptor.
const METHODS: &str = "
    equals | equals | (Ljava/lang/Object;)Z
    startsWith | startsWith | (Ljava/lang/String;)Z
    endsWith | endsWith | (Ljava/lang/String;)Z
    compareTo | compareTo | (Ljava/lang/String;)I
    concat | concat | (Ljava/lang/String;)Ljava/lang/String;
    charAt | charAt | (I)C
    indexOf | indexOf | (I)I
    tail | substring | (I)Ljava/lang/String;
    substring | substring | (II)Ljava/lang/String;
    length | length | ()I
    isEmpty | isEmpty | ()Z
    ofInt | valueOf | (I)Ljava/lang/String;
    ofChar | valueOf | (C)Ljava/lang/String;
    ofBoolean | valueOf | (Z)Ljava/lang/String;
    toString | toString | ()Ljava/lang/String;
    appendInt | append | (I)Ljava/lang/StringBuilder;
    appendChar | append | (C)Ljava/lang/StringBuilder;
    appendBoolean | append | (Z)Ljava/lang/StringBuilder;
    appendText | append | (Ljava/lang/String;)Ljava/lang/StringBuilder;
    initText | <init> | (Ljava/lang/String;)V
    init | <init> | ()V
";

fn method_of<R: Abort + AllocGlobal>(rt: &R, class: &str, word: &str) -> LibMethod {
    let mut found = None;
    for line in &rows(rt, METHODS) {
        let (key, rest) = cell(rt, line);
        let (name, desc) = cell(rt, rest);
        if key == word {
            found = row_of(rt, class, name, desc);
        }
    }
    found.expect(rt, "a row")
}

fn takes_text(row: LibMethod) -> bool {
    row.null_argument().is_some()
        || matches!(row, LibMethod::StringEquals | LibMethod::BuilderAppendText)
}

// The arguments of a row: the receiver, if it takes one, and then a text or numbers.
fn args_of<R: Abort + AllocGlobal>(
    rt: &R,
    heap: &mut Heap,
    row: LibMethod,
    receiver: Value,
    cells: (&str, &str),
) -> List<Value> {
    let mut args = List::new(rt.alloc());
    if !row.is_static() {
        args.add(receiver).expect(rt, "memory");
    }
    if takes_text(row) {
        args.add(made(rt, heap, TextKind::Str, cells.0))
            .expect(rt, "memory");
        return args;
    }
    for digits in [cells.0, cells.1] {
        if !digits.is_empty() {
            args.add(Value::Int(number_of(rt, digits)))
                .expect(rt, "memory");
        }
    }
    args
}

#[test]
fn strings_answer_as_on_the_jvm(rt: HostRuntime) {
    for line in &rows(&rt, STRINGS) {
        let (word, rest) = cell(&rt, line);
        let (text, rest) = cell(&rt, rest);
        let (first, rest) = cell(&rt, rest);
        let (second, wanted) = cell(&rt, rest);
        let row = method_of(&rt, "java/lang/String", word);
        let mut state = State::start(rt.alloc());
        let text = made(&rt, &mut state.heap, TextKind::Str, text);
        let args = args_of(&rt, &mut state.heap, row, text, (first, second));
        let effect = call(rt.alloc(), row, &mut state, &args, BOUND).expect(&rt, "memory");
        let answer = shown(&rt, &state.heap, text, effect);
        assert!(rt; answer.as_str().trim() == wanted, "{line}");
    }
}

#[test]
fn builders_answer_as_on_the_jvm(rt: HostRuntime) {
    for line in &rows(&rt, BUILDERS) {
        let (word, rest) = cell(&rt, line);
        let (content, rest) = cell(&rt, rest);
        let (operand, wanted) = cell(&rt, rest);
        let row = method_of(&rt, "java/lang/StringBuilder", word);
        let mut state = State::start(rt.alloc());
        let builder = made(&rt, &mut state.heap, TextKind::Builder, content);
        let args = args_of(&rt, &mut state.heap, row, builder, (operand, ""));
        let effect = call(rt.alloc(), row, &mut state, &args, BOUND).expect(&rt, "memory");
        let answer = shown(&rt, &state.heap, builder, effect);
        assert!(rt; answer.as_str().trim() == wanted, "{line}");
    }
}

// The rows that change nothing. A row, its arguments, and the answer: object 1 is of a class of exceptions, 2 of Class,
// 3 a PrintStream, 4 a String, 5 a StringBuilder, and there is no object 6.
const PLAIN: &str = "
    java/lang/Object | <init> | ()V | o1 | nothing
    java/lang/Object | <init> | ()V | o4 | nothing
    java/lang/Object | <init> | ()V | o0 | null
    java/lang/Object | <init> | ()V | o6 | stuck
    java/lang/Object | <init> | ()V | i1 | stuck
    java/lang/Object | <init> | ()V | | stuck
    java/lang/Object | <init> | ()V | o1 o1 | stuck
    java/lang/Object | equals | (Ljava/lang/Object;)Z | o1 o1 | 1
    java/lang/Object | equals | (Ljava/lang/Object;)Z | o1 o2 | 0
    java/lang/Object | equals | (Ljava/lang/Object;)Z | o0 o1 | null
    java/lang/Object | equals | (Ljava/lang/Object;)Z | o1 i1 | stuck
    java/lang/Throwable | <init> | ()V | o1 | nothing
    java/lang/Throwable | <init> | ()V | o4 | stuck
    java/lang/Throwable | <init> | (Ljava/lang/String;)V | o1 o4 | nothing
    java/lang/Throwable | <init> | (Ljava/lang/String;)V | o1 o0 | nothing
    java/lang/Throwable | <init> | (Ljava/lang/String;)V | o1 o2 | stuck
    java/lang/Throwable | <init> | (Ljava/lang/String;)V | o0 o4 | null
    java/lang/Throwable | <init> | (Ljava/lang/String;)V | o1 i1 | stuck
    java/lang/AssertionError | <init> | ()V | o1 | nothing
    java/lang/AssertionError | <init> | (Ljava/lang/Object;)V | o1 o2 | nothing
    java/lang/AssertionError | <init> | (Ljava/lang/Object;)V | o1 o0 | nothing
    java/lang/AssertionError | <init> | (Z)V | o1 i1 | nothing
    java/lang/AssertionError | <init> | (C)V | o1 i65 | nothing
    java/lang/AssertionError | <init> | (I)V | o1 i-1 | nothing
    java/lang/AssertionError | <init> | (I)V | o1 l1 | stuck
    java/lang/AssertionError | <init> | (J)V | o1 l1 | nothing
    java/lang/AssertionError | <init> | (J)V | o1 i1 | stuck
    java/lang/AssertionError | <init> | (J)V | o0 l1 | null
    java/lang/Class | desiredAssertionStatus | ()Z | o2 | 1
    java/lang/Class | desiredAssertionStatus | ()Z | o1 | stuck
    java/lang/Class | desiredAssertionStatus | ()Z | o0 | null
    java/io/PrintStream | print | (Z)V | o3 i1 | nothing
    java/io/PrintStream | print | (C)V | o3 i65 | nothing
    java/io/PrintStream | print | (I)V | o3 i5 | nothing
    java/io/PrintStream | print | (J)V | o3 l5 | nothing
    java/io/PrintStream | print | (Ljava/lang/String;)V | o3 o4 | nothing
    java/io/PrintStream | print | (Ljava/lang/String;)V | o3 o0 | nothing
    java/io/PrintStream | print | (Ljava/lang/String;)V | o3 o5 | stuck
    java/io/PrintStream | print | (Ljava/lang/String;)V | o0 o5 | null
    java/io/PrintStream | print | (Ljava/lang/String;)V | o1 o4 | stuck
    java/io/PrintStream | println | ()V | o3 | nothing
    java/io/PrintStream | println | ()V | o2 | stuck
    java/io/PrintStream | println | (Z)V | o3 i0 | nothing
    java/io/PrintStream | println | (C)V | o3 i65 | nothing
    java/io/PrintStream | println | (I)V | o3 i5 | nothing
    java/io/PrintStream | println | (J)V | o3 l5 | nothing
    java/io/PrintStream | println | (Ljava/lang/String;)V | o3 o4 | nothing
    java/lang/String | length | ()I | o4 | 2
    java/lang/String | length | ()I | o4 i1 | stuck
    java/lang/String | substring | (II)Ljava/lang/String; | o4 i0 | stuck
    java/lang/String | substring | (II)Ljava/lang/String; | o4 i0 l1 | stuck
    java/lang/String | substring | (II)Ljava/lang/String; | o4 i0 i1 i1 | stuck
    java/lang/String | valueOf | (I)Ljava/lang/String; | l1 | stuck
    java/lang/String | valueOf | (I)Ljava/lang/String; | o1 i1 | stuck
";

fn five_objects<R: Abort + AllocGlobal>(rt: &R) -> State {
    let alloc = rt.alloc();
    let mut state = State::start(alloc);
    for class in ["T", "java/lang/Class", "java/io/PrintStream"] {
        let class = Name::from_text(alloc, class).expect(rt, "memory");
        let object = Object::Instance(class, Fields::new(alloc));
        state.heap.make(object).expect(rt, "memory");
    }
    made(rt, &mut state.heap, TextKind::Str, "0061 0062");
    made(rt, &mut state.heap, TextKind::Builder, "0061");
    state
}

fn value_of<R: Abort>(rt: &R, word: &str) -> Value {
    let digits = word.get(1..).expect(rt, "a letter before the number");
    let number = number_of(rt, digits);
    match word.as_bytes() {
        [b'i', ..] => Value::Int(number),
        [b'l', ..] => Value::Long(i64::from(number)),
        _ if number == 0 => Value::Ref(None),
        _ => Value::Ref(Some(number.unsigned_abs().into())),
    }
}

#[test]
fn plain_rows_look_at_their_arguments(rt: HostRuntime) {
    for line in &rows(&rt, PLAIN) {
        let (class, rest) = cell(&rt, line);
        let (name, rest) = cell(&rt, rest);
        let (desc, rest) = cell(&rt, rest);
        let (words, wanted) = cell(&rt, rest);
        let mut state = five_objects(&rt);
        let mut args = List::new(rt.alloc());
        for word in words.split_whitespace() {
            args.add(value_of(&rt, word)).expect(&rt, "memory");
        }
        let row = row_of(&rt, class, name, desc).expect(&rt, "a row");
        let effect = call(rt.alloc(), row, &mut state, &args, BOUND).expect(&rt, "memory");
        let answer = match effect {
            Effect::Gives(None) => format!(in rt.alloc(); "nothing").expect(&rt, "memory"),
            effect => shown(&rt, &state.heap, Value::Ref(None), effect),
        };
        assert!(rt; answer.as_str() == wanted, "{line}");
        assert_eq!(rt; state.heap.count(), 5);
    }
}

// Each row by itself gives what the call of it does.
#[test]
fn rows_answer_alone_as_in_a_call(rt: HostRuntime) {
    let alloc = rt.alloc();
    let mut heap = Heap::new(alloc);
    let ab = made(&rt, &mut heap, TextKind::Str, "0061 0062");
    let builder = made(&rt, &mut heap, TextKind::Builder, "0061");
    let one = |number| Effect::Gives(Some(Value::Int(number)));
    assert_eq!(rt; length(&heap, ab), one(2));
    assert_eq!(rt; is_empty(&heap, ab), one(0));
    assert_eq!(rt; char_at(&heap, ab, 1), one(98));
    assert_eq!(rt; equals(&heap, ab, ab), one(1));
    assert_eq!(rt; starts_with(&heap, ab, ab), one(1));
    assert_eq!(rt; ends_with(&heap, ab, ab), one(1));
    assert_eq!(rt; compare_to(&heap, ab, ab), one(0));
    assert_eq!(rt; builder_char_at(&heap, builder, 0), one(97));
    let plans = [
        tail(&heap, alloc, BOUND, ab, 1),
        of_int(alloc, BOUND, 1),
        of_char(alloc, BOUND, 1),
        of_boolean(alloc, BOUND, 1),
    ];
    for plan in plans {
        assert!(rt; matches!(plan.expect(&rt, "memory"), Plan::Makes(_)));
    }
    let plans = [
        append_char(&heap, alloc, BOUND, builder, 1),
        append_boolean(&heap, alloc, BOUND, builder, 1),
        init_text(&heap, alloc, BOUND, builder, ab),
        Ok(init(&heap, alloc, builder)),
    ];
    for plan in plans {
        assert!(rt; matches!(plan.expect(&rt, "memory"), Plan::Puts(_, _, _)));
    }
}

// Where the machine is narrower than the JVM: bounds, numbers that are no units, objects that do not suit.
#[test]
fn rows_leave_their_bounds_and_are_stuck(rt: HostRuntime) {
    let alloc = rt.alloc();
    let mut heap = Heap::new(alloc);
    let text = made(&rt, &mut heap, TextKind::Str, "0061 0062");
    let builder = made(&rt, &mut heap, TextKind::Builder, "0061");
    assert_eq!(rt; index_of(&heap, text, 65536), Effect::Stuck);
    assert_eq!(rt; index_of(&heap, text, -1), Effect::Stuck);
    assert_eq!(rt; length(&heap, builder), Effect::Stuck);
    assert_eq!(rt; length(&heap, Value::Ref(Some(3))), Effect::Stuck);
    assert_eq!(rt; length(&heap, Value::Int(1)), Effect::Stuck);
    assert_eq!(rt; builder_length(&heap, text), Effect::Stuck);
    assert_eq!(rt;
        builder_length(&heap, Value::Ref(None)),
        Effect::Raises(Kind::Null)
    );
    assert!(rt; string_of(&heap, text).is_ok() && builder_of(&heap, builder).is_ok());
    let four = concat(&heap, alloc, 4, text, text).expect(&rt, "memory");
    assert!(rt; matches!(four, Plan::Makes(_)));
    let three = concat(&heap, alloc, 3, text, text).expect(&rt, "memory");
    assert!(rt; matches!(three, Plan::Has(Effect::Left)));
    let full = append_text(&heap, alloc, 2, builder, text).expect(&rt, "memory");
    assert!(rt; matches!(full, Plan::Has(Effect::Left)));
    let whole = substring(&heap, alloc, 1, text, 0, 2).expect(&rt, "memory");
    assert!(rt; matches!(whole, Plan::Has(Effect::Left)));
    assert_eq!(rt; same_object(text, text), Effect::Gives(Some(Value::Int(1))));
    assert_eq!(rt;
        same_object(text, builder),
        Effect::Gives(Some(Value::Int(0)))
    );
    assert_eq!(rt;
        same_object(text, Value::Ref(None)),
        Effect::Gives(Some(Value::Int(0)))
    );
    assert_eq!(rt;
        same_object(Value::Ref(None), text),
        Effect::Raises(Kind::Null)
    );
}

// An append gives the receiver, a toString a new object that the next append does not change.
#[test]
fn a_builder_shares_no_text(rt: HostRuntime) {
    let alloc = rt.alloc();
    let mut heap = Heap::new(alloc);
    let builder = made(&rt, &mut heap, TextKind::Builder, "0061");
    let plan = to_string(&heap, alloc, BOUND, builder).expect(&rt, "memory");
    let made = carry_out(&mut heap, plan).expect(&rt, "memory");
    assert_eq!(rt; made, Effect::Gives(Some(Value::Ref(Some(2)))));
    let plan = append_int(&heap, alloc, BOUND, builder, 7).expect(&rt, "memory");
    let given = carry_out(&mut heap, plan).expect(&rt, "memory");
    assert_eq!(rt; given, Effect::Gives(Some(builder)));
    assert!(rt; shown_text(&rt, &heap, builder).as_str() == "text 0061 0037");
    assert!(rt; shown_text(&rt, &heap, Value::Ref(Some(2))).as_str() == "text 0061");
    assert_eq!(rt; heap.count(), 2);
}
