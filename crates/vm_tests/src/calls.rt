// What returns, exceptions and calls do to the frames. The rows were written from the sections of the Specification.
use crate::frames::{locals, shown_locals, shown_stack, values};
use crate::tables::{cell, rows};
use cf_code::{Returned, Row, Word};
use jv_base::{Desc, Kind, List, MethodId, Name, Value, read_descriptor};
use std::fmt::Write;
use std::process::Abort;
use vm_step::{
    FramesWent, Thrown, athrow_effect, call_arguments, call_step, count_laws, go_on, handler_at,
    handler_laws, has_word, holds, kept_laws, raise, return_step, throw, word_of,
};
use vm_world::{ClassState, Fields, Frame, Object, Stage, State};

fn name<R: Abort + AllocGlobal>(rt: &R, text: &str) -> Name {
    Name::from_text(rt.alloc(), text).expect(rt, "memory")
}

fn method<R: Abort + AllocGlobal>(rt: &R, named: &str) -> MethodId {
    MethodId {
        class: name(rt, "T"),
        name: name(rt, named),
        desc: name(rt, "()V"),
    }
}

fn desc<R: Abort + AllocGlobal>(rt: &R, text: &str) -> Desc {
    match read_descriptor(rt.alloc(), &name(rt, text)) {
        Ok(desc) => Some(desc),
        Err(_) => None,
    }
    .expect(rt, "a descriptor")
}

fn pc_of<R: Abort>(rt: &R, digits: &str) -> u16 {
    digits.parse::<u16>().expect(rt, "a pc")
}

// A pc, and - for none.
fn pc_if<R: Abort>(rt: &R, word: &str) -> Option<u16> {
    if word == "-" {
        None
    } else {
        Some(pc_of(rt, word))
    }
}

// A frame: its method and pc, what its locals hold, its stack. One that initialises has a ! before its method.
fn frame<R: Abort + AllocGlobal>(rt: &R, text: &str) -> Frame {
    let (place, rest) = text.split_once('/').expect(rt, "locals");
    let (held, stacked) = rest.split_once('/').expect(rt, "a stack");
    let (named, pc) = place.trim().split_once('@').expect(rt, "a pc");
    Frame {
        method: method(rt, named),
        pc: pc_of(rt, pc),
        locals: locals(rt, held),
        stack: values(rt, stacked),
        initialises: named.starts_with('!'),
    }
}

// A state with frames, two objects, and the class T, whose initialisation is in progress.
fn state<R: Abort + AllocGlobal>(rt: &R, frames: &str) -> State {
    let alloc = rt.alloc();
    let mut state = State::start(alloc);
    for text in frames.split(';') {
        if !text.trim().is_empty() {
            state.frames.add(frame(rt, text)).expect(rt, "memory");
        }
    }
    for _ in 0..2 {
        let object = Object::Instance(name(rt, "T"), Fields::new(alloc));
        let _ = state.heap.make(object).expect(rt, "memory");
    }
    let class = ClassState {
        name: name(rt, "T"),
        stage: Stage::InProgress,
    };
    state.classes.add(class).expect(rt, "memory");
    state
}

// The frames of a state, with the exception on its way, and whether T is done.
fn shown<R: Abort + AllocGlobal>(rt: &R, state: &State) -> String {
    let mut out = String::new(rt.alloc());
    for frame in &state.frames {
        let named = frame.method.name.as_str();
        let held = shown_locals(rt, frame.locals.as_slice());
        let stacked = shown_stack(rt, frame.stack.as_slice());
        write!(out, " ; {named}@{} /{held} /{stacked}", frame.pc).expect(rt, "memory");
    }
    if let Some(number) = state.thrown {
        write!(out, " ; thrown #{number}").expect(rt, "memory");
    }
    if state.classes.stage(&name(rt, "T")) == Some(Stage::Done) {
        write!(out, " ; done").expect(rt, "memory");
    }
    out
}

fn same<R: Abort + AllocGlobal>(rt: &R, row: &str, state: &State, wanted: &str) {
    let shown = shown(rt, state);
    let frames = shown.trim().trim_start_matches(';').trim();
    assert!(rt; frames == wanted, "{row}: {frames}");
}

fn word(went: FramesWent) -> &'static str {
    match went {
        FramesWent::Next => "next",
        FramesWent::Ended => "ended",
        FramesWent::Stuck => "stuck",
        FramesWent::Left => "left",
    }
}

fn returned<R: Abort>(rt: &R, named: &str) -> Returned {
    match named {
        "return" => Some(Returned::Nothing),
        "ireturn" => Some(Returned::Value(Word::Int)),
        "lreturn" => Some(Returned::Value(Word::Long)),
        "freturn" => Some(Returned::Value(Word::Float)),
        "dreturn" => Some(Returned::Value(Word::Double)),
        "areturn" => Some(Returned::Value(Word::Reference)),
        _ => None,
    }
    .expect(rt, "a return")
}

// The instruction with the method's descriptor, the pc behind the caller's call, the frames, what comes of it, and the
// frames after it.
const RETURNS: &str = "
ireturn ()I | 13 | m@10 / 1 / 5 ; f@3 / 8 / 7 | next | m@13 / 1 / 5 7
ireturn ()I | 13 | m@10 / 1 / 5 ; f@3 / 8 / 9 6 7 | next | m@13 / 1 / 5 7
// a result is not narrowed
ireturn ()Z | 13 | m@10 / / ; f@3 / / 2 | next | m@13 / / 2
ireturn ()B | 13 | m@10 / / ; f@3 / / 200 | next | m@13 / / 200
ireturn ()S | 13 | m@10 / / ; f@3 / / 40000 | next | m@13 / / 40000
ireturn ()C | 13 | m@10 / / ; f@3 / / -1 | next | m@13 / / -1
lreturn ()J | 13 | m@10 / / 4L ; f@3 / / 7L | next | m@13 / / 4L 7L
areturn ()Ljava/lang/String; | 15 | m@10 / / ; f@3 / / #4 | next | m@15 / / #4
areturn ()[I | 13 | m@10 / / ; f@3 / / null | next | m@13 / / null
return ()V | 13 | m@10 / 1 - / 5 ; f@3 / 8 / 7 | next | m@13 / 1 - / 5
// the frames below the caller stay
ireturn ()I | 13 | k@1 / 2 / 3 ; m@10 / / ; f@3 / / 7 | next | k@1 / 2 / 3 ; m@13 / / 7
// the bottom frame
ireturn ()I | - | f@3 / 8 / 7 | ended |
return ()V | 13 | f@3 / / | ended |
// what is not found
ireturn ()I | 13 | m@10 / / 5 ; f@3 / / | stuck | m@10 / / 5 ; f@3 / /
ireturn ()I | 13 | m@10 / / ; f@3 / / 7L | stuck | m@10 / / ; f@3 / / 7L
ireturn ()I | 13 | m@10 / / ; f@3 / / null | stuck | m@10 / / ; f@3 / / null
ireturn ()J | 13 | m@10 / / ; f@3 / / 7 | stuck | m@10 / / ; f@3 / / 7
lreturn ()I | 13 | m@10 / / ; f@3 / / 7L | stuck | m@10 / / ; f@3 / / 7L
lreturn ()J | 13 | m@10 / / ; f@3 / / 7 | stuck | m@10 / / ; f@3 / / 7
areturn ()I | 13 | m@10 / / ; f@3 / / null | stuck | m@10 / / ; f@3 / / null
return ()I | 13 | m@10 / / ; f@3 / / 7 | stuck | m@10 / / ; f@3 / / 7
ireturn ()V | 13 | m@10 / / ; f@3 / / 7 | stuck | m@10 / / ; f@3 / / 7
freturn ()F | 13 | m@10 / / ; f@3 / / 7 | stuck | m@10 / / ; f@3 / / 7
dreturn ()D | 13 | m@10 / / ; f@3 / / 7L | stuck | m@10 / / ; f@3 / / 7L
ireturn ()I | - | m@10 / / ; f@3 / / 7 | stuck | m@10 / / ; f@3 / / 7
return ()V | 13 | | stuck |
// an initialiser
return ()V | 13 | m@10 / 1 / 5 ; !c@3 / 8 / 7 | next | m@10 / 1 / 5 ; done
return ()V | - | m@10 / / ; !b@0 / / ; !c@3 / / | next | m@10 / / ; !b@0 / / ; done
return ()V | - | !c@3 / / | ended | done
ireturn ()V | - | m@10 / / ; !c@3 / / 1 | stuck | m@10 / / ; !c@3 / / 1
// a method of that name that was called
return ()V | 13 | m@10 / / ; c@3 / / | next | m@13 / /
";

#[test]
fn a_return_gives_its_value_to_the_caller(rt: HostRuntime) {
    for row in &rows(&rt, RETURNS) {
        let (how, rest) = cell(&rt, row);
        let (behind, rest) = cell(&rt, rest);
        let (frames, rest) = cell(&rt, rest);
        let (went, wanted) = cell(&rt, rest);
        let (instr, described) = how.split_once(' ').expect(&rt, "a descriptor");
        let mut state = state(&rt, frames);
        let answer = return_step(
            rt.alloc(),
            returned(&rt, instr),
            &desc(&rt, described),
            pc_if(&rt, behind),
            &mut state,
        );
        assert!(rt; word(answer.expect(&rt, "memory")) == went, "{row}");
        same(&rt, row, &state, wanted);
    }
}

// The pc, the catch types that suit, the rows as start, end, handler and catch type, and the handler.
const HANDLERS: &str = "
7 | 4 | 0 10 20 4 | 20
0 | 4 | 0 10 20 4 | 20
9 | 4 | 0 10 20 4 | 20
10 | 4 | 0 10 20 4 | -
4 | 4 | 5 10 20 4 | -
7 | 4 | 0 10 20 5 | -
7 | | 0 10 20 5 | -
7 | | 0 10 20 0 | 20
7 | 4 | | -
7 | 6 5 | 0 10 20 4 , 0 10 30 5 , 0 10 40 6 | 30
// the first in the table, also where another has the narrower range
7 | 4 | 0 20 50 4 , 5 10 60 4 | 50
7 | 4 | 5 10 60 4 , 0 20 50 4 | 60
12 | 4 | 5 10 60 4 , 0 20 50 4 | 50
7 | 4 | 0 20 50 0 , 0 20 60 4 | 50
65534 | 4 | 65534 65535 3 4 | 3
";

#[test]
fn the_first_row_that_suits_has_the_handler(rt: HostRuntime) {
    for row in &rows(&rt, HANDLERS) {
        let (pc, rest) = cell(&rt, row);
        let (suiting, rest) = cell(&rt, rest);
        let (table, wanted) = cell(&rt, rest);
        let mut types = Vec::new(rt.alloc());
        for word in suiting.split_whitespace() {
            types.push(pc_of(&rt, word)).expect(&rt, "memory");
        }
        let mut entries = Vec::new(rt.alloc());
        for text in table.split(',') {
            let mut words = text.split_whitespace();
            if let (Some(start), Some(end), Some(handler), Some(catch_type)) = (
                words.next(),
                words.next(),
                words.next(),
                words.next(),
            ) {
                let entry = Row {
                    start: pc_of(&rt, start),
                    end: pc_of(&rt, end),
                    handler: pc_of(&rt, handler),
                    catch_type: pc_of(&rt, catch_type),
                };
                entries.push(entry).expect(&rt, "memory");
            }
        }
        let found = handler_at(&entries, pc_of(&rt, pc), &types);
        assert!(rt; found == pc_if(&rt, wanted), "{row}");
    }
    let row = Row {
        start: 3,
        end: 5,
        handler: 9,
        catch_type: 0,
    };
    assert!(rt; !holds(&row, 2) && holds(&row, 3) && holds(&row, 4) && !holds(&row, 5));
    handler_laws();
}

// The handler, the frames, and the frames after the exception 2 met them.
const THROWS: &str = "
20 | m@10 / 1 / 5 6 | m@20 / 1 / #2
20 | m@10 / 1 2L - / | m@20 / 1 2L - / #2
20 | k@1 / / 3 ; f@3 / / 7 | k@1 / / 3 ; f@20 / / #2
20 | k@1 / / 3 ; !c@3 / / 7 | k@1 / / 3 ; !c@20 / / #2
- | k@1 / / 3 ; f@3 / / 7 | k@1 / / 3 ; thrown #2
- | f@3 / / 7 | thrown #2
- | k@1 / / 3 ; !c@3 / / 7 | thrown #2
- | k@1 / / 3 ; !b@0 / / ; f@3 / / 7 | k@1 / / 3 ; !b@0 / / ; thrown #2
20 | |
- | | thrown #2
";

#[test]
fn an_exception_enters_a_handler_or_drops_the_frame(rt: HostRuntime) {
    for row in &rows(&rt, THROWS) {
        let (handler, rest) = cell(&rt, row);
        let (frames, wanted) = cell(&rt, rest);
        let mut state = state(&rt, frames);
        throw(rt.alloc(), pc_if(&rt, handler), 2, &mut state).expect(&rt, "memory");
        same(&rt, row, &state, wanted);
        assert!(rt; state.heap.count() == 2, "{row}");
    }
}

// The same of a fault, whose exception is the third object.
const RAISES: &str = "
20 | m@10 / 1 / 5 6 | m@20 / 1 / #3
- | k@1 / / 3 ; f@3 / / 7 | k@1 / / 3 ; thrown #3
- | k@1 / / 3 ; !c@3 / / 7 | thrown #3
";

#[test]
fn a_fault_makes_its_exception(rt: HostRuntime) {
    for row in &rows(&rt, RAISES) {
        let (handler, rest) = cell(&rt, row);
        let (frames, wanted) = cell(&rt, rest);
        let mut state = state(&rt, frames);
        let class = name(&rt, "java/lang/ArithmeticException");
        raise(rt.alloc(), class, pc_if(&rt, handler), &mut state).expect(&rt, "memory");
        same(&rt, row, &state, wanted);
        assert!(rt; state.heap.count() == 3, "{row}");
        let is_its = match state.heap.find(3) {
            Some(Object::Instance(class, fields)) => {
                class.as_str() == "java/lang/ArithmeticException" && fields.as_slice().is_empty()
            }
            _ => false,
        };
        assert!(rt; is_its, "{row}");
    }
}

#[test]
fn athrow_throws_what_is_on_top(rt: HostRuntime) {
    assert!(rt; athrow_effect(&values(&rt, "3 #4").as_slice()) == Thrown::Throws(4));
    assert!(rt; athrow_effect(&values(&rt, "#4 null").as_slice()) == Thrown::Raises(Kind::Null));
    assert!(rt; athrow_effect(&values(&rt, "#4 3").as_slice()) == Thrown::Sticks);
    assert!(rt; athrow_effect(&values(&rt, "5L").as_slice()) == Thrown::Sticks);
    assert!(rt; athrow_effect(&values(&rt, "").as_slice()) == Thrown::Sticks);
}

// The descriptor, with "this" before it for a method with a receiver, the bound, the frames, what comes of it, and the frames
// after it.
const CALLS: &str = "
()V | 2 | m@10 / 1 / 5 | next | m@10 / 1 / 5 ; g@0 / /
(I)I | 2 | m@10 / 1 / 5 6 | next | m@10 / 1 / 5 ; g@0 / 6 /
(IJLjava/lang/String;[J)V | 9 | m@10 / / 9 1 2L #5 null | next | m@10 / / 9 ; g@0 / 1 2L - #5 null /
(JJ)J | 9 | m@10 / / 1L 2L | next | m@10 / / ; g@0 / 1L - 2L - /
(ZBCS)V | 9 | m@10 / / 2 200 -1 40000 | next | m@10 / / ; g@0 / 2 200 -1 40000 /
this ()V | 9 | m@10 / / 3 #4 | next | m@10 / / 3 ; g@0 / #4 /
this (IJ)V | 9 | m@10 / / 3 #4 1 2L | next | m@10 / / 3 ; g@0 / #4 1 2L - /
this ()V | 9 | m@10 / / null | next | m@10 / / ; g@0 / null /
()V | 3 | k@1 / 2 / 3 ; m@10 / / | next | k@1 / 2 / 3 ; m@10 / / ; g@0 / /
()V | 3 | k@1 / 2 / 3 ; !c@10 / / | next | k@1 / 2 / 3 ; !c@10 / / ; g@0 / /
// as many frames as the bound
()V | 1 | m@10 / / 5 | left | m@10 / / 5
(I)V | 2 | k@1 / / ; m@10 / / 5 | left | k@1 / / ; m@10 / / 5
(I)V | 2 | m@10 / / 5 | next | m@10 / / ; g@0 / 5 /
()V | 0 | m@10 / / | left | m@10 / /
// what is not found, before the bound
(I)V | 1 | m@10 / / | stuck | m@10 / /
(II)V | 9 | m@10 / / 5 | stuck | m@10 / / 5
(I)V | 9 | m@10 / / 5L | stuck | m@10 / / 5L
(J)V | 9 | m@10 / / 4 5 | stuck | m@10 / / 4 5
(Ljava/lang/Object;)V | 9 | m@10 / / 5 | stuck | m@10 / / 5
([I)V | 9 | m@10 / / 5L | stuck | m@10 / / 5L
(I)V | 9 | m@10 / / null | stuck | m@10 / / null
(IJ)V | 9 | m@10 / / 1L 2 | stuck | m@10 / / 1L 2
(F)V | 9 | m@10 / / 5 | stuck | m@10 / / 5
(D)V | 9 | m@10 / / 5L | stuck | m@10 / / 5L
this ()V | 9 | m@10 / / 5 | stuck | m@10 / / 5
this ()V | 9 | m@10 / / | stuck | m@10 / /
this (I)V | 9 | m@10 / / 5 | stuck | m@10 / / 5
()V | 9 | | stuck |
";

#[test]
fn a_call_puts_its_arguments_into_locals(rt: HostRuntime) {
    for row in &rows(&rt, CALLS) {
        let (described, rest) = cell(&rt, row);
        let (bound, rest) = cell(&rt, rest);
        let (frames, rest) = cell(&rt, rest);
        let (went, wanted) = cell(&rt, rest);
        let receiver = described.starts_with("this");
        let desc = desc(&rt, described.trim_start_matches("this "));
        let bound = bound.parse::<u8>().expect(&rt, "a bound");
        let mut state = state(&rt, frames);
        let answer = call_step(
            rt.alloc(),
            method(&rt, "g"),
            receiver,
            &desc,
            bound,
            &mut state,
        );
        assert!(rt; word(answer.expect(&rt, "memory")) == went, "{row}");
        same(&rt, row, &state, wanted);
    }
}

// The pc behind an instruction, how many values it takes, the one that it gives, the frames, and the frames after it.
const GOING_ON: &str = "
13 | 2 | 7 | m@10 / 1 / 5 6 8 | m@13 / 1 / 5 7
13 | 0 | 7 | m@10 / 1 2L - / 5 | m@13 / 1 2L - / 5 7
13 | 1 | | m@10 / / 5 6 | m@13 / / 5
13 | 0 | | m@10 / / 5 | m@13 / / 5
13 | 3 | 9L | m@10 / / 5 6 8 | m@13 / / 9L
13 | 1 | null | k@1 / 2 / 3 ; m@10 / / #1 | k@1 / 2 / 3 ; m@13 / / null
13 | 0 | 7 | k@1 / / ; !c@10 / / | k@1 / / ; !c@13 / / 7
13 | 0 | 7 | |
";

#[test]
fn an_instruction_goes_on_with_its_value(rt: HostRuntime) {
    for row in &rows(&rt, GOING_ON) {
        let (pc, rest) = cell(&rt, row);
        let (taken, rest) = cell(&rt, rest);
        let (given, rest) = cell(&rt, rest);
        let (frames, wanted) = cell(&rt, rest);
        let taken = taken.parse::<usize>().expect(&rt, "a number");
        let given = values(&rt, given).last().copied();
        let mut state = state(&rt, frames);
        go_on(rt.alloc(), pc_of(&rt, pc), taken, given, &mut state).expect(&rt, "memory");
        same(&rt, row, &state, wanted);
    }
}

#[test]
fn the_receiver_is_the_first_argument(rt: HostRuntime) {
    let desc = desc(&rt, "(IJ)V");
    let stack = values(&rt, "7 #4 1 2L");
    let found = call_arguments(true, &desc, stack.as_slice()).expect(&rt, "arguments");
    assert!(rt; shown_stack(&rt, found).as_str() == " #4 1 2L");
    let found = call_arguments(false, &desc, stack.as_slice()).expect(&rt, "arguments");
    assert!(rt; shown_stack(&rt, found).as_str() == " 1 2L");
    let other = values(&rt, "1 2");
    assert!(rt; call_arguments(false, &desc, other.as_slice()).is_none());
}

#[test]
fn types_have_their_words(rt: HostRuntime) {
    let desc = desc(&rt, "(ZBCSIJFDLjava/lang/Object;[I)V");
    let mut words = String::new(rt.alloc());
    for ty in &desc.params {
        write!(words, "{:?} ", word_of(ty)).expect(&rt, "memory");
    }
    let wanted = "Int Int Int Int Int Long Float Double Reference Reference ";
    assert!(rt; words.as_str() == wanted);
    assert!(rt; has_word(Word::Int, Value::Int(1)) && !has_word(Word::Long, Value::Int(1)));
    assert!(rt;
        has_word(Word::Reference, Value::Ref(None)) && !has_word(Word::Float, Value::Int(1))
    );
}

#[test]
fn frames_are_as_many_as_the_bound(rt: HostRuntime) {
    let mut state = state(&rt, "m@10 / / 1");
    let desc = desc(&rt, "(I)I");
    for _ in 0..254 {
        let went = call_step(rt.alloc(), method(&rt, "g"), false, &desc, 255, &mut state);
        assert!(rt; went.expect(&rt, "memory") == FramesWent::Next);
        let top = state.frames.length().saturating_sub(1);
        let again = frame(&rt, "g@4 / 1 / 1");
        assert!(rt; top < state.frames.length());
        state.frames.set(top, again);
    }
    let went = call_step(rt.alloc(), method(&rt, "g"), false, &desc, 255, &mut state);
    assert!(rt; went.expect(&rt, "memory") == FramesWent::Left && state.frames.length() == 255);
    let integer = Returned::Value(Word::Int);
    for _ in 0..254 {
        let went = return_step(rt.alloc(), integer, &desc, Some(7), &mut state);
        assert!(rt; went.expect(&rt, "memory") == FramesWent::Next);
    }
    same(&rt, "the first frame", &state, "m@7 / / 1");
    count_laws();
    kept_laws();
}
