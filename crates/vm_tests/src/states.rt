// States: the empty one, classes, literals and Class objects, and copies.
use crate::tables::text_of;
use jv_base::{List, MethodId, Name, TryCopy, Value};
use std::process::Abort;
use vm_world::{ClassState, Frame, Literal, Mirror, Slot, Stage, State, Static};

fn name<R: Abort + AllocGlobal>(rt: &R, text: &str) -> Name {
    Name::from_text(rt.alloc(), text).expect(rt, "memory")
}

fn class<R: Abort + AllocGlobal>(rt: &R, text: &str, stage: Stage) -> ClassState {
    ClassState {
        name: name(rt, text),
        stage,
    }
}

#[test]
fn a_state_starts_with_nothing(rt: HostRuntime) {
    let state = State::start(rt.alloc());
    assert!(rt; state.frames.is_empty() && state.heap.count() == 0);
    assert!(rt; state.statics.as_slice().is_empty() && state.classes.as_slice().is_empty());
    assert!(rt; state.literals.is_empty() && state.mirrors.is_empty() && state.thrown.is_none());
    assert!(rt; state.classes.stage(&name(&rt, "T")).is_none());
    assert!(rt; state.literal(&text_of(&rt, "")).is_none());
    assert!(rt; state.mirror(&name(&rt, "T")).is_none());
}

#[test]
fn classes_go_from_fresh_to_done(rt: HostRuntime) {
    let mut classes = State::start(rt.alloc()).classes;
    assert!(rt; !classes.put(&name(&rt, "T"), Stage::Done));
    classes
        .add(class(&rt, "T", Stage::InProgress))
        .expect(&rt, "memory");
    classes
        .add(class(&rt, "S", Stage::InProgress))
        .expect(&rt, "memory");
    assert!(rt; classes.put(&name(&rt, "S"), Stage::Done));
    assert!(rt; classes.stage(&name(&rt, "T")) == Some(Stage::InProgress));
    assert!(rt; classes.stage(&name(&rt, "S")) == Some(Stage::Done));
    assert!(rt; classes.stage(&name(&rt, "U")).is_none());
}

fn frame<R: Abort + AllocGlobal>(rt: &R) -> Frame {
    let alloc = rt.alloc();
    let method = MethodId {
        class: name(rt, "T"),
        name: name(rt, "f"),
        desc: name(rt, "(J)V"),
    };
    let locals = [Some(Value::Long(5)), None];
    Frame {
        method,
        pc: 3,
        locals: List::copied(alloc, &locals).expect(rt, "memory"),
        stack: List::copied(alloc, &[Value::Ref(None)]).expect(rt, "memory"),
        initialises: false,
    }
}

#[test]
fn a_copy_has_what_the_state_has(rt: HostRuntime) {
    let alloc = rt.alloc();
    let mut state = State::start(alloc);
    state.frames.add(frame(&rt)).expect(&rt, "memory");
    let literal = Literal {
        text: text_of(&rt, "0061"),
        object: 1,
    };
    state.literals.add(literal).expect(&rt, "memory");
    let mirror = Mirror {
        class: name(&rt, "T"),
        object: 2,
    };
    state.mirrors.add(mirror).expect(&rt, "memory");
    state
        .classes
        .add(class(&rt, "T", Stage::Done))
        .expect(&rt, "memory");
    let field = jv_base::FieldId {
        class: name(&rt, "T"),
        name: name(&rt, "x"),
        desc: name(&rt, "I"),
    };
    let stored: Static = Slot {
        field,
        value: Value::Int(4),
    };
    state.statics.add(stored).expect(&rt, "memory");
    let copy = state.copy(alloc).expect(&rt, "memory");
    assert!(rt; copy.literal(&text_of(&rt, "0061")) == Some(1));
    assert!(rt; copy.literal(&text_of(&rt, "0062")).is_none());
    assert!(rt; copy.mirror(&name(&rt, "T")) == Some(2));
    assert!(rt; copy.classes.stage(&name(&rt, "T")) == Some(Stage::Done));
    let printed = format!(in alloc; "{copy:?}").expect(&rt, "memory");
    let wanted = format!(in alloc; "{state:?}").expect(&rt, "memory");
    assert!(rt; printed.as_str() == wanted.as_str());
}
