// What instructions do to a frame. The rows of FrameRows.java are the JVM's; the others were written from the sections of
// the Specification that describe the instructions.
use crate::frame_rows::NUMBERS;
use crate::tables::{cell, rows};
use cf_code::{Instr, read_instr};
use jv_base::{Kind, List, MethodId, Name, Value};
use std::fmt::Write;
use std::process::Abort;
use vm_frame::{
    FrameEffect, FrameWent, Operands, constant_effect, frame_effect, frame_step, int_in,
    jump_effect, local_at, local_effect, local_laws, long_in, lookup_effect, number_effect,
    reference_in, second, stack_effect, step_laws, table_effect, top, two_ints, two_longs,
    two_references,
};
use vm_world::Frame;

pub(crate) const PC: u16 = 10;

// An int, a long with an L behind it, null, or an object by its number.
pub(crate) fn value<R: Abort>(rt: &R, word: &str) -> Value {
    if word == "null" {
        return Value::Ref(None);
    }
    if let Some(digits) = word.strip_prefix('#') {
        return Value::Ref(Some(digits.parse::<u64>().expect(rt, "a number")));
    }
    match word.strip_suffix('L') {
        Some(digits) => Value::Long(digits.parse::<i64>().expect(rt, "a long")),
        None => Value::Int(word.parse::<i32>().expect(rt, "an int")),
    }
}

pub(crate) fn values<R: Abort + AllocGlobal>(rt: &R, cell: &str) -> List<Value> {
    let mut values = List::new(rt.alloc());
    for word in cell.split_whitespace() {
        values.add(value(rt, word)).expect(rt, "memory");
    }
    values
}

// What locals hold, and - for nothing.
pub(crate) fn locals<R: Abort + AllocGlobal>(rt: &R, cell: &str) -> List<Option<Value>> {
    let mut locals = List::new(rt.alloc());
    for word in cell.split_whitespace() {
        let local = if word == "-" {
            None
        } else {
            Some(value(rt, word))
        };
        locals.add(local).expect(rt, "memory");
    }
    locals
}

pub(crate) fn put<R: Abort>(rt: &R, out: &mut String, local: Option<Value>) {
    match local {
        Some(Value::Int(number)) => write!(out, " {number}"),
        Some(Value::Long(number)) => write!(out, " {number}L"),
        Some(Value::Ref(None)) => write!(out, " null"),
        Some(Value::Ref(Some(number))) => write!(out, " #{number}"),
        None => write!(out, " -"),
    }
    .expect(rt, "memory");
}

pub(crate) fn shown_stack<R: Abort + AllocGlobal>(rt: &R, stack: &[Value]) -> String {
    let mut out = String::new(rt.alloc());
    for value in stack {
        put(rt, &mut out, Some(*value));
    }
    out
}

pub(crate) fn shown_locals<R: Abort + AllocGlobal>(rt: &R, locals: &[Option<Value>]) -> String {
    let mut out = String::new(rt.alloc());
    for local in locals {
        put(rt, &mut out, *local);
    }
    out
}

pub(crate) fn frame<R: Abort + AllocGlobal>(rt: &R, held: &str, stacked: &str) -> Frame {
    let alloc = rt.alloc();
    let method = MethodId {
        class: Name::from_text(alloc, "T").expect(rt, "memory"),
        name: Name::from_text(alloc, "f").expect(rt, "memory"),
        desc: Name::from_text(alloc, "()V").expect(rt, "memory"),
    };
    Frame {
        method,
        pc: PC,
        locals: locals(rt, held),
        stack: values(rt, stacked),
        initialises: false,
    }
}

// The instruction of a name and its bytes in hexadecimal, and the pc behind it.
pub(crate) fn instruction<R: Abort + AllocGlobal>(rt: &R, cell: &str) -> (Instr, u16) {
    let mut bytes = Vec::new(rt.alloc());
    let mut next = PC;
    for word in cell.split_whitespace().skip(1) {
        bytes
            .push(u8::from_str_radix(word, 16).expect(rt, "a byte"))
            .expect(rt, "memory");
        next = next.wrapping_add(1);
    }
    let instr = read_instr(rt.alloc(), PC, &bytes)
        .expect(rt, "memory")
        .expect(rt, "an instruction");
    (instr, next)
}

// What comes of an instruction, with the frame after it.
fn answer<R: Abort + AllocGlobal>(
    rt: &R,
    instr: &Instr,
    next: u16,
    frame: &mut Frame,
) -> &'static str {
    match frame_step(instr, next, frame).expect(rt, "memory") {
        FrameWent::Next => "next",
        FrameWent::Raised(Kind::Zero) => "zero",
        FrameWent::Raised(_) => "another kind",
        FrameWent::Stuck => "stuck",
        FrameWent::Other => "other",
    }
}

pub(crate) fn same<R: Abort>(rt: &R, row: &str, shown: &str, wanted: &str) {
    assert!(rt; shown.trim() == wanted, "{row}: {shown}");
}

#[test]
fn numbers_are_as_the_jvm_computes_them(rt: HostRuntime) {
    for row in &rows(&rt, NUMBERS) {
        let (named, rest) = cell(&rt, row);
        let (stacked, wanted) = cell(&rt, rest);
        let (instr, next) = instruction(&rt, named);
        let mut frame = frame(&rt, "", stacked);
        let went = answer(&rt, &instr, next, &mut frame);
        if wanted == "zero" {
            assert!(rt; went == "zero" && frame.pc == PC, "{row}");
            same(&rt, row, &shown_stack(&rt, frame.stack.as_slice()), stacked);
        } else {
            assert!(rt; went == "next" && frame.pc == next, "{row}");
            same(&rt, row, &shown_stack(&rt, frame.stack.as_slice()), wanted);
        }
    }
}

// An instruction with its bytes, the locals and the stack before it, and the pc, the locals and the stack after it.
const STEPS: &str = "
    nop 00 | 1 - | 7 8L | 11 | 1 - | 7 8L
    // constants
    aconst_null 01 | | 7 | 11 | | 7 null
    iconst_m1 02 | | | 11 | | -1
    iconst_5 08 | | | 11 | | 5
    lconst_0 09 | | | 11 | | 0L
    lconst_1 0a | | null | 11 | | null 1L
    bipush 10 80 | | | 12 | | -128
    bipush 10 7f | | | 12 | | 127
    sipush 11 80 00 | | | 13 | | -32768
    sipush 11 01 00 | | | 13 | | 256
    // loads
    iload_0 1a | 5 | | 11 | 5 | 5
    iload 15 02 | - - 6 | 1 | 12 | - - 6 | 1 6
    lload_1 1f | 5 6L - | | 11 | 5 6L - | 6L
    aload_0 2a | null | | 11 | null | null
    aload 19 01 | - #4 | | 12 | - #4 | #4
    wide_iload c4 15 00 01 | - 9 | | 14 | - 9 | 9
    // stores, which end each long that they hit
    istore_0 3b | 5 6 | 7 8 | 11 | 8 6 | 7
    istore_0 3b | 5L - | 8 | 11 | 8 - |
    istore_1 3c | 5L - | 8 | 11 | - 8 |
    istore_2 3d | 5L - | 8 | 11 | 5L - 8 |
    astore_1 4c | 5L - 3 | null | 11 | - null 3 |
    lstore_0 3f | 1 2 3 | 9L | 11 | 9L - 3 |
    lstore_1 40 | 5L - 6L - | 9L | 11 | - 9L - - |
    lstore_1 40 | 5 6 7L - | 9L | 11 | 5 9L - - |
    lstore_0 3f | - 6L - | 9L | 11 | 9L - - |
    lstore_2 41 | 5L - | 9L | 11 | 5L - 9L - |
    istore 36 03 | 1 | 2 | 12 | 1 - - 2 |
    lstore 37 01 | | 2L | 12 | - 2L - |
    wide_astore c4 3a 00 02 | 1 2 3 | #8 | 14 | 1 2 #8 |
    // iinc
    iinc 84 00 01 | 2147483647 | 5 | 13 | -2147483648 | 5
    iinc 84 01 ff | 4 -2147483648 | | 13 | 4 2147483647 |
    wide_iinc c4 84 00 00 80 00 | 7 | | 16 | -32761 |
    wide_iinc c4 84 00 00 03 e8 | 7 | | 16 | 1007 |
    // moves on the stack
    pop 57 | | 1 null | 11 | | 1
    pop2_form_1 58 | | 1 2 3 | 11 | | 1
    pop2_form_2 58 | | 1 2L | 11 | | 1
    dup 59 | | 9 #3 | 11 | | 9 #3 #3
    dup_x1 5a | | 9 1 2 | 11 | | 9 2 1 2
    dup_x2_form_1 5b | | 9 1 2 3 | 11 | | 9 3 1 2 3
    dup_x2_form_2 5b | | 9 1L 3 | 11 | | 9 3 1L 3
    dup2_form_1 5c | | 9 1 2 | 11 | | 9 1 2 1 2
    dup2_form_2 5c | | 9 1L | 11 | | 9 1L 1L
    dup2_x1_form_1 5d | | 9 1 2 3 | 11 | | 9 2 3 1 2 3
    dup2_x1_form_2 5d | | 9 1 2L | 11 | | 9 2L 1 2L
    dup2_x2_form_1 5e | | 9 1 2 3 4 | 11 | | 9 3 4 1 2 3 4
    dup2_x2_form_2 5e | | 9 1 2 3L | 11 | | 9 3L 1 2 3L
    dup2_x2_form_3 5e | | 9 1L 2 3 | 11 | | 9 2 3 1L 2 3
    dup2_x2_form_4 5e | | 9 1L 2L | 11 | | 9 2L 1L 2L
    swap 5f | | 9 1 null | 11 | | 9 null 1
    dup_below_a_long 59 | | 4L 5 | 11 | | 4L 5 5
    // jumps; the target is 15
    ifeq 99 00 05 | | 9 0 | 15 | | 9
    ifeq 99 00 05 | | 9 1 | 13 | | 9
    ifne 9a 00 05 | | -1 | 15 | |
    ifne 9a 00 05 | | 0 | 13 | |
    iflt 9b 00 05 | | -1 | 15 | |
    iflt 9b 00 05 | | 0 | 13 | |
    ifge 9c 00 05 | | 0 | 15 | |
    ifge 9c 00 05 | | -2147483648 | 13 | |
    ifgt 9d 00 05 | | 1 | 15 | |
    ifgt 9d 00 05 | | 0 | 13 | |
    ifle 9e 00 05 | | 0 | 15 | |
    ifle 9e 00 05 | | 1 | 13 | |
    if_icmpeq 9f 00 05 | | 9 3 3 | 15 | | 9
    if_icmpeq 9f 00 05 | | 9 3 4 | 13 | | 9
    if_icmpne a0 00 05 | | 3 4 | 15 | |
    if_icmpne a0 00 05 | | 3 3 | 13 | |
    if_icmplt a1 00 05 | | -2147483648 2147483647 | 15 | |
    if_icmplt a1 00 05 | | 3 3 | 13 | |
    if_icmpge a2 00 05 | | 3 3 | 15 | |
    if_icmpge a2 00 05 | | -1 0 | 13 | |
    if_icmpgt a3 00 05 | | 4 3 | 15 | |
    if_icmpgt a3 00 05 | | 3 4 | 13 | |
    if_icmple a4 00 05 | | 3 4 | 15 | |
    if_icmple a4 00 05 | | 4 3 | 13 | |
    if_acmpeq a5 00 05 | | #3 #3 | 15 | |
    if_acmpeq a5 00 05 | | #3 #4 | 13 | |
    if_acmpeq a5 00 05 | | null null | 15 | |
    if_acmpeq a5 00 05 | | #1 null | 13 | |
    if_acmpne a6 00 05 | | null #1 | 15 | |
    if_acmpne a6 00 05 | | #1 #1 | 13 | |
    ifnull c6 00 05 | | 1 null | 15 | | 1
    ifnull c6 00 05 | | 1 #2 | 13 | | 1
    ifnonnull c7 00 05 | | #2 | 15 | |
    ifnonnull c7 00 05 | | null | 13 | |
    goto a7 ff f6 | 1 | 2L | 0 | 1 | 2L
    goto_w c8 00 00 00 06 | | 2 | 16 | | 2
    // switches at pc 10 have a byte of padding; the keys are -1 to 1, and then the least, 5 and the greatest
    tableswitch aa 00 00 00 00 1e ff ff ff ff 00 00 00 01 00 00 00 28 00 00 00 32 00 00 00 3c | | 9 -1 | 50 | | 9
    tableswitch aa 00 00 00 00 1e ff ff ff ff 00 00 00 01 00 00 00 28 00 00 00 32 00 00 00 3c | | 1 | 70 | |
    tableswitch aa 00 00 00 00 1e ff ff ff ff 00 00 00 01 00 00 00 28 00 00 00 32 00 00 00 3c | | 2 | 40 | |
    tableswitch aa 00 00 00 00 1e ff ff ff ff 00 00 00 01 00 00 00 28 00 00 00 32 00 00 00 3c | | -2 | 40 | |
    tableswitch aa 00 00 00 00 1e ff ff ff ff 00 00 00 01 00 00 00 28 00 00 00 32 00 00 00 3c | | -2147483648 | 40 | |
    tableswitch aa 00 00 00 00 1e ff ff ff ff 00 00 00 01 00 00 00 28 00 00 00 32 00 00 00 3c | | 2147483647 | 40 | |
    lookupswitch ab 00 00 00 00 1e 00 00 00 02 80 00 00 00 00 00 00 28 00 00 00 05 00 00 00 32 | | 9 5 | 60 | | 9
    lookupswitch ab 00 00 00 00 1e 00 00 00 02 80 00 00 00 00 00 00 28 00 00 00 05 00 00 00 32 | | -2147483648 | 50 | |
    lookupswitch ab 00 00 00 00 1e 00 00 00 00 | | 5 | 40 | |
";

#[test]
fn an_instruction_leaves_the_frame_that_the_specification_says(rt: HostRuntime) {
    for row in &rows(&rt, STEPS) {
        let (named, rest) = cell(&rt, row);
        let (held, rest) = cell(&rt, rest);
        let (stacked, rest) = cell(&rt, rest);
        let (pc, rest) = cell(&rt, rest);
        let (kept, left) = cell(&rt, rest);
        let (instr, next) = instruction(&rt, named);
        let mut frame = frame(&rt, held, stacked);
        let went = answer(&rt, &instr, next, &mut frame);
        assert!(rt; went == "next", "{row}");
        assert!(rt; pc.parse::<u16>().expect(&rt, "a pc") == frame.pc, "{row}");
        same(&rt, row, &shown_locals(&rt, frame.locals.as_slice()), kept);
        same(&rt, row, &shown_stack(&rt, frame.stack.as_slice()), left);
    }
}

// An instruction with its bytes, the locals and the stack before it, and what comes of it. Nothing changes.
const REFUSED: &str = "
    iadd 60 | | 1 | stuck
    iadd 60 | | 1L 2 | stuck
    iadd 60 | | null 2 | stuck
    ineg 74 | | | stuck
    ineg 74 | | 1L | stuck
    idiv 6c | | 0L 0 | stuck
    lrem 71 | | 1 0L | stuck
    lshl 79 | | 1L 1L | stuck
    lcmp 94 | | 1L 1 | stuck
    i2l 85 | | 1L | stuck
    l2i 88 | | 1 | stuck
    ixor 82 | | 1 null | stuck
    lxor 83 | | 1 2L | stuck
    fadd 62 | | 1 2 | stuck
    dneg 77 | | 1L | stuck
    i2f 86 | | 1 | stuck
    fcmpl 95 | | 1 2 | stuck
    fconst_1 0c | | | stuck
    dconst_0 0e | | | stuck
    iload_0 1a | | | stuck
    iload_0 1a | - | | stuck
    iload_0 1a | 1L - | | stuck
    lload_0 1e | 1 2 | | stuck
    iload_1 1b | 1L - | | stuck
    aload_0 2a | 1 | | stuck
    fload_0 22 | 1 | | stuck
    istore_0 3b | 1 | 1L | stuck
    lstore_0 3f | 1 2 | 1 | stuck
    astore_0 4b | 1 | 1 | stuck
    istore_0 3b | 1 | | stuck
    iinc 84 00 01 | 1L - | | stuck
    iinc 84 01 01 | 1 | | stuck
    ret a9 00 | 1 | | stuck
    pop 57 | | | stuck
    pop 57 | | 1L | stuck
    pop2 58 | | 1 | stuck
    pop2 58 | | 1L 2 | stuck
    dup 59 | | 1L | stuck
    dup_x1 5a | | 1L 2 | stuck
    dup_x1 5a | | 2 | stuck
    dup_x2 5b | | 1L 2 3 | stuck
    dup_x2 5b | | 1 2L | stuck
    dup2 5c | | 1L 2 | stuck
    dup2_x1 5d | | 1L 2L | stuck
    dup2_x2 5e | | 1L 2 3L | stuck
    dup2_x2 5e | | 1 2L | stuck
    swap 5f | | 1 2L | stuck
    swap 5f | | 2L 1 | stuck
    swap 5f | | 2 | stuck
    ifeq 99 00 05 | | null | stuck
    if_icmplt a1 00 05 | | 1L 2L | stuck
    if_acmpeq a5 00 05 | | 1 1 | stuck
    ifnull c6 00 05 | | 0 | stuck
    jsr a8 00 05 | | | stuck
    tableswitch aa 00 00 00 00 1e 00 00 00 00 00 00 00 00 00 00 00 28 | | 0L | stuck
    lookupswitch ab 00 00 00 00 1e 00 00 00 00 | | | stuck
    ldc 12 01 | | | other
    ldc2_w 14 00 01 | | | other
    iaload 2e | | null 0 | other
    arraylength be | | null | other
    ireturn ac | | 1 | other
    return b1 | | | other
    getfield b4 00 01 | | null | other
    invokestatic b8 00 01 | | | other
    new bb 00 01 | | | other
    athrow bf | | null | other
";

#[test]
fn an_instruction_that_does_not_go_on_leaves_its_frame(rt: HostRuntime) {
    for row in &rows(&rt, REFUSED) {
        let (named, rest) = cell(&rt, row);
        let (held, rest) = cell(&rt, rest);
        let (stacked, wanted) = cell(&rt, rest);
        let (instr, next) = instruction(&rt, named);
        let mut frame = frame(&rt, held, stacked);
        same(&rt, row, answer(&rt, &instr, next, &mut frame), wanted);
        assert!(rt; frame.pc == PC, "{row}");
        same(&rt, row, &shown_locals(&rt, frame.locals.as_slice()), held);
        same(&rt, row, &shown_stack(&rt, frame.stack.as_slice()), stacked);
    }
}

fn shown<R: Abort + AllocGlobal>(rt: &R, effect: FrameEffect) -> String {
    format!(in rt.alloc(); "{effect:?}").expect(rt, "memory")
}

// An instruction with its bytes, the locals and the stack before it, and its effect.
const EFFECTS: &str = "
    iconst_2 05 | | | Gives(0, Int(2))
    iload_0 1a | 5 | | Gives(0, Int(5))
    istore_1 3c | 5 | 6 | Stores(1, Int(6))
    dup_x2 5b | | 1L 2 | Copies(OneOperand(Int(2)), OneOperand(Long(1)))
    idiv 6c | | 1 0 | Raises(Zero)
    goto a7 00 05 | | | Jumps(0, 15)
    tableswitch aa 00 00 00 00 1e 00 00 00 00 00 00 00 00 00 00 00 28 | | 0 | Jumps(1, 50)
    lookupswitch ab 00 00 00 00 1e 00 00 00 00 | | 0 | Jumps(1, 40)
";

// The effect of an instruction, by the call of its family.
fn family_effect(instr: &Instr, frame: &Frame) -> FrameEffect {
    let stack = frame.stack.as_slice();
    match instr {
        Instr::Constant(constant) => constant_effect(*constant),
        Instr::Local(local) => local_effect(*local, frame.locals.as_slice(), stack),
        Instr::Stack(how) => stack_effect(*how, stack),
        Instr::Number(number) => number_effect(*number, stack),
        Instr::Jump(jump) => jump_effect(*jump, stack),
        Instr::Table(switch) => table_effect(switch, stack),
        Instr::Lookup(switch) => lookup_effect(switch, stack),
        _ => FrameEffect::Exceeds,
    }
}

#[test]
fn an_effect_is_known_before_it_is_done(rt: HostRuntime) {
    for row in &rows(&rt, EFFECTS) {
        let (named, rest) = cell(&rt, row);
        let (held, rest) = cell(&rt, rest);
        let (stacked, wanted) = cell(&rt, rest);
        let (instr, _) = instruction(&rt, named);
        let frame = frame(&rt, held, stacked);
        same(&rt, row, &shown(&rt, frame_effect(&instr, &frame)), wanted);
        same(&rt, row, &shown(&rt, family_effect(&instr, &frame)), wanted);
    }
}

#[test]
fn operands_are_read_from_the_top(rt: HostRuntime) {
    let ints = frame(&rt, "5L -", "1 2").stack;
    assert!(rt; two_ints(ints.as_slice()) == Some((1, 2)));
    assert!(rt; int_in(top(ints.as_slice())) == Some(2));
    assert!(rt; int_in(second(ints.as_slice())) == Some(1));
    let longs = values(&rt, "1L 2L");
    assert!(rt; two_longs(longs.as_slice()) == Some((1, 2)));
    assert!(rt; long_in(top(longs.as_slice())) == Some(2));
    let references = values(&rt, "null #7");
    assert!(rt; two_references(references.as_slice()) == Some((None, Some(7))));
    assert!(rt; reference_in(top(references.as_slice())) == Some(Some(7)));
    assert!(rt; local_at(locals(&rt, "5L -").as_slice(), 1).is_none());
    assert!(rt; Operands::TwoOperands(Value::Int(1), Value::Int(2)).count() == 2);
    step_laws();
    local_laws();
}
