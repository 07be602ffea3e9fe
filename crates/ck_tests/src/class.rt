// Classes with one method, `m`, that is put together from a row.
use crate::code::{cell, numbers};
use cf_class::{ClassFile, read_class};
use jv_base::{MethodId, Name};
use jv_list::Mem;
use std::alloc::Global;
use std::process::Abort;

// The head of a class file of major 49, and its constant pool up to index 29: the int 7 at 1, the long 5 at 2, the string
// `f` at 4, the class T at 6; the fields T.f:I, T.f:J and T.f:[D at 10, 13 and 16; the methods T.f:(IJ[[ILT;)J at 19, of
// an interface too at 20, and T.f:()V at 23; `Code` at 24, T and Object at 26 and 28, `m` at 29.
const FRONT: &str = "
    cafebabe00000031001f03000000070500000000000000050800070100015407000501000166010001490c0007000809000600090100014a
    0c0007000b090006000c0100025b440c0007000e090006000f01000b28494a5b5b494c543b294a0c000700110a000600120b000600120100
    032829560c000700150a00060016010004436f6465010001540700190100106a6176612f6c616e672f4f626a65637407001b0100016d";

/// Digits, and how often they stand there, which is once where no `*` says it.
fn repeated(word: &str) -> (&str, u16) {
    match word.split_once('*') {
        Some((digits, count)) => (digits, count.parse::<u16>().unwrap_or(0)),
        None => (word, 1),
    }
}

/// The bytes of hexadecimal digits, between which there may be blanks.
fn bytes_of<R: Abort + AllocGlobal>(rt: &R, text: &str) -> Vec<u8> {
    let mut joined = String::new(rt.alloc());
    for word in text.split_whitespace() {
        let (digits, count) = repeated(word);
        for _ in 0..count {
            joined.push_str(digits).expect(rt, "memory");
        }
    }
    hex::decode(rt.alloc(), joined.as_str()).expect(rt, "hexadecimal digits")
}

fn put_two(out: &mut Vec<u8>, number: usize) -> Mem<()> {
    let [high, low] = u16::try_from(number).unwrap_or(0).to_be_bytes();
    out.extend_from_slice(&[high, low])
}

/// How many rows the exception table has, and the rows, which catch all.
fn put_handlers(alloc: Global, out: &mut Vec<u8>, text: &str) -> Mem<()> {
    let rows = text.split(',').filter(|part| !part.trim().is_empty());
    put_two(out, rows.count())?;
    for part in text.split(',') {
        for number in numbers(alloc, part)?.as_slice() {
            put_two(out, usize::from(*number))?;
        }
        if !part.trim().is_empty() {
            put_two(out, 0)?;
        }
    }
    Ok(())
}

/// The content of the Code: max_stack and max_locals, the bytes of the code, the handlers, no attributes.
fn code_bytes<R: Abort + AllocGlobal>(rt: &R, row: &str) -> Vec<u8> {
    let alloc = rt.alloc();
    let mut out = Vec::new(alloc);
    for number in numbers(alloc, cell(row, 0)).expect(rt, "memory").as_slice() {
        put_two(&mut out, usize::from(*number)).expect(rt, "memory");
    }
    let code = bytes_of(rt, cell(row, 3));
    put_two(&mut out, 0).expect(rt, "memory");
    put_two(&mut out, code.len()).expect(rt, "memory");
    out.extend_from_slice(code.as_slice()).expect(rt, "memory");
    put_handlers(alloc, &mut out, cell(row, 2)).expect(rt, "memory");
    put_two(&mut out, 0).expect(rt, "memory");
    out
}

/// The descriptor of a row, and whether it says `static` before it.
fn descriptor_of(row: &str) -> (&str, usize) {
    match cell(row, 1).split_once(' ') {
        Some((_, desc)) => (desc, 0x0009),
        None => (cell(row, 1), 0x0001),
    }
}

/// The class of a row: max_stack and max_locals, whether the method is static, its descriptor, the handlers, the code.
pub(crate) fn class_of<R: Abort + AllocGlobal>(rt: &R, row: &str) -> ClassFile {
    let (desc, flags) = descriptor_of(row);
    let mut out = bytes_of(rt, FRONT);
    out.push(1).expect(rt, "memory");
    put_two(&mut out, desc.len()).expect(rt, "memory");
    out.extend_from_slice(desc.as_bytes()).expect(rt, "memory");
    for number in [0x21, 26, 28, 0, 0, 1, flags, 29, 30, 1, 24, 0] {
        put_two(&mut out, number).expect(rt, "memory");
    }
    let code = code_bytes(rt, row);
    put_two(&mut out, code.len()).expect(rt, "memory");
    out.extend_from_slice(code.as_slice()).expect(rt, "memory");
    put_two(&mut out, 0).expect(rt, "memory");
    read_class(rt.alloc(), out.as_slice()).expect(rt, "a class file")
}

/// The method of a row.
pub(crate) fn method_of<R: Abort + AllocGlobal>(rt: &R, row: &str) -> MethodId {
    let (desc, _) = descriptor_of(row);
    MethodId {
        class: Name::from_text(rt.alloc(), "T").expect(rt, "memory"),
        name: Name::from_text(rt.alloc(), "m").expect(rt, "memory"),
        desc: Name::from_text(rt.alloc(), desc).expect(rt, "memory"),
    }
}
