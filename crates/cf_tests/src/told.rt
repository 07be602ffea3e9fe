// What tells values apart: `==` on lists, names, methods and entries of the pool, and the texts of types; the names that units
// spell, and how many bytes an instruction takes.
use crate::names::method;
use crate::tables::{bytes_of, number_of, rows, three_of, two_of};
use cf_code::{instr_length, read_instr};
use cf_judge::name_of_units;
use cf_pool::PoolEntry;
use jv_base::{Name, descriptor_text, field_type_text, read_descriptor, read_field_type};
use jv_list::List;
use std::process::Abort;

/// The UTF-16 units of a text.
fn units<R: Abort + AllocGlobal>(rt: &R, text: &str) -> List<u16> {
    let mut units = List::new(rt.alloc());
    for unit in text.encode_utf16() {
        units.add(unit).expect(rt, "memory");
    }
    units
}

// Two texts, and whether they are the same.
const TEXTS: &str = "
     |  | yes
    a | a | yes
    a |  | no
     | a | no
    a | b | no
    ab | a | no
    a | ab | no
    ba | ab | no
    \u{10000}é | \u{10000}é | yes
    \u{10000} | \u{10001} | no
";

#[test]
fn what_is_equal_is_the_same(rt: HostRuntime) {
    let alloc = rt.alloc();
    for row in &rows(&rt, TEXTS) {
        let (first, second, same) = three_of(&rt, row);
        let same = same == "yes";
        assert!(rt; (units(&rt, first) == units(&rt, second)) == same, "{row}");
        let entries = (
            PoolEntry::Utf8(units(&rt, first)),
            PoolEntry::Utf8(units(&rt, second)),
        );
        assert!(rt; (entries.0 == entries.1) == same, "{row}");
        let names = (
            Name::from_text(alloc, first).expect(&rt, "memory"),
            Name::from_text(alloc, second).expect(&rt, "memory"),
        );
        assert!(rt; (names.0 == names.1) == same, "{row}");
        let one = method(&rt, "T", "f", "()V");
        assert!(rt; (one == method(&rt, "T", "f", "()V")), "{row}");
        assert!(rt;
            (method(&rt, first, "f", "()V") == method(&rt, second, "f", "()V")) == same,
            "{row}"
        );
        assert!(rt;
            (method(&rt, "T", first, "()V") == method(&rt, "T", second, "()V")) == same,
            "{row}"
        );
        assert!(rt;
            (method(&rt, "T", "f", first) == method(&rt, "T", "f", second)) == same,
            "{row}"
        );
    }
    assert!(rt; PoolEntry::Class(1) == PoolEntry::Class(1));
    assert!(rt; PoolEntry::Class(1) != PoolEntry::Class(2));
    assert!(rt; PoolEntry::Class(1) != PoolEntry::Str(1));
}

const FIELD_TYPES: &str = "
    B
    C
    D
    F
    I
    J
    S
    Z
    LT;
    Ljava/lang/String;
    [I
    [[[Lé/T;
";

#[test]
fn field_types_have_the_text_that_they_were_read_from(rt: HostRuntime) {
    let alloc = rt.alloc();
    for row in &rows(&rt, FIELD_TYPES) {
        let text = Name::from_text(alloc, row).expect(&rt, "memory");
        let ty = read_field_type(alloc, &text).expect(&rt, "a type");
        let found = field_type_text(alloc, &ty).expect(&rt, "memory");
        assert!(rt; found.as_str() == *row, "{row}");
    }
}

const DESCRIPTORS: &str = "
    ()V
    (I)I
    (BCDFIJSZ)[[Ljava/lang/String;
    ([[ILT;[J)LT;
";

#[test]
fn descriptors_have_the_text_that_they_were_read_from(rt: HostRuntime) {
    let alloc = rt.alloc();
    for row in &rows(&rt, DESCRIPTORS) {
        let text = Name::from_text(alloc, row).expect(&rt, "memory");
        let desc = read_descriptor(alloc, &text).expect(&rt, "a descriptor");
        let found = descriptor_text(alloc, &desc).expect(&rt, "memory");
        assert!(rt; found.as_str() == *row, "{row}");
    }
}

#[test]
fn units_spell_a_name_unless_a_surrogate_stands_alone(rt: HostRuntime) {
    let alloc = rt.alloc();
    for text in ["", "T", "java/lang/String", "é", "\u{10000}x", "\u{ffff}"] {
        let name = name_of_units(alloc, units(&rt, text).as_slice()).expect(&rt, "memory");
        assert!(rt; name.is_some_and(|name| name.as_str() == text), "{text}");
    }
    let alone: [&[u16]; 4] = [
        &[0xd800],
        &[0xdc00],
        &[0x41, 0xdbff, 0x41],
        &[0xdc00, 0xd800],
    ];
    for units in alone {
        assert!(rt;
            name_of_units(alloc, units).expect(&rt, "memory").is_none(),
            "{units:?}"
        );
    }
}

// A pc, and the bytes of an instruction there.
const INSTRUCTIONS: &str = "
    0 | 00
    0 | 1012
    0 | 110102
    0 | c4150001
    0 | c48400010002
    0 | b900010100
    0 | c800000005
    1 | aa0000000000080000000000000001000000080000000c
    3 | ab000000080000000100000005000000 08
";

#[test]
fn an_instruction_is_as_long_as_its_bytes(rt: HostRuntime) {
    let alloc = rt.alloc();
    for row in &rows(&rt, INSTRUCTIONS) {
        let (pc, bytes) = two_of(&rt, row);
        let bytes = bytes_of(&rt, bytes);
        let read = read_instr(alloc, number_of(&rt, pc), &bytes).expect(&rt, "memory");
        let instr = read.expect(&rt, "an instruction");
        assert!(rt; instr_length(&instr) == bytes.len(), "{row}");
    }
}
