// The structure of class files (JVM Specification SE 8, 4.1, 4.5 to 4.7): one that javac wrote, others written by hand, and
// damaged ones with the places of their faults.
use crate::tables::{bytes_of, rows, three_of};
use cf_pool::{Fault, PoolFault, What};
use cf_structure::{BodyPart, ClassFault, extra_bytes, one_structure, read_structure, spelled};
use std::alloc::AllocError;
use std::process::Abort;

/// A class T without members.
pub(crate) const SMALLEST: &str = "
    cafebabe00000034 0005 070002 01000154 070004 0100106a6176612f6c616e672f4f626a656374
    0021 0001 0003 0000 0000 0000 0000
";

// javac --release 8 -g:none of `class F implements Runnable { static final int K = 7; public void run() { try { run(); }
// catch (Error e) { } } }`.
pub(crate) const F_PLAIN: &str = "
    cafebabe0000003400160a000200030700040c000500060100106a6176612f6c616e672f4f626a6563740100063c696e69743e0100032829
    560a0008000907000a0c000b00060100014601000372756e07000d01000f6a6176612f6c616e672f4572726f7207000f0100126a6176612f
    6c616e672f52756e6e61626c650100014b0100014901000d436f6e7374616e7456616c75650300000007010004436f646501000d53746163
    6b4d61705461626c650020000800020001000e00010018001000110001001200000002001300020000000500060001001400000011000100
    01000000052ab70001b1000000000001000b0006000100140000002a00010002000000092ab60007a700044cb10001000000040007000c00
    0100150000000700024707000c000000
";

// A class up to its fields_count, which stands at place 48. Its pool has "Code" at 1, "ConstantValue" at 2, "x" at 3 and
// a class at 4.
const FRONT: &str = "
    cafebabe00000034 0005 010004436f6465 01000d436f6e7374616e7456616c7565 01000178 070003 0021 0004 0004 0000
";

// One field x, up to its attributes_count at place 56.
const FIELD: &str = "0001 0008 0003 0003";

// No field and one method x, up to its attributes_count at place 58.
const METHOD: &str = "0000 0001 0008 0003 0003";

// No member, up to the attributes_count of the class at place 52.
const NO_MEMBER: &str = "0000 0000";

/// The bytes of a file that begins as a word says.
fn file<R: Abort + AllocGlobal>(rt: &R, start: &str, rest: &str) -> Vec<u8> {
    let (front, members) = match start {
        "smallest" => (SMALLEST, ""),
        "javac" => (F_PLAIN, ""),
        "field" => (FRONT, FIELD),
        "method" => (FRONT, METHOD),
        "class" => (FRONT, NO_MEMBER),
        _ => ("", ""),
    };
    let text = format!(in rt.alloc(); "{front} {members} {rest}").expect(rt, "memory");
    bytes_of(rt, text.as_str())
}

// The start of a file, the bytes behind it, and what stands behind its pool, as it is printed.
#[rattlefmt::skip]
const STRUCTURES: &str = "
    smallest | | flags: 33, this_class: 1, super_class: 3, interfaces: List { items: [] }, fields: List { items: [] }, methods: List { items: [] }, attributes: List { items: [] }
    javac | | flags: 32, this_class: 8, super_class: 2, interfaces: List { items: [14] }, fields: List { items: [MemberPart { flags: 24, name: 16, desc: 17, attributes: List { items: [AttributePart { name: 18, body: Constant(19) }] } }] }, methods: List { items: [MemberPart { flags: 0, name: 5, desc: 6, attributes: List { items: [AttributePart { name: 20, body: Code(CodePart { max_stack: 1, max_locals: 1, code: [42, 183, 0, 1, 177], rows: List { items: [] }, attributes: List { items: [] } }) }] } }, MemberPart { flags: 1, name: 11, desc: 6, attributes: List { items: [AttributePart { name: 20, body: Code(CodePart { max_stack: 1, max_locals: 2, code: [42, 182, 0, 7, 167, 0, 4, 76, 177], rows: List { items: [Row { start: 0, end: 4, handler: 7, catch_type: 12 }] }, attributes: List { items: [SkippedPart { name: 21, content: [0, 2, 71, 7, 0, 12, 0] }] } }) }] } }] }, attributes: List { items: [] }
    // a ConstantValue and another one, then a Code in the field, of a content that is none
    field | 0003 0002 00000002 0007 0002 00000002 ffff 0001 00000001 ff 0000 0000 | flags: 33, this_class: 4, super_class: 4, interfaces: List { items: [] }, fields: List { items: [MemberPart { flags: 8, name: 3, desc: 3, attributes: List { items: [AttributePart { name: 2, body: Constant(7) }, AttributePart { name: 2, body: Constant(65535) }, AttributePart { name: 1, body: Skipped([255]) }] } }] }, methods: List { items: [] }, attributes: List { items: [] }
    // an x, then names that are no text: a class, index 0, and an index out of the pool
    field | 0004 0003 00000001 01 0004 00000001 02 0000 00000000 0005 00000001 03 0000 0000 | flags: 33, this_class: 4, super_class: 4, interfaces: List { items: [] }, fields: List { items: [MemberPart { flags: 8, name: 3, desc: 3, attributes: List { items: [AttributePart { name: 3, body: Skipped([1]) }, AttributePart { name: 4, body: Skipped([2]) }, AttributePart { name: 0, body: Skipped([]) }, AttributePart { name: 5, body: Skipped([3]) }] } }] }, methods: List { items: [] }, attributes: List { items: [] }
    // a ConstantValue in a method; a Code with a row and two attributes, of the name Code too; a second Code
    method | 0003 0002 00000001 ff 0001 00000024 0001 0002 00000001 b1 0001 0000 0001 0000 0004 0002 0001 00000001 ee 0003 00000002 dddd 0001 0000000d 0000 0000 00000001 00 0000 0000 0000 | flags: 33, this_class: 4, super_class: 4, interfaces: List { items: [] }, fields: List { items: [] }, methods: List { items: [MemberPart { flags: 8, name: 3, desc: 3, attributes: List { items: [AttributePart { name: 2, body: Skipped([255]) }, AttributePart { name: 1, body: Code(CodePart { max_stack: 1, max_locals: 2, code: [177], rows: List { items: [Row { start: 0, end: 1, handler: 0, catch_type: 4 }] }, attributes: List { items: [SkippedPart { name: 1, content: [238] }, SkippedPart { name: 3, content: [221, 221] }] } }) }, AttributePart { name: 1, body: Code(CodePart { max_stack: 0, max_locals: 0, code: [0], rows: List { items: [] }, attributes: List { items: [] } }) }] } }] }, attributes: List { items: [] }
    // a Code and a ConstantValue in the class
    class | 0002 0001 00000000 0002 00000001 ff | flags: 33, this_class: 4, super_class: 4, interfaces: List { items: [] }, fields: List { items: [] }, methods: List { items: [] }, attributes: List { items: [AttributePart { name: 1, body: Skipped([]) }, AttributePart { name: 2, body: Skipped([255]) }] }
    // the first and the last major
    file | cafebabe ffff 002d 0001 0000 0000 0000 0000 0000 0000 0000 | flags: 0, this_class: 0, super_class: 0, interfaces: List { items: [] }, fields: List { items: [] }, methods: List { items: [] }, attributes: List { items: [] }
    file | cafebabe 0000 0034 0000 0000 0000 0000 0000 0000 0000 0000 | flags: 0, this_class: 0, super_class: 0, interfaces: List { items: [] }, fields: List { items: [] }, methods: List { items: [] }, attributes: List { items: [] }
";

#[test]
fn bytes_fall_into_the_parts_of_a_class_file(rt: HostRuntime) {
    let alloc = rt.alloc();
    for row in &rows(&rt, STRUCTURES) {
        let (start, rest, wanted) = three_of(&rt, row);
        let bytes = file(&rt, start, rest);
        let found = read_structure(alloc, &bytes).expect(&rt, "no fault").class;
        let printed = format!(in alloc; "{found:?}").expect(&rt, "memory");
        let wanted = format!(in alloc; "ClassPart {{ {wanted} }}").expect(&rt, "memory");
        assert!(rt; printed.as_str() == wanted.as_str(), "{row}");
    }
    one_structure();
    spelled();
    extra_bytes();
}

// The first fault, the start of a file, and the bytes behind it.
#[rattlefmt::skip]
const REFUSED: &str = "
    // a magic number that the end of the file cuts is not judged, nor is a version
    Truncated 0 | file |
    Truncated 3 | file | 504b03
    BadMagic 0 | file | 504b0304
    BadMagic 0 | file | 504b0304 0000 0000
    Truncated 4 | file | cafebabe
    Truncated 7 | file | cafebabe 0000 00
    BadVersion 6 | file | cafebabe 0000 002c
    BadVersion 6 | file | cafebabe 0003 0035 0002 02
    Truncated 8 | file | cafebabe ffff 002d
    Truncated 8 | file | cafebabe 0000 0034
    // faults of the pool
    Truncated 9 | file | cafebabe 0000 0034 00
    BadTag 10 | file | cafebabe 0000 0034 0002 02
    BadUtf8 13 | file | cafebabe 0000 0034 0002 01 0001 00
    // the class behind the pool: cut, and with a byte more
    Truncated 10 | file | cafebabe 0000 0034 0001
    Truncated 17 | file | cafebabe 0000 0034 0001 0000 0000 0000 00
    Truncated 21 | file | cafebabe 0000 0034 0001 0000 0000 0000 0002 0001 00
    Truncated 19 | file | cafebabe 0000 0034 0001 0000 0000 0000 0000 00
    Extra 53 | smallest | 00
    Extra 53 | smallest | cafebabe
    Extra 62 | field | 0000 0000 0000 ffff
    // a member is cut, and its attributes
    Truncated 57 | field | 00
    Truncated 60 | field | 0001 0002
    Truncated 63 | field | 0001 0002 000000
    Truncated 61 | field | 0000 0000 00
    // an attribute that passes the end of the file, of each name: nothing in it is judged
    Truncated 66 | field | 0001 0002 00000003 0007
    Truncated 76 | field | 0002 0002 00000002 0007 0003 00000005 00000000
    Truncated 70 | method | 0001 0001 ffffffff 0000 0000
    Truncated 63 | class | 0001 0001 00000004 000000
    // a ConstantValue of no byte, of one and of three, and the second of two
    BadLength 60 | field | 0001 0002 00000000 0000 0000
    BadLength 60 | field | 0001 0002 00000001 00 0000 0000
    BadLength 60 | field | 0001 0002 00000003 000700 0000 0000
    BadLength 68 | field | 0002 0002 00000002 0007 0002 00000003 000700 0000 0000
    // the fault before a cut is named
    BadLength 60 | field | 0001 0002 00000001 00
    // a Code of one byte more than its parts, of one less, of one byte, and of none
    BadLength 62 | method | 0001 0001 0000000e 0000 0000 00000001 b1 0000 0000 00 0000
    BadLength 62 | method | 0001 0001 0000000c 0000 0000 00000001 b1 0000 00 0000
    BadLength 62 | method | 0001 0001 00000001 00 0000
    BadLength 62 | method | 0001 0001 00000000 0000
    // a code_length of 0, of 65536, and of more, before a Code that does not fill its length
    BadLength 70 | method | 0001 0001 0000000c 0000 0000 00000000 0000 0000 0000
    BadLength 70 | method | 0001 0001 0000000d 0000 0000 00010000 b1 0000 0000 0000
    BadLength 70 | method | 0001 0001 00000008 0000 0000 ffffffff 0000
    // a code that passes its Code, by one and by 65530
    BadLength 62 | method | 0001 0001 0000000d 0000 0000 00000006 b1 0000 0000 0000
    BadLength 62 | method | 0001 0001 0000000d 0000 0000 0000ffff b1 0000 0000 0000
    // a row of an exception table that passes the Code
    BadLength 62 | method | 0001 0001 0000000d 0000 0000 00000001 b1 0001 0000 0000
    // an attribute of a Code: its content passes it, then its head, then the content of the second
    BadLength 81 | method | 0001 0001 00000014 0000 0000 00000001 b1 0000 0001 0003 00000002 ff 0000
    BadLength 81 | method | 0001 0001 00000014 0000 0000 00000001 b1 0000 0001 0003 ffffffff ff 0000
    BadLength 62 | method | 0001 0001 00000012 0000 0000 00000001 b1 0000 0001 0003 000000 0000
    BadLength 88 | method | 0001 0001 0000001a 0000 0000 00000001 b1 0000 0002 0003 00000001 ff 0003 00000001 0000
    // the second of two Codes
    BadLength 81 | method | 0002 0001 0000000d 0000 0000 00000001 b1 0000 0000 0001 00000000 0000
";

/// The kind and the place of the first fault of bytes.
fn fault_of<R: Abort + AllocGlobal>(rt: &R, bytes: &[u8]) -> String {
    let alloc = rt.alloc();
    match read_structure(alloc, bytes) {
        Err(ClassFault::Malformed(fault)) => {
            format!(in alloc; "{:?} {}", fault.what, fault.place).expect(rt, "memory")
        }
        _ => String::new(alloc),
    }
}

#[test]
fn a_class_file_out_of_form_has_its_first_fault(rt: HostRuntime) {
    let alloc = rt.alloc();
    for row in &rows(&rt, REFUSED) {
        let (wanted, start, rest) = three_of(&rt, row);
        let bytes = file(&rt, start, rest);
        assert!(rt; fault_of(&rt, &bytes).as_str() == wanted, "{row}");
    }
    let bytes = bytes_of(&rt, F_PLAIN);
    for n in 0..bytes.len() {
        let wanted = format!(in alloc; "Truncated {n}").expect(&rt, "memory");
        assert!(rt; fault_of(&rt, &bytes[..n]).as_str() == wanted.as_str());
    }
    for (fault, text) in [
        (ClassFault::from(AllocError), "no memory"),
        (ClassFault::from(PoolFault::NoMemory), "no memory"),
        (
            ClassFault::Malformed(Fault {
                place: 0,
                what: What::Extra,
            }),
            "malformed at 0: Extra",
        ),
    ] {
        let shown = format!(in alloc; "{fault}").expect(&rt, "memory");
        assert!(rt; shown.as_str() == text);
    }
}

// A class of one text, "Code" at 1, up to its first interface at place 25.
const MANY: &str = "cafebabe 0000 0034 0002 01 0004 436f6465 0000 0000 0000 ffff";

// No field, and one method up to the code of its Code.
const LONG_CODE: &str = "0000 0001 0000 0000 0000 0001 0001 0001000b 0000 0000 0000ffff";

#[test]
fn the_largest_counts_are_read(rt: HostRuntime) {
    let alloc = rt.alloc();
    // Interfaces of index 0, code of byte 0, and attributes of name 0 and length 0: 65,535 of each.
    let mut bytes = bytes_of(&rt, MANY);
    bytes.resize(131_095, 0).expect(&rt, "memory");
    bytes
        .extend_from_slice(&bytes_of(&rt, LONG_CODE))
        .expect(&rt, "memory");
    bytes.resize(196_660, 0).expect(&rt, "memory");
    bytes.extend_from_slice(&[255, 255]).expect(&rt, "memory");
    bytes.resize(589_872, 0).expect(&rt, "memory");
    let class = read_structure(alloc, &bytes).expect(&rt, "no fault").class;
    assert!(rt; class.interfaces.length() == 65535 && class.attributes.length() == 65535);
    let method = class.methods.get(0).expect(&rt, "a method");
    let attribute = method.attributes.get(0).expect(&rt, "a Code");
    assert!(rt; matches!(&attribute.body, BodyPart::Code(code) if code.code.len() == 65535));
}
