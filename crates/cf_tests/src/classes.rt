// Class files as values (JVM Specification SE 8, 4.1): one that javac wrote, the smallest one and its truncations, and damaged
// ones, whose first faults were worked out by hand.
use crate::bodies::large;
use crate::names::method;
use crate::structures::{F_PLAIN, SMALLEST};
use crate::tables::{bytes_of, cut, number_of, rows, three_of, two_of};
use cf_class::{Body, ClassFile, Member, code_in, member_in, one_class, read_class};
use cf_structure::ClassFault;
use std::process::Abort;

/// The file of javac with bytes in the place of its own, or behind them: places with the bytes that stand there.
pub fn changed<R: Abort + AllocGlobal>(rt: &R, changes: &str) -> Vec<u8> {
    let mut bytes = bytes_of(rt, F_PLAIN);
    for change in changes.split_whitespace() {
        let (place, digits) = cut(rt, change, ':');
        let mut place = usize::from(number_of(rt, place));
        for byte in &bytes_of(rt, digits) {
            if place < bytes.len() {
                bytes[place] = *byte;
            } else {
                bytes.push(*byte).expect(rt, "memory");
            }
            place = place.saturating_add(1);
        }
    }
    bytes
}

/// A part of a class, as it is printed.
fn part_of<R: Abort + AllocGlobal>(rt: &R, class: &ClassFile, part: &str) -> String {
    let alloc = rt.alloc();
    let printed = match part {
        "version" => format!(in alloc; "{} {}", class.minor, class.major),
        "flags" => format!(in alloc; "{}", class.flags),
        "pool" => format!(in alloc; "{:?}", class.pool),
        "this_class" => format!(in alloc; "{:?}", class.this_class),
        "super_class" => format!(in alloc; "{:?}", class.super_class),
        "interfaces" => format!(in alloc; "{:?}", class.interfaces),
        "fields" => format!(in alloc; "{:?}", class.fields),
        "methods" => format!(in alloc; "{:?}", class.methods),
        _ => format!(in alloc; "{:?}", class.attributes),
    };
    printed.expect(rt, "memory")
}

// The changes of the file of javac, a part, and what it is.
#[rattlefmt::skip]
const PARTS: &str = "
    | version | 0 52
    | flags | 32
    | this_class | Named { index: 8, name: Name { text: \"F\" } }
    | super_class | Named { index: 2, name: Name { text: \"java/lang/Object\" } }
    | interfaces | List { items: [Named { index: 14, name: Name { text: \"java/lang/Runnable\" } }] }
    | fields | List { items: [Member { flags: 24, name: Named { index: 16, name: Name { text: \"K\" } }, desc: Named { index: 17, name: Name { text: \"I\" } }, attributes: List { items: [Attribute { name: Named { index: 18, name: Name { text: \"ConstantValue\" } }, body: Constant(19) }] } }] }
    | methods | List { items: [Member { flags: 0, name: Named { index: 5, name: Name { text: \"<init>\" } }, desc: Named { index: 6, name: Name { text: \"()V\" } }, attributes: List { items: [Attribute { name: Named { index: 20, name: Name { text: \"Code\" } }, body: Code(Code { max_stack: 1, max_locals: 1, code: List { items: [Placed { pc: 0, instr: Local(Load(Reference, Short(0))) }, Placed { pc: 1, instr: Call(Special(1)) }, Placed { pc: 4, instr: Return(Nothing) }] }, rows: List { items: [] }, attributes: List { items: [] } }) }] } }, Member { flags: 1, name: Named { index: 11, name: Name { text: \"run\" } }, desc: Named { index: 6, name: Name { text: \"()V\" } }, attributes: List { items: [Attribute { name: Named { index: 20, name: Name { text: \"Code\" } }, body: Code(Code { max_stack: 1, max_locals: 2, code: List { items: [Placed { pc: 0, instr: Local(Load(Reference, Short(0))) }, Placed { pc: 1, instr: Call(Virtual(7)) }, Placed { pc: 4, instr: Jump(Goto(8)) }, Placed { pc: 7, instr: Local(Store(Reference, Short(1))) }, Placed { pc: 8, instr: Return(Nothing) }] }, rows: List { items: [Row { start: 0, end: 4, handler: 7, catch_type: 12 }] }, attributes: List { items: [Skipped { name: Named { index: 21, name: Name { text: \"StackMapTable\" } }, content: List { items: [0, 2, 71, 7, 0, 12, 0] } }] } }) }] } }] }
    | attributes | List { items: [] }
    // a Code in the class, of a content that is none: it does not count
    294:00010014000000030a0b0c | attributes | List { items: [Attribute { name: Named { index: 20, name: Name { text: \"Code\" } }, body: Skipped(List { items: [10, 11, 12] }) }] }
    // the field's ConstantValue under another name, 
    197:0015 | fields | List { items: [Member { flags: 24, name: Named { index: 16, name: Name { text: \"K\" } }, desc: Named { index: 17, name: Name { text: \"I\" } }, attributes: List { items: [Attribute { name: Named { index: 21, name: Name { text: \"StackMapTable\" } }, body: Skipped(List { items: [0, 19] }) }] } }] }
    4:00ff002d | version | 255 45
";

#[test]
fn a_class_file_is_a_value_with_its_names_and_instructions(rt: HostRuntime) {
    let alloc = rt.alloc();
    for row in &rows(&rt, PARTS) {
        let (changes, part, wanted) = three_of(&rt, row);
        let class = read_class(alloc, &changed(&rt, changes)).expect(&rt, "a class");
        let found = part_of(&rt, &class, part);
        assert!(rt; found.as_str() == wanted, "{row}: {found}");
    }
    one_class();
}

// A name, a descriptor, and how many instructions the Code of the member has that the file of javac declares under them.
const DECLARED: &str = "
    run | ()V | 5
    <init> | ()V | 3
    K | I | no code
    run | ()I | nothing
    walk | ()V | nothing
    K | ()V | nothing
";

fn code_of<R: Abort + AllocGlobal>(rt: &R, member: &Member) -> String {
    let printed = match code_in(member.attributes.as_slice()) {
        Some(code) => format!(in rt.alloc(); "{}", code.code.length()),
        None => format!(in rt.alloc(); "no code"),
    };
    printed.expect(rt, "memory")
}

#[test]
fn a_member_is_found_by_its_name_and_its_descriptor(rt: HostRuntime) {
    let class = read_class(rt.alloc(), &changed(&rt, "")).expect(&rt, "a class");
    for row in &rows(&rt, DECLARED) {
        let (text, desc, wanted) = three_of(&rt, row);
        let asked = method(&rt, "F", text, desc);
        let found = member_in(class.methods.as_slice(), &asked.name, &asked.desc);
        let field = member_in(class.fields.as_slice(), &asked.name, &asked.desc);
        match found.or(field) {
            Some(member) => assert!(rt; code_of(&rt, member).as_str() == wanted, "{row}"),
            None => assert!(rt; wanted == "nothing", "{row}"),
        }
    }
}

// What stands at the indices of the smallest class.
const SMALLEST_POOL: &str =
    "Pool { entries: List { items: [Unusable, Class(2), Utf8(List { items: [84] }), Class(4), Utf8(List { items: [106, 97, 118, 97, 47, 108, 97, 110, 103, 47, 79, 98, 106, 101, 99, 116] })] } }";

/// The kind and the place of the first fault of a file, or `a class`.
fn read<R: Abort + AllocGlobal>(rt: &R, bytes: &[u8]) -> String {
    let alloc = rt.alloc();
    match read_class(alloc, bytes) {
        Ok(_) => String::from_str(alloc, "a class").expect(rt, "memory"),
        Err(ClassFault::Malformed(fault)) => {
            format!(in alloc; "{:?} {}", fault.what, fault.place).expect(rt, "memory")
        }
        Err(ClassFault::NoMemory) => String::new(alloc),
    }
}

#[test]
fn the_smallest_class_is_read_and_each_of_its_53_fronts_is_cut(rt: HostRuntime) {
    let alloc = rt.alloc();
    let bytes = bytes_of(&rt, SMALLEST);
    let class = read_class(alloc, &bytes).expect(&rt, "a class");
    assert!(rt; part_of(&rt, &class, "pool").as_str() == SMALLEST_POOL);
    assert!(rt; class.this_class.name.as_str() == "T");
    assert!(rt; class.super_class.name.as_str() == "java/lang/Object");
    assert!(rt; class.interfaces.is_empty() && class.attributes.is_empty());
    assert!(rt; class.fields.is_empty() && class.methods.is_empty());
    assert!(rt; bytes.len() == 53);
    for length in 0..53 {
        let wanted = format!(in alloc; "Truncated {length}").expect(&rt, "memory");
        assert!(rt; read(&rt, &bytes[..length]).as_str() == wanted.as_str());
    }
}

// The changes of the file of javac, and its first fault.
#[rattlefmt::skip]
const REFUSED: &str = "
    | a class
    // names, descriptors and indices
    181:0000 | BadIndex 181
    179:0002 181:0004 | BadIndex 181
    185:0010 | BadIndex 185
    191:0004 | BadName 191
    193:0004 | BadDesc 193
    203:0014 | BadIndex 203
    238:0101 | CodeRule 238
    240:0005 | Duplicate 238
    281:0000 | BadIndex 281
    // code
    229:ca | BadOpcode 229
    231:0013 | BadIndex 230
    265:0005 | BadTarget 264
    275:0002 | BadTarget 271
    // a name behind code that is at fault, and a length and a byte more behind both: an earlier pass comes first
    229:ca 240:0013 | BadIndex 240
    229:ca 240:0013 248:0000002b | BadLength 248
    229:ca 240:0013 248:00000027 | BadLength 283
    229:ca 240:0013 296:00 | Extra 296
    // faults of one pass: the one of the least place
    181:0000 240:0013 | BadIndex 181
    229:ca 275:0002 | BadOpcode 229
    231:0013 233:ca | BadIndex 230
";

#[test]
fn a_damaged_class_has_the_first_fault_of_the_first_pass(rt: HostRuntime) {
    for row in &rows(&rt, REFUSED) {
        let (changes, wanted) = two_of(&rt, row);
        let found = read(&rt, &changed(&rt, changes));
        assert!(rt; found.as_str() == wanted, "{row}: {found}");
    }
}

#[test]
fn a_class_of_65535_instructions_and_rows_is_read(rt: HostRuntime) {
    let class = read_class(rt.alloc(), &large(&rt, 65535)).expect(&rt, "a class");
    let method = class.methods.get(0).expect(&rt, "a method");
    let attribute = method.attributes.get(0).expect(&rt, "an attribute");
    assert!(rt; attribute.name.name.as_str() == "Code");
    match &attribute.body {
        Body::Code(code) => {
            assert!(rt; code.code.length() == 65535);
            assert!(rt; code.rows.length() == 65535);
        }
        _ => assert!(rt; false),
    }
}
