// The judging of names, descriptors and indices: class files whose first fault was worked out by hand from the Specification
// (JVM Specification SE 8, 4.1 to 4.7).
use crate::entries::repeated;
use crate::structures::SMALLEST;
use crate::tables::{bytes_of, four_of, number_of, rows, three_of};
use cf_judge::{
    Form, Wanted, form_decided, judge, one_first, one_judgement, one_name, plain_class_decided,
    wrong_index,
};
use cf_pool::What;
use cf_structure::{ClassFault, read_structure};
use std::process::Abort;

/// The kind and the place of the first fault of a file, or `in order`.
fn judged<R: Abort + AllocGlobal>(rt: &R, bytes: &[u8]) -> String {
    let alloc = rt.alloc();
    let structure = read_structure(alloc, bytes).expect(rt, "a structure");
    match judge(alloc, &structure) {
        Ok(_) => String::from_str(alloc, "in order").expect(rt, "memory"),
        Err(ClassFault::Malformed(fault)) => {
            format!(in alloc; "{:?} {}", fault.what, fault.place).expect(rt, "memory")
        }
        Err(ClassFault::NoMemory) => String::new(alloc),
    }
}

// The entries 1 to 15 of a pool, from place 10 up to place 90: "T", the class T, "x", "I", "()V", "Code", "ConstantValue", "[I",
// the class [I, the int 0, the string "x", the types of a field and of a method x, the field T.x and the method x of [I.
const ENTRIES: &str = "
    010001540700010100017801000149010003282956010004436f646501000d436f6e7374616e7456616c75650100025b4907000803000000
    000800030c000300040c00030005090002000c0a0009000d
";

// The class T behind the pool, its own superclass, without members.
const PLAIN: &str = "0021 0002 0002 0000 0000 0000 0000";

/// A file up to the end of its pool, by the count of the pool and what follows its first 15 entries.
fn front<R: Abort + AllocGlobal>(rt: &R, count: u16, more: &[u8]) -> Vec<u8> {
    let mut bytes = bytes_of(rt, "cafebabe 00000034");
    for part in [&count.to_be_bytes(), bytes_of(rt, ENTRIES).as_slice(), more] {
        bytes.extend_from_slice(part).expect(rt, "memory");
    }
    bytes
}

// The count of a pool, what follows its first 15 entries from place 90 on, what stands behind the pool, and the first fault.
#[rattlefmt::skip]
const FILES: &str = "
    16 |  | plain | in order
    // A class whose name is a class, is itself, is out of the pool, is 0.
    17 | 070002 | plain | BadIndex 91
    17 | 070010 | plain | BadIndex 91
    17 | 070011 | plain | BadIndex 91
    17 | 070000 | plain | BadIndex 91
    // Names of classes: `()V` is one, ``, `a.b`, `a//b`, `[Lx;`, `[x`, `[` and `a;` are not, but for the array.
    17 | 070005 | plain | in order
    18 | 070011010000 | plain | BadName 91
    18 | 070011010003612e62 | plain | BadName 91
    18 | 070011010003612f62 | plain | in order
    18 | 070011010004612f2f62 | plain | BadName 91
    18 | 0700110100022f61 | plain | BadName 91
    18 | 070011010002612f | plain | BadName 91
    18 | 0700110100045b4c783b | plain | in order
    18 | 0700110100025b78 | plain | BadName 91
    // The character 0 and a surrogate that stands alone; a pair of surrogates is a character.
    18 | 070011010002c080 | plain | BadName 91
    18 | 070011010003eda080 | plain | BadName 91
    18 | 070011010006eda080edb080 | plain | in order
    // A string has any text.
    18 | 080011010003eda080 | plain | in order
    17 | 080002 | plain | BadIndex 91
    // A field of an array, of a text, with the type of a method; a method with the type of a field, of a class as its type.
    17 | 090009000c | plain | BadIndex 91
    17 | 090001000c | plain | BadIndex 91
    17 | 090002000d | plain | BadDesc 93
    17 | 0a0002000c | plain | BadDesc 93
    17 | 0b00020002 | plain | BadIndex 93
    // Names and types: the name `[I`, the descriptor `x`, the name `<x>`, which a field may have and a method not.
    17 | 0c00080004 | plain | BadName 91
    17 | 0c00030003 | plain | BadDesc 93
    17 | 0c00030002 | plain | BadIndex 93
    19 | 09000200110c001200040100033c783e | plain | in order
    19 | 0a000200110c001200050100033c783e | plain | BadName 93
    19 | 0a000200110c001200040100033c783e | plain | BadName 93
    19 | 0a000200110c001200050100063c696e69743e | plain | in order
    // A type that is out of order is at fault itself, and the reference to it is not.
    18 | 0a000200110c00020004 | plain | BadIndex 96
    // What is not judged.
    17 | 0fffffff | plain | in order
    18 | 10ffff12ffffffff | plain | in order
    // this_class is a text, an array; super_class is 0, an array; a second interface is an array.
    16 | | 0021 0001 0002 0000 0000 0000 0000 | BadIndex 92
    16 | | 0021 0009 0002 0000 0000 0000 0000 | BadIndex 92
    16 | | 0021 0002 0000 0000 0000 0000 0000 | BadIndex 94
    16 | | 0021 0002 0009 0000 0000 0000 0000 | BadIndex 94
    16 | | 0021 0002 0002 0002 0002 0009 0000 0000 0000 | BadIndex 100
    16 | | 0021 0002 0002 0002 0002 0002 0000 0000 0000 | in order
    // A field x of type I, with the name `[I`, with the descriptor `()V`, and with no text for each.
    16 | | 0021 0002 0002 0000 0001 0000 0003 0004 0000 0000 0000 | in order
    16 | | 0021 0002 0002 0000 0001 0000 0008 0004 0000 0000 0000 | BadName 102
    16 | | 0021 0002 0002 0000 0001 0000 0003 0005 0000 0000 0000 | BadDesc 104
    16 | | 0021 0002 0002 0000 0001 0000 0002 0005 0000 0000 0000 | BadIndex 102
    16 | | 0021 0002 0002 0000 0001 0000 0003 0002 0000 0000 0000 | BadIndex 104
    // Two fields x, of types I and [I, and twice of type I.
    16 | | 0021 0002 0002 0000 0002 0000 0003 0004 0000 0000 0003 0008 0000 0000 0000 | in order
    16 | | 0021 0002 0002 0000 0002 0000 0003 0004 0000 0000 0003 0004 0000 0000 0000 | Duplicate 108
    // A ConstantValue that fits, one that does not, and a second one that does not.
    16 | | 0021 0002 0002 0000 0001 0000 0003 0004 0001 0007 0000 0002 000a 0000 0000 | in order
    16 | | 0021 0002 0002 0000 0001 0000 0003 0004 0001 0007 0000 0002 000b 0000 0000 | BadIndex 114
    16 | | 0021 0002 0002 0000 0001 0000 0003 0008 0001 0007 0000 0002 000a 0000 0000 | BadIndex 114
    16 | | 0021 0002 0002 0000 0001 0000 0003 0004 0002 0007 0000 0002 000a 0007 0000 0002 0000 0000 0000 | BadIndex 122
    // The name of an attribute of a field is no text. A Code of a field is passed over, and a ConstantValue of a class.
    16 | | 0021 0002 0002 0000 0001 0000 0003 0004 0001 000a 0000 0000 0000 0000 | BadIndex 108
    16 | | 0021 0002 0002 0000 0001 0000 0003 0004 0001 0006 0000 0000 0000 0000 | in order
    16 | | 0021 0002 0002 0000 0000 0000 0001 0007 0000 0002 ffff | in order
    // Methods without a Code: without flags, NATIVE, ABSTRACT.
    16 | | 0021 0002 0002 0000 0000 0001 0008 0003 0005 0000 0000 | CodeRule 102
    16 | | 0021 0002 0002 0000 0000 0001 0108 0003 0005 0000 0000 | in order
    16 | | 0021 0002 0002 0000 0000 0001 0408 0003 0005 0000 0000 | in order
    // With the descriptor of a field, and twice the same, of which the second has no Code either.
    16 | | 0021 0002 0002 0000 0000 0001 0408 0003 0004 0000 0000 | BadDesc 106
    16 | | 0021 0002 0002 0000 0000 0002 0408 0003 0005 0000 0008 0003 0005 0000 0000 | Duplicate 110
    // A Code where none is, and where ABSTRACT is set.
    16 | | 0021 0002 0002 0000 0000 0001 0008 0003 0005 0001 0006 0000 000d 0000 0000 0000 0001 b100 0000 0000 00 | in order
    16 | | 0021 0002 0002 0000 0000 0001 0408 0003 0005 0001 0006 0000 000d 0000 0000 0000 0001 b100 0000 0000 00 | CodeRule 102
    // A row whose catch type is 0, is an array, and an attribute of the Code whose name is 0.
    16 | | 0021 0002 0002 0000 0000 0001 0008 0003 0005 0001 0006 0000 0015 0000 0000 0000 0001 b100 0100 0000 0100 0000 0000 0000 00 | in order
    16 | | 0021 0002 0002 0000 0000 0001 0008 0003 0005 0001 0006 0000 0015 0000 0000 0000 0001 b100 0100 0000 0100 0000 0900 0000 00 | BadIndex 133
    16 | | 0021 0002 0002 0000 0000 0001 0008 0003 0005 0001 0006 0000 0013 0000 0000 0000 0001 b100 0000 0100 0000 0000 0000 00 | BadIndex 129
    // The name of an attribute has the character 0, a surrogate that stands alone, no character at all.
    17 | 010002c080 | 0021 0002 0002 0000 0000 0000 0001 0010 0000 0000 | BadName 109
    17 | 010003eda080 | 0021 0002 0002 0000 0000 0000 0001 0010 0000 0000 | BadName 110
    17 | 010000 | 0021 0002 0002 0000 0000 0000 0001 0010 0000 0000 | in order
    // Fields of the types D, J, F, Z, B, C, S and String, each with a constant that fits, and one of type D with an int.
    19 | 01000144060000000000000000 | 0021 0002 0002 0000 0001 0000 0003 0010 0001 0007 0000 0002 0011 0000 0000 | in order
    19 | 01000144060000000000000000 | 0021 0002 0002 0000 0001 0000 0003 0010 0001 0007 0000 0002 000a 0000 0000 | BadIndex 127
    19 | 0100014a050000000000000000 | 0021 0002 0002 0000 0001 0000 0003 0010 0001 0007 0000 0002 0011 0000 0000 | in order
    18 | 010001460400000000 | 0021 0002 0002 0000 0001 0000 0003 0010 0001 0007 0000 0002 0011 0000 0000 | in order
    17 | 0100015a | 0021 0002 0002 0000 0001 0000 0003 0010 0001 0007 0000 0002 000a 0000 0000 | in order
    17 | 01000142 | 0021 0002 0002 0000 0001 0000 0003 0010 0001 0007 0000 0002 000a 0000 0000 | in order
    17 | 01000143 | 0021 0002 0002 0000 0001 0000 0003 0010 0001 0007 0000 0002 000a 0000 0000 | in order
    17 | 01000153 | 0021 0002 0002 0000 0001 0000 0003 0010 0001 0007 0000 0002 000a 0000 0000 | in order
    17 | 0100124c6a6176612f6c616e672f537472696e673b | 0021 0002 0002 0000 0001 0000 0003 0010 0001 0007 0000 0002 000b 0000 0000 | in order
    // A method `<clinit>` without a Code, an abstract one of the name `<x>`, and one with two Codes.
    17 | 0100083c636c696e69743e | 0021 0002 0002 0000 0000 0001 0008 0010 0005 0000 0000 | CodeRule 113
    17 | 0100033c783e | 0021 0002 0002 0000 0000 0001 0400 0010 0005 0000 0000 | BadName 110
    16 |  | 0021 0002 0002 0000 0000 0001 0008 0003 0005 0002 0006 0000 000d 0000 0000 0000 0001 b100 0000 0000 0600 0000 0d00 0000 0000 0000 01b1 0000 0000 0000 | CodeRule 102
    // Two fields of one name and one type, by the texts: the names stand at two indices.
    17 | 01000178 | 0021 0002 0002 0000 0002 0000 0003 0004 0000 0000 0010 0004 0000 0000 0000 | Duplicate 112
";

// A byte of the smallest class, what it is made, and the first fault.
const SMALLEST_WITH: &str = "
    // this_class is 0, and super_class is 0
    42 | 0 | BadIndex 41
    44 | 0 | BadIndex 43
    // the name of the class is no text, and then out of the pool
    12 | 3 | BadIndex 11
    12 | 5 | BadIndex 11
    // as it was
    12 | 2 | in order
";

#[test]
fn a_class_file_is_in_order_or_has_its_first_fault(rt: HostRuntime) {
    one_judgement();
    one_first();
    plain_class_decided();
    form_decided();
    one_name();
    for row in &rows(&rt, FILES) {
        let (count, more, class, wanted) = four_of(&rt, row);
        let mut bytes = front(&rt, number_of(&rt, count), &bytes_of(&rt, more));
        let class = if class == "plain" { PLAIN } else { class };
        bytes
            .extend_from_slice(&bytes_of(&rt, class))
            .expect(&rt, "memory");
        assert!(rt; judged(&rt, &bytes).as_str() == wanted, "{row}");
    }
    for row in &rows(&rt, SMALLEST_WITH) {
        let (place, byte, wanted) = three_of(&rt, row);
        let mut bytes = bytes_of(&rt, SMALLEST);
        let place = usize::from(number_of(&rt, place));
        let byte = byte.parse::<u8>().expect(&rt, "a byte");
        *bytes.get_mut(place).expect(&rt, "a place") = byte;
        assert!(rt; judged(&rt, &bytes).as_str() == wanted, "{row}");
    }
}

#[test]
fn texts_tell_what_an_index_finds(rt: HostRuntime) {
    let alloc = rt.alloc();
    let bytes = bytes_of(&rt, SMALLEST);
    let structure = read_structure(alloc, &bytes).expect(&rt, "a structure");
    let pool = structure.pool.entries.as_slice();
    let judged = judge(alloc, &structure).expect(&rt, "no fault");
    let texts = judged.as_slice();
    let descriptor = Wanted::Formed(Form::MethodDescriptor);
    assert!(rt; wrong_index(pool, texts, Wanted::PlainClass, 1) == None);
    assert!(rt; wrong_index(pool, texts, Wanted::PlainClass, 2) == Some(What::BadIndex));
    assert!(rt; wrong_index(pool, texts, descriptor, 2) == Some(What::BadDesc));
    assert!(rt; wrong_index(pool, texts, Wanted::CatchType, 0) == None);
    let names = texts.iter().filter(
        |text| matches!(text, Some(text) if text.forms.has(Form::Class)),
    );
    assert!(rt; names.count() == 2);
}

/// Puts the entry of a text at the end of a pool.
fn put_text<R: Abort>(rt: &R, pool: &mut Vec<u8>, text: &str) {
    let length = u16::try_from(text.len()).expect(rt, "a short text");
    pool.push(1).expect(rt, "memory");
    pool.extend_from_slice(&length.to_be_bytes())
        .expect(rt, "memory");
    pool.extend_from_slice(text.as_bytes()).expect(rt, "memory");
}

/// Puts an abstract method at the end of a class.
fn put_method<R: Abort>(rt: &R, class: &mut Vec<u8>, name: u16, desc: u16) {
    for part in [0x0400, name, desc, 0] {
        class
            .extend_from_slice(&part.to_be_bytes())
            .expect(rt, "memory");
    }
}

#[test]
fn the_second_of_many_methods_is_found(rt: HostRuntime) {
    // The names of 1 to 255 letters at 16 to 270, the descriptors of 0 to 255 parameters at 271 to 526, and the first name again.
    let mut pool = Vec::new(rt.alloc());
    for count in 1..256 {
        put_text(&rt, &mut pool, repeated(&rt, "", "m", count, "").as_str());
    }
    for count in 0..256 {
        put_text(
            &rt,
            &mut pool,
            repeated(&rt, "(", "I", count, ")V").as_str(),
        );
    }
    put_text(&rt, &mut pool, "m");
    // A method for each name and each descriptor, and behind these 65,280 one that is the first again.
    let mut bytes = front(&rt, 528, &pool);
    bytes
        .extend_from_slice(&bytes_of(&rt, "0021 0002 0002 0000 0000 ff01"))
        .expect(&rt, "memory");
    for name in 16..271 {
        for desc in 271..527 {
            put_method(&rt, &mut bytes, name, desc);
        }
    }
    let wanted = format!(in rt.alloc(); "Duplicate {}", bytes.len()).expect(&rt, "memory");
    put_method(&rt, &mut bytes, 527, 271);
    bytes.extend_from_slice(&[0, 0]).expect(&rt, "memory");
    assert!(rt; judged(&rt, &bytes).as_str() == wanted.as_str());
}
