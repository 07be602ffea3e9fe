// Thin methods of class files that javac wrote, whole and damaged.
use crate::names::method;
use crate::tables::{bytes_of, cut, number_of, rows, three_of};
use cf_class::read_class;
use cf_thin::{ThinMethod, read_thin};
use std::process::Abort;

// javac --release 8 -g:none of `class T { static void f(int a, int b) { if (a == b) throw null; } }`.
const T_PLAIN: &str = "
    cafebabe00000034000d0a000200030700040c000500060100106a6176612f6c616e672f4f626a6563740100063c696e69743e0100032829
    5607000801000154010004436f646501000166010005284949295601000d537461636b4d61705461626c6500200007000200000000000200
    0000050006000100090000001100010001000000052ab70001b1000000000008000a000b000100090000001d00020002000000081a1ba000
    0501bfb100000001000c000000030001070000
";

// The same without -g:none: LineNumberTable and SourceFile besides.
const T_LINES: &str = "
    cafebabe0000003400100a000200030700040c000500060100106a6176612f6c616e672f4f626a6563740100063c696e69743e0100032829
    5607000801000154010004436f646501000f4c696e654e756d6265725461626c6501000166010005284949295601000d537461636b4d6170
    5461626c6501000a536f7572636546696c65010006542e6a617661002000070002000000000002000000050006000100090000001d000100
    01000000052ab70001b100000001000a000000060001000000010008000b000c000100090000002900020002000000081a1ba0000501bfb1
    00000002000a00000006000100000002000d000000030001070001000e00000002000f
";

// javac --release 8 -g:none of `class L { static long big() { return 1234567890123L; } static int g(int a) { return a; } }`.
const L_PLAIN: &str = "
    cafebabe0000003400100a000200030700040c000500060100106a6176612f6c616e672f4f626a6563740100063c696e69743e0100032829
    56050000011f71fb04cb07000a0100014c010004436f646501000362696701000328294a0100016701000428492949002000090002000000
    0000030000000500060001000b0000001100010001000000052ab70001b1000000000008000c000d0001000b000000100002000000000004
    140007ad000000000008000e000f0001000b0000000e00010001000000021aac000000000000
";

// The same without -g:none.
const L_LINES: &str = "
    cafebabe0000003400130a000200030700040c000500060100106a6176612f6c616e672f4f626a6563740100063c696e69743e0100032829
    56050000011f71fb04cb07000a0100014c010004436f646501000f4c696e654e756d6265725461626c6501000362696701000328294a0100
    01670100042849294901000a536f7572636546696c650100064c2e6a6176610020000900020000000000030000000500060001000b000000
    1d00010001000000052ab70001b100000001000c000000060001000000010008000d000e0001000b0000001c0002000000000004140007ad
    00000001000c000000060001000000020008000f00100001000b0000001a00010001000000021aac00000001000c00000006000100000003
    00010011000000020012
";

// javac --release 8 -g:none of a class with constants of each tag: `class M { static float e; static double all(Runnable r)
// { e = 2.5f; r.run(); r = () -> {}; return 100000 + e + 0.1 + "a".length(); } static int x(int a) { return a ^ 1; } }`.
const M_PLAIN: &str = "
    cafebabe0000003400390a000200030700040c000500060100106a6176612f6c616e672f4f626a6563740100063c696e69743e0100032829
    560440200000090009000a07000b0c000c000d0100014d01000165010001460b000f00100700110c001200060100126a6176612f6c616e67
    2f52756e6e61626c6501000372756e12000000140c0012001501001628294c6a6176612f6c616e672f52756e6e61626c653b0447c3500006
    3fb999999999999a08001a010001610a001c001d07001e0c001f00200100106a6176612f6c616e672f537472696e670100066c656e677468
    010003282949010004436f6465010003616c6c010017284c6a6176612f6c616e672f52756e6e61626c653b29440100017801000428492949
    01000c6c616d62646124616c6c2430010010426f6f7473747261704d6574686f64730f0600290a002a002b07002c0c002d002e0100226a61
    76612f6c616e672f696e766f6b652f4c616d6264614d657461666163746f727901000b6d657461666163746f72790100cc284c6a6176612f
    6c616e672f696e766f6b652f4d6574686f6448616e646c6573244c6f6f6b75703b4c6a6176612f6c616e672f537472696e673b4c6a617661
    2f6c616e672f696e766f6b652f4d6574686f64547970653b4c6a6176612f6c616e672f696e766f6b652f4d6574686f64547970653b4c6a61
    76612f6c616e672f696e766f6b652f4d6574686f6448616e646c653b4c6a6176612f6c616e672f696e766f6b652f4d6574686f6454797065
    3b294c6a6176612f6c616e672f696e766f6b652f43616c6c536974653b1000060f0600310a000900320c0026000601000c496e6e6572436c
    61737365730700350100256a6176612f6c616e672f696e766f6b652f4d6574686f6448616e646c6573244c6f6f6b757007003701001e6a61
    76612f6c616e672f696e766f6b652f4d6574686f6448616e646c65730100064c6f6f6b7570002000090002000000010008000c000d000000
    04000000050006000100210000001100010001000000052ab70001b100000000000800220023000100210000003000040001000000241207
    b300082ab9000e0100ba001300004b1216b20008628d140017631219b6001b8763af00000000000800240025000100210000001000020001
    000000041a0482ac00000000100a00260006000100210000000d0000000000000001b100000000000200270000000c000100280003002f00
    30002f00330000000a00010034003600380019
";

fn read<R: Abort + AllocGlobal>(
    rt: &R,
    bytes: &[u8],
    entry: (&str, &str, &str),
) -> Option<ThinMethod> {
    let alloc = rt.alloc();
    let (class, name, desc) = entry;
    match read_class(alloc, bytes) {
        Ok(file) => read_thin(alloc, &file, &method(rt, class, name, desc)).expect(rt, "memory"),
        Err(_) => None,
    }
}

// The places of the code and the number of locals of a method, as they are printed. Nothing where it is not thin.
#[rattlefmt::skip]
const METHODS: [(&str, (&str, &str, &str), &str); 13] = [
    (T_PLAIN, ("T", "f", "(II)V"), T_CODE),
    (T_LINES, ("T", "f", "(II)V"), T_CODE),
    (L_PLAIN, ("L", "g", "(I)I"), "[Some((Iload(0), 1)), Some((Ireturn, 1))] 1"),
    (L_LINES, ("L", "g", "(I)I"), "[Some((Iload(0), 1)), Some((Ireturn, 1))] 1"),
    (M_PLAIN, ("M", "x", "(I)I"), "[Some((Iload(0), 1)), Some((Iconst(1), 1)), Some((Ixor, 1)), Some((Ireturn, 1))] 1"),
    (T_PLAIN, ("U", "f", "(II)V"), ""),
    (T_PLAIN, ("T", "g", "(II)V"), ""),
    (T_PLAIN, ("T", "f", "(II)I"), ""),
    (T_PLAIN, ("T", "f", "(I)V"), ""),
    (T_PLAIN, ("T", "<init>", "()V"), ""),
    (L_PLAIN, ("L", "big", "()J"), ""),
    (L_LINES, ("L", "g", ""), ""),
    ("", ("T", "f", "(II)V"), ""),
];

const T_CODE: &str =
    "[Some((Iload(0), 1)), Some((Iload(1), 1)), Some((IfIcmpne(7), 3)), None, None, Some((AconstNull, 1)), Some((Athrow, 1)), Some((Return, 1))] 2";

#[test]
fn thin_methods_are_found(rt: HostRuntime) {
    let alloc = rt.alloc();
    for (file, entry, text) in METHODS {
        let printed = match read(&rt, &bytes_of(&rt, file), entry) {
            Some(found) => format!(in alloc;
                "{:?} {}",
                found.code.as_slice(),
                found.max_locals
            ).expect(&rt, "memory"),
            None => String::new(alloc),
        };
        assert!(rt; printed.as_str() == text);
    }
}

/// Bytes with other ones in place of a range, by a word like `8-10:000c`.
fn edited<R: Abort + AllocGlobal>(rt: &R, bytes: &[u8], edit: &str) -> Vec<u8> {
    let alloc = rt.alloc();
    let (range, put) = cut(rt, edit, ':');
    let (from, to) = cut(rt, range, '-');
    let (from, to) = (
        usize::from(number_of(rt, from)),
        usize::from(number_of(rt, to)),
    );
    assert!(rt; from <= bytes.len() && to <= bytes.len());
    let mut all = Vec::new(alloc);
    all.extend_from_slice(&bytes[..from]).expect(rt, "memory");
    all.extend_from_slice(&bytes_of(rt, put))
        .expect(rt, "memory");
    all.extend_from_slice(&bytes[to..]).expect(rt, "memory");
    all
}

// Whether `T.f` is thin when the file is edited so, the last place first.
const DAMAGES: &str = "
    thin | 0-0: | the file as it is
    no | 3-4:bf | the magic number
    thin | 4-6:0003 | a minor version
    thin | 6-8:002d | version 45
    no | 6-8:002c | version 44
    no | 6-8:0035 | version 53
    no | 8-10:000c | a pool without its last entry
    no | 8-10:0000 | an empty pool
    no | 10-11:02 | a tag that is none
    no | 84-86:000e | a text one byte longer
    no | 83-99:050000000000000000 | a Long at the last index
    no | 42-51:0100083c636c696e69743e | a class initializer
    no | 101-103:0002 | Object's own name
    no | 101-103:0008 | a name in place of the class
    no | 103-105:0007 | another superclass
    no | 103-105:0000 | no superclass
    no | 105-107:00010002 | an interface
    no | 107-109:0001 | a field that is not there
    no | 113-117:000a000b | two methods of the entry's name and descriptor
    thin | 113-115:000a | another method of the name
    no | 113-115:0063 | a method's name past the pool, which is no class file
    thin | 142-144:0009 | a public method
    no | 142-144:0000 | a method that is not static
    no | 142-144:0108 | a native method
    no | 142-144:0408 | an abstract method
    no | 144-146:0008 | no method of the name
    no | 150-152:0008 | no Code attribute
    no | 152-153:7f | an attribute past the end
    no | 187-187:00 | a byte after the end
    no | 186-187: | the last byte gone
    no | 160-172:00000000 155-156:15 | an empty code
    no | 172-174:00010000000500070000 155-156:25 | an exception handler
    no | 185-185:00 155-156:1e | a byte after the attributes of the code
    thin | 175-185:00 155-156:14 | an attribute of the code that is gone
    no | 181-182:09 155-156:1d | an attribute of the code past its end
    no | 185-185:000900000000 148-150:0002 | a second Code attribute
    thin | 185-185:00080000000107 148-150:0002 | another attribute
    no | 83-99:050000000000000000 8-10:000e | a Long where the name of an attribute was
";

#[test]
fn damaged_classes_have_no_thin_method(rt: HostRuntime) {
    let alloc = rt.alloc();
    for row in &rows(&rt, DAMAGES) {
        let (answer, edits, _) = three_of(&rt, row);
        let mut bytes = bytes_of(&rt, T_PLAIN);
        for edit in edits.split_whitespace() {
            bytes = edited(&rt, &bytes, edit);
        }
        let found = read(&rt, &bytes, ("T", "f", "(II)V"));
        assert!(rt; found.is_some() == (answer == "thin"), "{row}");
    }
}
