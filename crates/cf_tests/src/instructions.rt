// Instructions and their bytes (JVM Specification SE 8, 6.5): read at a pc, printed, measured and written again.
ghost use Rattle.cf_code.specs.Instr.{Fits};

use crate::tables::{bytes_of, number_of, rows, three_of, two_of};
use cf_code::{Instr, Placed, equality, instr_size, put_instr, read_instr};
use std::process::Abort;

/// Whether an instruction is written as these bytes.
fn is_written<R: Abort + AllocGlobal>(rt: &R, pc: u16, bytes: &[u8], instr: &Instr) -> bool
    requires { Fits pc instr.now }
{
    let alloc = rt.alloc();
    let mut out = Vec::new(alloc);
    put_instr(&mut out, pc, instr).expect(rt, "memory");
    out.as_slice() == bytes
}

/// The instruction that bytes are at a pc, as it is printed, where it is written as these bytes and has their size.
fn kept<R: Abort + AllocGlobal>(rt: &R, pc: u16, bytes: &[u8]) -> String {
    let instr = read_instr(rt.alloc(), pc, bytes)
        .expect(rt, "memory")
        .expect(rt, "an instruction");
    assert!(rt; is_written(rt, pc, bytes, &instr));
    assert!(rt; instr_size(pc, bytes) == Some(bytes.len()));
    format!(in rt.alloc(); "{instr:?}").expect(rt, "memory")
}

// The first and the last opcode of each form, in the order of the Specification's table, and those behind wide.
const OPCODES: &str = "
    0 | 00 | Nop
    0 | 01 | Constant(Null)
    0 | 02 | Constant(Iconst(-1))
    0 | 08 | Constant(Iconst(5))
    0 | 09 | Constant(Lconst(0))
    0 | 0a | Constant(Lconst(1))
    0 | 0b | Constant(Fconst(0))
    0 | 0d | Constant(Fconst(2))
    0 | 0e | Constant(Dconst(0))
    0 | 0f | Constant(Dconst(1))
    0 | 1080 | Constant(Bipush(-128))
    0 | 11fffe | Constant(Sipush(-2))
    0 | 12fe | Constant(Ldc(254))
    0 | 131234 | Constant(LdcW(4660))
    0 | 141234 | Constant(Ldc2W(4660))
    0 | 15fe | Local(Load(Int, Byte(254)))
    0 | 19fe | Local(Load(Reference, Byte(254)))
    0 | 1a | Local(Load(Int, Short(0)))
    0 | 2d | Local(Load(Reference, Short(3)))
    0 | 2e | Array(Load(Int))
    0 | 35 | Array(Load(Short))
    0 | 36fe | Local(Store(Int, Byte(254)))
    0 | 3afe | Local(Store(Reference, Byte(254)))
    0 | 3b | Local(Store(Int, Short(0)))
    0 | 4e | Local(Store(Reference, Short(3)))
    0 | 4f | Array(Store(Int))
    0 | 56 | Array(Store(Short))
    0 | 57 | Stack(Pop)
    0 | 5f | Stack(Swap)
    0 | 60 | Number(Arith(Add, Int))
    0 | 77 | Number(Arith(Neg, Double))
    0 | 78 | Number(Shift(Left, WholeInt))
    0 | 7d | Number(Shift(RightUnsigned, WholeLong))
    0 | 7e | Number(Bitwise(And, WholeInt))
    0 | 83 | Number(Bitwise(Xor, WholeLong))
    0 | 8407ff | Local(Iinc(7, -1))
    0 | 85 | Number(Convert(IntToLong))
    0 | 93 | Number(Convert(IntToShort))
    0 | 94 | Number(Compare(CompareLong))
    0 | 98 | Number(Compare(CompareDoubleGreater))
    512 | 99ff00 | Jump(IfZero(Equal, 256))
    512 | 9eff00 | Jump(IfZero(AtMost, 256))
    512 | 9fff00 | Jump(IfInts(Equal, 256))
    512 | a4ff00 | Jump(IfInts(AtMost, 256))
    512 | a5ff00 | Jump(IfReferences(Same, 256))
    512 | a6ff00 | Jump(IfReferences(Other, 256))
    512 | a7ff00 | Jump(Goto(256))
    512 | a8ff00 | Jump(Jsr(256))
    0 | a9fe | Local(Ret(254))
    0 | ac | Return(Value(Int))
    0 | b0 | Return(Value(Reference))
    0 | b1 | Return(Nothing)
    0 | b21234 | Field(Field { access: GetStatic, index: 4660 })
    0 | b51234 | Field(Field { access: Put, index: 4660 })
    0 | b61234 | Call(Virtual(4660))
    0 | b71234 | Call(Special(4660))
    0 | b81234 | Call(Static(4660))
    0 | b912340506 | Call(Interface(4660, 5, 6))
    0 | ba12340506 | Call(Dynamic(4660, 1286))
    0 | bb1234 | Object(New(4660))
    0 | bcfe | Array(New(254))
    0 | bd1234 | Array(NewOf(4660))
    0 | be | Array(Length)
    0 | bf | Object(Throw)
    0 | c01234 | Object(CheckCast(4660))
    0 | c11234 | Object(InstanceOf(4660))
    0 | c2 | Object(MonitorEnter)
    0 | c3 | Object(MonitorExit)
    0 | c5123409 | Array(NewMany(4660, 9))
    512 | c6ff00 | Jump(IfNull(Same, 256))
    512 | c7ff00 | Jump(IfNull(Other, 256))
    512 | c80000fdff | Jump(GotoW(65535))
    512 | c90000fdff | Jump(JsrW(65535))
    0 | c4150102 | Local(Load(Int, Wide(258)))
    0 | c4190102 | Local(Load(Reference, Wide(258)))
    0 | c4360102 | Local(Store(Int, Wide(258)))
    0 | c43a0102 | Local(Store(Reference, Wide(258)))
    0 | c4a90102 | Local(RetWide(258))
    0 | c484ffff8000 | Local(IincWide(65535, -32768))
";

// Instructions of methods that javac compiled, as javap lists them.
const COMPILED: &str = "
    5 | 1007 | Constant(Bipush(7))
    15 | 140007 | Constant(Ldc2W(7))
    22 | 1705 | Local(Load(Float, Byte(5)))
    29 | a4000e | Jump(IfInts(AtMost, 43))
    37 | 9c0006 | Jump(IfZero(AtLeast, 43))
    40 | 840001 | Local(Iinc(0, 1))
    56 | a70004 | Jump(Goto(60))
    2 | 3a04 | Local(Store(Reference, Byte(4)))
    7 | b4000b | Field(Field { access: Get, index: 11 })
    26 | c5001402 | Array(NewMany(20, 2))
    33 | c10016 | Object(InstanceOf(22))
    40 | c6000b | Jump(IfNull(Same, 51))
    44 | c00016 | Object(CheckCast(22))
    65 | 11012c | Constant(Sipush(300))
    68 | bc0a | Array(New(10))
    3 | 1218 | Constant(Ldc(24))
    1 | b9001a0100 | Call(Interface(26, 1, 0))
    7 | ba001f0000 | Call(Dynamic(31, 0))
    1145 | c4360100 | Local(Store(Int, Wide(256)))
    1177 | c484010203e8 | Local(IincWide(258, 1000))
    1193 | c4150100 | Local(Load(Int, Wide(256)))
";

// Operands and targets at their edges.
const EDGES: &str = "
    0 | 107f | Constant(Bipush(127))
    0 | 118000 | Constant(Sipush(-32768))
    0 | 117fff | Constant(Sipush(32767))
    0 | 13ffff | Constant(LdcW(65535))
    0 | c43a0000 | Local(Store(Reference, Wide(0)))
    32768 | a78000 | Jump(Goto(0))
    32768 | a77fff | Jump(Goto(65535))
    7 | 990000 | Jump(IfZero(Equal, 7))
    65530 | c8ffff0006 | Jump(GotoW(0))
    0 | c80000ffff | Jump(GotoW(65535))
";

// The first is javac's `switch (k) { case 1: return 5; case 2: return 6; case 4: return 7; default: return 8; }` and the
// second its `switch (k) { case -5: return 1; case 100: return 2; case 100000: return 3; default: return 4; }`, as javap
// lists them. The others have an entry, or no case, and go to themselves, at each padding.
const SWITCHES: &str = "
    1 | aa00000000002700000001000000040000001f000000210000002700000024 | Table(TableSwitch { padding: List { items: [0, 0] }, default: 40, low: 1, targets: List { items: [32, 34, 40, 37] } })
    1 | ab00000000002900000003fffffffb000000230000006400000025000186a000000027 | Lookup(LookupSwitch { padding: List { items: [0, 0] }, default: 42, cases: List { items: [Case { key: -5, target: 36 }, Case { key: 100, target: 38 }, Case { key: 100000, target: 40 }] } })
    8 | aa01020300000000000000070000000700000000 | Table(TableSwitch { padding: List { items: [1, 2, 3] }, default: 8, low: 7, targets: List { items: [8] } })
    9 | aa010200000000000000070000000700000000 | Table(TableSwitch { padding: List { items: [1, 2] }, default: 9, low: 7, targets: List { items: [9] } })
    10 | aa01000000007fffffff7fffffff00000000 | Table(TableSwitch { padding: List { items: [1] }, default: 10, low: 2147483647, targets: List { items: [10] } })
    11 | ab0000000000000000 | Lookup(LookupSwitch { padding: List { items: [] }, default: 11, cases: List { items: [] } })
    8 | ab010203fffffff8000000018000000000000001 | Lookup(LookupSwitch { padding: List { items: [1, 2, 3] }, default: 0, cases: List { items: [Case { key: -2147483648, target: 9 }] } })
    11 | aa00000000000000000000000000000000 | Table(TableSwitch { padding: List { items: [] }, default: 11, low: 0, targets: List { items: [11] } })
    10 | ab010000000000000000 | Lookup(LookupSwitch { padding: List { items: [1] }, default: 10, cases: List { items: [] } })
";

#[test]
fn instructions_are_read_and_written(rt: HostRuntime) {
    let alloc = rt.alloc();
    for table in [OPCODES, COMPILED, EDGES, SWITCHES] {
        for row in &rows(&rt, table) {
            let (pc, bytes, text) = three_of(&rt, row);
            let printed = kept(&rt, number_of(&rt, pc), &bytes_of(&rt, bytes));
            assert!(rt; printed.as_str() == text, "{row}");
        }
    }
}

// A pc, and bytes that are no instruction there.
const REFUSED: &str = "
    0 |
    0 | ca
    0 | ff
    0 | 0000
    0 | 10
    0 | 1100
    0 | a700
    2 | a7fffd
    65535 | a70001
    0 | c800010000
    65535 | c87fffffff
    0 | c880000000
    0 | c4
    0 | c460
    0 | c41a0000
    0 | c484000100
    // switches at pc 3, where they have no padding
    // no default
    3 | aa000000
    // the least key above the greatest
    3 | aa000000000000000100000000
    // from -2147483648 to 2147483647, with an entry
    3 | aa00000000800000007fffffff00000000
    // an entry below pc 0
    3 | aa000000000000000100000001fffffffc
    // a byte behind the entries
    3 | aa0000000000000001000000010000000000
    // 4294967295 pairs, of which none is there
    3 | ab00000000ffffffff
    // two equal keys
    3 | ab000000000000000200000005000000000000000500000000
    // keys that fall, with their sign
    3 | ab00000000000000020000000100000000ffffffff00000000
    // half a pair
    3 | ab000000000000000100000001
";

#[test]
fn other_bytes_are_no_instruction(rt: HostRuntime) {
    let alloc = rt.alloc();
    for row in &rows(&rt, REFUSED) {
        let (pc, bytes) = two_of(&rt, row);
        let bytes = bytes_of(&rt, bytes);
        assert!(rt;
            read_instr(alloc, number_of(&rt, pc), &bytes)
                .expect(&rt, "memory")
                .is_none(),
            "{row}"
        );
    }
    for opcode in 202..=255 {
        assert!(rt;
            read_instr(alloc, 0, &[opcode])
                .expect(&rt, "memory")
                .is_none(),
            "{opcode}"
        );
    }
}

// A pc, the size of the instruction at the front of bytes, and the bytes: also where they end early, or where targets
// are no good.
const SIZES: &str = "
    0 | None |
    0 | Some(1) | 0000
    0 | None | 10
    0 | None | ca00
    0 | None | ff00
    0 | Some(4) | c43a0001
    0 | Some(6) | c48400010001
    0 | None | c484000100
    0 | None | c4600001
    2 | Some(3) | a7fffd00
    // low above high: the switch ends behind high
    3 | Some(13) | aa00000000000000010000000000
    0 | Some(20) | aa0909090000000000000001000000010000000000
    0 | None | aa090909000000000000000100000001000000
    // from -2147483648 to 2147483647
    3 | None | aa00000000800000007fffffff00000000
    3 | Some(9) | ab0000000000000000
    2 | Some(18) | ab0000000000000000010000000100000000
    // 4294967295 pairs: the number has no sign
    3 | None | ab00000000ffffffff
    3 | None | ab00000000
";

#[test]
fn instructions_have_their_sizes(rt: HostRuntime) {
    let alloc = rt.alloc();
    for row in &rows(&rt, SIZES) {
        let (pc, size, bytes) = three_of(&rt, row);
        let found = instr_size(number_of(&rt, pc), &bytes_of(&rt, bytes));
        assert!(rt;
            format!(in alloc; "{found:?}")
                .expect(&rt, "memory")
                .as_str()
                == size,
            "{row}"
        );
    }
}

#[test]
fn a_table_of_65535_targets_is_read_and_written(rt: HostRuntime) {
    let alloc = rt.alloc();
    let mut bytes = bytes_of(&rt, "aa000000 00000000 00000001 0000ffff");
    bytes.resize(16 + 4 * 65535, 0).expect(&rt, "memory");
    assert!(rt; kept(&rt, 0, &bytes).len() > 65535);
}

// The bytes of two instructions at pc 0, and whether they are the same.
const COMPARED: &str = "
    00 | 00 | true
    00 | 01 | false
    // two forms of one constant, and of one load
    04 | 1001 | false
    1b | 1501 | false
    1501 | c4150001 | false
    c484012cffff | c484012cffff | true
    c484012cffff | c484012dffff | false
    c484012cffff | c484012c0000 | false
    60 | 60 | true
    60 | 61 | false
    a70003 | a70003 | true
    a70003 | a70004 | false
    b20001 | b20001 | true
    b20001 | b20002 | false
    b20001 | b40001 | false
    b900010203 | b900010203 | true
    b900010203 | b900010200 | false
    // the padding, the default, the least key and a target of a table
    aa000000 00000000 00000007 00000007 00000000 | aa000000 00000000 00000007 00000007 00000000 | true
    aa000000 00000000 00000007 00000007 00000000 | aa000001 00000000 00000007 00000007 00000000 | false
    aa000000 00000000 00000007 00000007 00000000 | aa000000 00000001 00000007 00000007 00000000 | false
    aa000000 00000000 00000007 00000007 00000000 | aa000000 00000000 00000008 00000008 00000000 | false
    aa000000 00000000 00000007 00000007 00000000 | aa000000 00000000 00000007 00000007 00000001 | false
    // a key and a target of a lookupswitch, and one case more
    ab000000 00000000 00000001 00000005 00000000 | ab000000 00000000 00000001 00000005 00000000 | true
    ab000000 00000000 00000001 00000005 00000000 | ab000000 00000000 00000001 00000006 00000000 | false
    ab000000 00000000 00000001 00000005 00000000 | ab000000 00000000 00000001 00000005 00000001 | false
    ab000000 00000000 00000001 00000005 00000000 | ab000000 00000000 00000002 00000005 00000000 00000006 00000000 | false
";

/// The instruction that bytes are at pc 0.
fn at_0<R: Abort + AllocGlobal>(rt: &R, bytes: &str) -> Instr {
    read_instr(rt.alloc(), 0, &bytes_of(rt, bytes))
        .expect(rt, "memory")
        .expect(rt, "an instruction")
}

#[test]
fn instructions_are_equal_where_they_are_the_same(rt: HostRuntime) {
    for row in &rows(&rt, COMPARED) {
        let (one, other, same) = three_of(&rt, row);
        let one = at_0(&rt, one);
        let other = at_0(&rt, other);
        assert!(rt; (one == other) == (same == "true"), "{row}");
        let one = Placed { pc: 0, instr: one };
        assert!(rt;
            (one == Placed {
                pc: 0,
                instr: other
            }) == (same == "true"),
            "{row}"
        );
        assert!(rt;
            one != Placed {
                pc: 1,
                instr: at_0(&rt, "00")
            },
            "{row}"
        );
    }
    equality();
}
