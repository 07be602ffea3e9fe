// The code of methods (JVM Specification SE 8, 4.9.1, and 6.5 for each instruction), whole and damaged.
ghost use Rattle.cf_code.specs.Instr.{Fits};

use crate::tables::{bytes_of, rows, three_of, two_of};
use cf_code::{
    Case, CodeFault, Constant, Instr, Jump, Local, LocalIndex, LookupSwitch, Placed, TableSwitch,
    Word, all_fit, code_decided, decode, encode, fits, no_code, one_beginning, one_code, one_fault,
    one_size, read_instr, walk,
};
use jv_list::List;
use std::process::Abort;

// The bytes of a method's code, and what they are, as it is printed.
const CODES: &str = "
     | Ok(List { items: [] })
    00 | Ok(List { items: [Placed { pc: 0, instr: Nop }] })
    ca | Err(BadOpcode(0))
    00ca | Err(BadOpcode(1))
    // a fault behind one that ends the code is not seen
    caa70009 | Err(BadOpcode(0))
    // the end comes before the operands
    1100 | Err(BadOpcode(0))
    // wide before an instruction that has no wide form
    c400 | Err(BadOpcode(0))
    c4150001b1 | Ok(List { items: [Placed { pc: 0, instr: Local(Load(Int, Wide(1))) }, Placed { pc: 4, instr: Return(Nothing) }] })
    // goto the last instruction, past the end, into operands, below the first, back, and itself
    a70003b1 | Ok(List { items: [Placed { pc: 0, instr: Jump(Goto(3)) }, Placed { pc: 3, instr: Return(Nothing) }] })
    a70004b1 | Err(BadTarget(0))
    a70002b1 | Err(BadTarget(0))
    a7ffffb1 | Err(BadTarget(0))
    00a7ffff | Ok(List { items: [Placed { pc: 0, instr: Nop }, Placed { pc: 1, instr: Jump(Goto(0)) }] })
    a70000 | Ok(List { items: [Placed { pc: 0, instr: Jump(Goto(0)) }] })
    // the second of two jumps is bad, then both
    a70003a70001 | Err(BadTarget(3))
    a70001a70001 | Err(BadTarget(0))
    // a bad target before a bad opcode: at its pc, and behind it
    a70003ca | Err(BadTarget(0))
    a70004cab1 | Err(BadTarget(0))
    // a good jump before a bad opcode
    a70000ca | Err(BadOpcode(3))
    // a table whose least key is above its greatest, before a bad opcode
    aa000000000000000000000100000000ca | Err(BadTarget(0))
    000000aa000000000000000100000000ca | Err(BadTarget(3))
    // from -2147483648 to 2147483647
    aa00000000000000800000007fffffff00000000 | Err(BadOpcode(0))
    000000aa00000000800000007fffffff00000000 | Err(BadOpcode(3))
    // one key, to the switch itself
    aa00000000000000000000070000000700000000 | Ok(List { items: [Placed { pc: 0, instr: Table(TableSwitch { padding: List { items: [0, 0, 0] }, default: 0, low: 7, targets: List { items: [0] } }) }] })
    000000aa00000000000000070000000700000000 | Ok(List { items: [Placed { pc: 0, instr: Nop }, Placed { pc: 1, instr: Nop }, Placed { pc: 2, instr: Nop }, Placed { pc: 3, instr: Table(TableSwitch { padding: List { items: [] }, default: 3, low: 7, targets: List { items: [3] } }) }] })
    // a default into the operands
    aa00000000000001000000070000000700000000 | Err(BadTarget(0))
    000000aa00000001000000070000000700000000 | Err(BadTarget(3))
    // an entry into the operands
    aa00000000000000000000070000000700000001 | Err(BadTarget(0))
    000000aa00000000000000070000000700000001 | Err(BadTarget(3))
    // equal keys
    ab000000000000000000000200000005000000000000000500000000 | Err(BadTarget(0))
    000000ab000000000000000200000005000000000000000500000000 | Err(BadTarget(3))
    // keys that fall, with their sign
    ab00000000000000000000020000000000000000ffffffff00000000 | Err(BadTarget(0))
    000000ab00000000000000020000000000000000ffffffff00000000 | Err(BadTarget(3))
    // 4294967295 pairs
    ab00000000000000ffffffff0000000000000000 | Err(BadOpcode(0))
    000000ab00000000ffffffff0000000000000000 | Err(BadOpcode(3))
    // keys that rise, with their sign
    ab0000000000000000000002ffffffff000000000000000000000000 | Ok(List { items: [Placed { pc: 0, instr: Lookup(LookupSwitch { padding: List { items: [0, 0, 0] }, default: 0, cases: List { items: [Case { key: -1, target: 0 }, Case { key: 0, target: 0 }] } }) }] })
    000000ab0000000000000002ffffffff000000000000000000000000 | Ok(List { items: [Placed { pc: 0, instr: Nop }, Placed { pc: 1, instr: Nop }, Placed { pc: 2, instr: Nop }, Placed { pc: 3, instr: Lookup(LookupSwitch { padding: List { items: [] }, default: 3, cases: List { items: [Case { key: -1, target: 3 }, Case { key: 0, target: 3 }] } }) }] })
    // a case into the operands
    ab00000000000000000000010000000500000001 | Err(BadTarget(0))
    000000ab00000000000000010000000500000001 | Err(BadTarget(3))
";

/// What bytes are, as it is printed.
fn printed<R: Abort + AllocGlobal>(rt: &R, bytes: &[u8]) -> String {
    let alloc = rt.alloc();
    assert!(rt; bytes.len() <= 65535);
    let found = decode(alloc, bytes);
    format!(in alloc; "{found:?}").expect(rt, "memory")
}

#[test]
fn code_is_decoded_or_has_its_first_fault(rt: HostRuntime) {
    let alloc = rt.alloc();
    for row in &rows(&rt, CODES) {
        let (bytes, text) = two_of(&rt, row);
        assert!(rt;
            printed(&rt, &bytes_of(&rt, bytes)).as_str() == text,
            "{row}"
        );
    }
    one_size();
    one_code();
    no_code();
    one_fault();
    code_decided();
    one_beginning();
}

// The bytes of a method's code, the instructions before the first fault, and how they end.
const WALKS: &str = "
     | [] | Whole
    b1 | [Placed { pc: 0, instr: Return(Nothing) }] | Whole
    ca | [] | BadOpcode(0)
    0011 | [Placed { pc: 0, instr: Nop }] | BadOpcode(1)
    // a jump to a bad opcode comes before it, and one before both is kept
    a70003ca | [] | BadTarget(0)
    00a70003ca | [Placed { pc: 0, instr: Nop }] | BadTarget(1)
    a70000ca | [Placed { pc: 0, instr: Jump(Goto(0)) }] | BadOpcode(3)
    // the first of two bad targets, and what stands behind it is not told
    00a70002b1a70001 | [Placed { pc: 0, instr: Nop }] | BadTarget(1)
    // a good jump over the fault
    a70006a70001b1 | [Placed { pc: 0, instr: Jump(Goto(6)) }] | BadTarget(3)
    // an index of the constant pool is not judged
    b60000a70001 | [Placed { pc: 0, instr: Call(Virtual(0)) }] | BadTarget(3)
";

#[test]
fn code_is_walked_up_to_its_first_fault(rt: HostRuntime) {
    let alloc = rt.alloc();
    for row in &rows(&rt, WALKS) {
        let (bytes, code, end) = three_of(&rt, row);
        let bytes = bytes_of(&rt, bytes);
        assert!(rt; bytes.len() <= 65535);
        let found = walk(alloc, &bytes).expect(&rt, "memory");
        let printed = format!(in alloc; "{:?} {:?}", found.code, found.end).expect(&rt, "memory");
        let wanted = format!(in alloc; "List {{ items: {code} }} {end}").expect(&rt, "memory");
        assert!(rt; printed.as_str() == wanted.as_str(), "{row}");
    }
}

/// Switches behind three bytes of padding and one of them, of so many targets from a key on, or of these keys.
fn table<R: Abort + AllocGlobal>(rt: &R, padding: usize, low: i32, count: usize) -> Instr {
    let alloc = rt.alloc();
    let padding = vec![in alloc; 0u8; padding].expect(rt, "memory");
    let targets = vec![in alloc; 0u16; count].expect(rt, "memory");
    Instr::Table(TableSwitch {
        padding: List::from_vec(padding),
        default: 0,
        low,
        targets: List::from_vec(targets),
    })
}

fn lookup<R: Abort + AllocGlobal>(rt: &R, padding: usize, keys: &[i32]) -> Instr {
    let alloc = rt.alloc();
    let padding = vec![in alloc; 0u8; padding].expect(rt, "memory");
    let mut cases = List::new(alloc);
    for key in keys {
        let case = Case {
            key: *key,
            target: 0,
        };
        cases.add(case).expect(rt, "memory");
    }
    Instr::Lookup(LookupSwitch {
        padding: List::from_vec(padding),
        default: 0,
        cases,
    })
}

#[test]
fn an_instruction_fits_where_it_has_bytes(rt: HostRuntime) {
    let alloc = rt.alloc();
    let short = |n| Instr::Local(Local::Load(Word::Int, LocalIndex::Short(n)));
    let goto = |target| Instr::Jump(Jump::Goto(target));
    let cases = [
        (0, Instr::Nop, true),
        (0, Instr::Constant(Constant::Iconst(-1)), true),
        (0, Instr::Constant(Constant::Iconst(-2)), false),
        (0, Instr::Constant(Constant::Iconst(6)), false),
        (0, Instr::Constant(Constant::Fconst(2)), true),
        (0, Instr::Constant(Constant::Dconst(2)), false),
        (0, short(3), true),
        (0, short(4), false),
        (0, goto(32767), true),
        (0, goto(32768), false),
        (65535, goto(32767), true),
        (65535, goto(32766), false),
        (0, Instr::Jump(Jump::GotoW(65535)), true),
        (0, table(&rt, 3, 0, 1), true),
        (1, table(&rt, 3, 0, 1), false),
        (3, table(&rt, 0, 2_147_483_647, 1), true),
        (3, table(&rt, 0, 2_147_483_647, 2), false),
        (3, table(&rt, 0, 0, 0), false),
        (2, lookup(&rt, 1, &[]), true),
        (2, lookup(&rt, 1, &[-1, 0]), true),
        (2, lookup(&rt, 1, &[0, 0]), false),
        (2, lookup(&rt, 2, &[0]), false),
    ];
    for (pc, instr, fit) in cases {
        assert!(rt; fits(pc, &instr) == fit, "{pc} {instr:?}");
        let code = vec![in alloc; Placed { pc, instr }].expect(&rt, "memory");
        assert!(rt; all_fit(&List::from_vec(code)) == fit);
    }
}

/// How many instructions the longest code of jumps of three bytes has: the first to itself, each other to the one before.
fn count_of_longest<R: Abort + AllocGlobal>(rt: &R) -> usize {
    let alloc = rt.alloc();
    let mut bytes = bytes_of(rt, "a70000");
    for _ in 1..21845 {
        bytes
            .extend_from_slice(&[0xa7, 0xff, 0xfd])
            .expect(rt, "memory");
    }
    assert!(rt; bytes.len() <= 65535);
    decode(alloc, &bytes).expect(rt, "no fault").length()
}

#[test]
fn code_of_65535_bytes_is_decoded(rt: HostRuntime) {
    assert!(rt; count_of_longest(&rt) == 21845);
}

/// The bytes of two instructions, the second at pc 3.
fn encoded<R: Abort + AllocGlobal>(rt: &R, first: Instr, second: Instr) -> List<u8>
    requires first { Fits 0 first }
    requires second { Fits 3 second }
{
    let alloc = rt.alloc();
    let first = Placed {
        pc: 0,
        instr: first,
    };
    let second = Placed {
        pc: 3,
        instr: second,
    };
    let code = vec![in alloc; first, second].expect(rt, "memory");
    encode(alloc, &List::from_vec(code)).expect(rt, "memory")
}

#[test]
fn instructions_are_written_one_after_the_other(rt: HostRuntime) {
    let alloc = rt.alloc();
    let first = read_instr(alloc, 0, &[0xa7, 0x00, 0x03])
        .expect(&rt, "memory")
        .expect(&rt, "a goto");
    let second = read_instr(alloc, 3, &[0xa7, 0xff, 0xfd])
        .expect(&rt, "memory")
        .expect(&rt, "a goto");
    let bytes = encoded(&rt, first, second);
    assert!(rt; bytes.as_slice() == [0xa7, 0x00, 0x03, 0xa7, 0xff, 0xfd].as_slice());
}

#[test]
fn faults_of_code_are_printed_with_their_pc(rt: HostRuntime) {
    let faults = [
        (CodeFault::BadOpcode(3), "no instruction at 3"),
        (CodeFault::BadTarget(65535), "bad target at 65535"),
        (CodeFault::NoMemory, "no memory"),
    ];
    for (fault, text) in faults {
        assert!(rt;
            format!(in rt.alloc(); "{fault}")
                .expect(&rt, "memory")
                .as_str()
                == text
        );
    }
}
