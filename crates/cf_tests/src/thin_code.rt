// Thin code, and its instructions (JVM Specification SE 8, 6.5).
use crate::tables::{bytes_of, cut, number_of, rows, three_of, two_of};
use cf_code::{decode, read_instr};
use cf_thin::{
    ThinInstr, go_forward, is_thin_code, places_of_code, stand_in_place, thin_instr, thin_instr_at,
    weaker_order,
};
use jv_base::List;
use std::process::Abort;

// A pc, the bytes of an instruction there, and the instruction of thin code that it is with its size, as it is printed.
const INSTRUCTIONS: &str = "
    0 | 01 | Some((AconstNull, 1))
    0 | 02 | Some((Iconst(-1), 1))
    0 | 08 | Some((Iconst(5), 1))
    0 | 1080 | Some((Iconst(-128), 2))
    0 | 118000 | Some((Iconst(-32768), 3))
    0 | 110102 | Some((Iconst(258), 3))
    0 | 15ff | Some((Iload(255), 2))
    0 | 1d | Some((Iload(3), 1))
    0 | 3604 | Some((Istore(4), 2))
    0 | 3b | Some((Istore(0), 1))
    0 | 82 | Some((Ixor, 1))
    0 | 990005 | Some((Ifeq(5), 3))
    0 | 9a0005 | Some((Ifne(5), 3))
    0 | 9f0100 | Some((IfIcmpeq(256), 3))
    0 | a00100 | Some((IfIcmpne(256), 3))
    5 | a7fffd | Some((Goto(2), 3))
    0 | ac | Some((Ireturn, 1))
    0 | b1 | Some((Return, 1))
    0 | bf | Some((Athrow, 1))
    // nop, lload_3, wide iload, lxor, iflt, if_icmplt, goto_w, lreturn, monitorenter
    0 | 00 | None
    0 | 21 | None
    0 | c4150001 | None
    0 | 83 | None
    0 | 9b0005 | None
    0 | a10005 | None
    0 | c800000005 | None
    0 | ad | None
    0 | c2 | None
";

#[test]
fn instructions_are_those_of_thin_code_or_others(rt: HostRuntime) {
    let alloc = rt.alloc();
    for row in &rows(&rt, INSTRUCTIONS) {
        let (pc, bytes, text) = three_of(&rt, row);
        let read = read_instr(alloc, number_of(&rt, pc), &bytes_of(&rt, bytes)).expect(
            &rt, "memory",
        );
        let instr = read.expect(&rt, "an instruction");
        let found = format!(in alloc; "{:?}", thin_instr(&instr)).expect(&rt, "memory");
        assert!(rt; found.as_str() == text, "{row}");
    }
}

/// The places of code. None where the bytes are no code.
fn places<R: Abort + AllocGlobal>(rt: &R, bytes: &[u8]) -> Option<List<Option<(ThinInstr, u16)>>> {
    let alloc = rt.alloc();
    assert!(rt; bytes.len() <= 65535);
    let code = decode(alloc, bytes).ok()?;
    Some(places_of_code(alloc, code.as_slice()).expect(rt, "memory"))
}

// Code, a pc, and the instruction there with the pc after it, as they are printed.
const STANDING: &str = "
    1a990003b1 | 0 | Some((Iload(0), 1))
    1a990003b1 | 1 | Some((Ifeq(4), 4))
    1a990003b1 | 2 | None
    1a990003b1 | 4 | Some((Return, 5))
    1a990003b1 | 5 | None
    // a jump to itself, one back, and an instruction that is not of thin code
    a70000 | 0 | None
    1aa7ffff | 1 | None
    00b1 | 0 | None
     | 0 | None
";

#[test]
fn instructions_stand_at_their_pcs(rt: HostRuntime) {
    go_forward();
    stand_in_place();
    weaker_order();
    let alloc = rt.alloc();
    for row in &rows(&rt, STANDING) {
        let (bytes, pc, text) = three_of(&rt, row);
        let code = places(&rt, &bytes_of(&rt, bytes)).expect(&rt, "code");
        assert!(rt; code.length() <= 65535);
        let found = thin_instr_at(code.as_slice(), number_of(&rt, pc));
        let found = format!(in alloc; "{found:?}").expect(&rt, "memory");
        assert!(rt; found.as_str() == text, "{row}");
    }
}

/// Whether code is thin for words like `2 int 1 3`: how many parameters the method has, what it gives, and the most
/// words on its stack and in its locals.
fn is_thin<R: Abort + AllocGlobal>(rt: &R, code: &[u8], words: &str) -> bool {
    let alloc = rt.alloc();
    let (params, rest) = cut(rt, words, ' ');
    let (given, rest) = cut(rt, rest, ' ');
    let (max_stack, max_locals) = cut(rt, rest, ' ');
    let (params, gives_int) = (number_of(rt, params), given == "int");
    let (max_stack, max_locals) = (number_of(rt, max_stack), number_of(rt, max_locals));
    let Some(code) = places(rt, code) else {
        return false;
    };
    assert!(rt; code.length() <= 65535);
    is_thin_code(
        alloc,
        code.as_slice(),
        params,
        gives_int,
        max_stack,
        max_locals,
    )
    .expect(rt, "memory")
}

/// Checks whether the code of each row is thin, or is not.
fn check<R: Abort + AllocGlobal>(rt: &R, cases: &str, thin: bool) {
    for row in &rows(rt, cases) {
        let (words, code) = two_of(rt, row);
        assert!(rt; is_thin(rt, &bytes_of(rt, code), words) == thin, "{row}");
    }
}

const THIN: &str = "
    // two ints are compared, and null is thrown where they are the same
    2 void 2 2 | 1a1ba0000501bfb1
    // an int is compared with itself by xor
    1 void 2 1 | 1a1a8299000501bfb1
    // the parameter, -1 and -32768 are given back
    1 int 1 1 | 1aac
    0 int 1 0 | 10ffac
    0 int 1 0 | 118000ac
    // what is stored is loaded, also by the forms with an operand
    0 int 1 1 | 033b1aac
    0 int 1 5 | 0336041504ac
    // behind a return nothing has a shape, whatever stands there
    0 void 0 0 | b101bf
    0 void 0 0 | b182ac
    // a local is set on both ways to where it is loaded
    1 int 1 2 | 1a990008043ca70005053c1bac
    // an int stays on the stack on both ways
    1 int 1 1 | 1a99000704a7000405ac
    // the other jumps
    1 void 2 1 | 1a039f00071a9a0003b1
";

#[test]
fn code_that_meets_the_rules_is_thin(rt: HostRuntime) {
    check(&rt, THIN, true)
}

const NOT_THIN: &str = "
    // nothing, an opcode that is none of thin code, an operand that is cut off, also behind a return
    0 void 0 0 |
    0 void 0 0 | 00b1
    0 int 1 0 | 10
    0 void 0 0 | b11100
    // a jump into an operand, back, to itself, to the end and past it, also behind a return
    1 int 1 1 | 1a9900041001ac
    1 void 1 1 | 1a99ffffb1
    0 void 0 0 | a70000
    1 void 1 1 | 1a990004b1
    1 void 1 1 | 1a990009b1
    0 void 0 0 | b1a700041001
    // the code ends where an instruction may be next
    0 void 1 0 | 03
    // more on the stack than it may hold
    2 void 1 2 | 1a1ba0000501bfb1
    // an int is given where nothing is, and nothing where an int is
    1 void 1 1 | 1aac
    0 int 0 0 | b1
    // a local that is not set, or set on one of the ways only
    0 int 1 1 | 1aac
    1 int 1 2 | 1a990005043c1bac
    1 int 1 2 | 1a990006a70005043c1bac
    // a local that is past the last
    0 void 1 1 | 033cb1
    // stacks that differ where two ways meet
    1 void 1 1 | 1a99000403b1
    // an int is thrown, null is given as an int, one int is compared with nothing
    0 void 1 0 | 03bf
    0 int 1 0 | 01ac
    1 int 1 1 | 1a82ac
    1 void 1 1 | 1a9f0003b1
    // more parameters than locals
    1 void 0 0 | b1
";

#[test]
fn code_that_breaks_a_rule_is_not_thin(rt: HostRuntime) {
    check(&rt, NOT_THIN, false)
}

#[test]
fn code_of_65535_bytes_is_thin(rt: HostRuntime) {
    let alloc = rt.alloc();
    let code = vec![in alloc; 0xb1_u8; 65535].expect(&rt, "memory");
    assert!(rt; is_thin(&rt, &code, "0 void 0 0"));
}
