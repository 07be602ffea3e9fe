// The judging of the code of methods: class files whose first fault was worked out by hand from the Specification (JVM
// Specification SE 8, 4.7.3 and 4.9.1).
use crate::tables::{bytes_of, rows, three_of, two_of};
use cf_bodies::{Need, PoolKind, is_met, judge_bodies, need_of, one_file, one_verdict};
use cf_code::{Call, Instr};
use cf_judge::judge;
use cf_structure::{ClassFault, read_structure};
use std::process::Abort;

/// The kind and the place of the first fault of a file's methods, or `in order`.
fn judged<R: Abort + AllocGlobal>(rt: &R, bytes: &[u8]) -> String {
    let alloc = rt.alloc();
    let structure = read_structure(alloc, bytes).expect(rt, "a structure");
    let texts = judge(alloc, &structure).expect(rt, "no fault of names, descriptors and indices");
    match judge_bodies(alloc, &structure, texts.as_slice()) {
        Ok(_) => String::from_str(alloc, "in order").expect(rt, "memory"),
        Err(ClassFault::Malformed(fault)) => {
            format!(in alloc; "{:?} {}", fault.what, fault.place).expect(rt, "memory")
        }
        Err(ClassFault::NoMemory) => String::new(alloc),
    }
}

// A file up to place 130, the end of its pool: "T", the class T, "x", "I", "()V", "Code", "ConstantValue", "[I", the class [I,
// the int 0, the string "x", the types of a field and of a method x, the field T.x, the method x of [I (15); a Long (16), a
// Float (18), a Double (19), the method x of the interface T (21), a method handle (22), a method type (23), a call site (24).
const FRONT: &str = "
    cafebabe 00000034 0019
    010001540700010100017801000149010003282956010004436f646501000d436f6e7374616e7456616c75650100025b4907000803000000
    000800030c000300040c00030005090002000c0a0009000d
    050000000000000000 0400000000 060000000000000000 0b0002000d 0f060015 100005 120000000d
";

// The class T up to the length of the Code of its method x, which stands at place 152.
const METHOD: &str = "0021 0002 0002 0000 0000 0001 0009 0003 0005 0001 0006";

/// A file with one method. Its code is at place 164, and its rows are behind that and their count.
pub fn with_code<R: Abort + AllocGlobal>(rt: &R, code: &[u8], table: &[u8]) -> Vec<u8> {
    let mut bytes = bytes_of(rt, FRONT);
    let code_size = u32::try_from(code.len()).expect(rt, "a length of four bytes");
    let table_size = u32::try_from(table.len()).expect(rt, "a length of four bytes");
    let size = code_size.saturating_add(table_size).saturating_add(12);
    let count = u16::try_from(table.len() / 8).expect(rt, "a count of two bytes");
    for part in [
        bytes_of(rt, METHOD).as_slice(),
        &size.to_be_bytes(),
        &[0, 0, 0, 0],
        &code_size.to_be_bytes(),
        code,
        &count.to_be_bytes(),
        table,
        &[0, 0, 0, 0],
    ] {
        bytes.extend_from_slice(part).expect(rt, "memory");
    }
    bytes
}

// The code of a method, the rows of its exception table, and the first fault. The code is at place 164.
#[rattlefmt::skip]
const CODES: &str = "
    b1 | | in order
    // Opcodes above 201, at the first pc and at the second; what stands behind one is not seen.
    ca | | BadOpcode 164
    00ca | | BadOpcode 165
    00fe | | BadOpcode 165
    ff | | BadOpcode 164
    cab20000 | | BadOpcode 164
    // An instruction that passes the end: sipush, ldc, goto, invokedynamic, iload and iinc behind wide, a table in its padding.
    1100 | | BadOpcode 164
    12 | | BadOpcode 164
    00a700 | | BadOpcode 165
    ba001800 | | BadOpcode 164
    c41500 | | BadOpcode 164
    c484000100 | | BadOpcode 164
    aa0000 | | BadOpcode 164
    // A table of the keys 0 and 1 with one offset; 4294967295 pairs, whose number has no sign.
    aa00000000000000000000000000000100000000 | | BadOpcode 164
    ab00000000000000ffffffff | | BadOpcode 164
    ab0000000000000080000000 | | BadOpcode 164
    // wide before nop, before wide, before the end; before iload, fstore, ret and iinc.
    c400b1 | | BadOpcode 164
    00c4c4150000 | | BadOpcode 165
    c4 | | BadOpcode 164
    c4150000b1 | | in order
    c4380000b1 | | in order
    c4a90000b1 | | in order
    c48400000000b1 | | in order
    // What is decoded though no method with it is run: fadd, monitorenter, ret.
    62c2a900b1 | | in order
    // goto the next instruction, itself, the end, into its operands, below 0, and a pc that has no two bytes.
    a70003b1 | | in order
    a70000 | | in order
    a70003 | | BadTarget 164
    a70001b1 | | BadTarget 164
    a7ffff | | BadTarget 164
    c800010000 | | BadTarget 164
    // The other jumps: ifeq, if_icmpne, if_acmpeq, ifnull, goto_w, jsr, jsr_w.
    00990001 | | BadTarget 165
    a00004b1 | | BadTarget 164
    a50001b1 | | BadTarget 164
    c60003b1 | | in order
    c60002b1 | | BadTarget 164
    c800000005b1 | | in order
    c800000006b1 | | BadTarget 164
    a80003b1 | | in order
    a80004b1 | | BadTarget 164
    c900000005b1 | | in order
    c900000002b1 | | BadTarget 164
    // The instructions end before the first bad opcode: a jump to it, and one elsewhere.
    a70003ca | | BadTarget 164
    a70004cab1 | | BadTarget 164
    a70000ca | | BadOpcode 167
    // A table whose least key is above its greatest: it has no offsets, and the instruction behind it is one.
    aa000000000000000000000100000000b1 | | BadTarget 164
    a70010aa000000000000000100000000b1 | | BadTarget 167
    aa000000000000000000000100000000ca | | BadTarget 164
    // The default of a table, its entry, the default of a lookup and its case, each into the switch.
    aa00000000000001000000000000000000000000 | | BadTarget 164
    aa00000000000000000000000000000000000001 | | BadTarget 164
    ab0000000000000200000000 | | BadTarget 164
    ab00000000000000000000010000000500000004 | | BadTarget 164
    // Keys that rise by their sign, equal ones, and ones that fall; padding of any bytes.
    ab0102030000000000000002ffffffff000000000000000000000000 | | in order
    ab000000000000000000000200000005000000000000000500000000 | | BadTarget 164
    ab00000000000000000000020000000000000000ffffffff00000000 | | BadTarget 164
    // ldc of an int, a float, a class, an array, a string, a method handle, a method type.
    120a12121202 | | in order
    1209120b12161217 | | in order
    // ldc of nothing, a text, a field, a long, a double, a call site, and what is out of the pool.
    1200 | | BadIndex 164
    1201 | | BadIndex 164
    120e | | BadIndex 164
    1210 | | BadIndex 164
    1213 | | BadIndex 164
    1218 | | BadIndex 164
    1219 | | BadIndex 164
    // ldc_w of an int and of a long; ldc2_w of a long, a double, an int, and the second index of a long.
    13000a | | in order
    130010 | | BadIndex 164
    140010140013 | | in order
    14000a | | BadIndex 164
    140011 | | BadIndex 164
    // getstatic, putstatic, getfield and putfield of a field; of a method, of nothing, of what is out of the pool, of a type.
    b2000eb3000eb4000eb5000e | | in order
    b2000f | | BadIndex 164
    b30000 | | BadIndex 164
    b40019 | | BadIndex 164
    b5ffff | | BadIndex 164
    b2000c | | BadIndex 164
    // invokevirtual of a method of a class, of an interface, of a field.
    b6000f | | in order
    b60015 | | BadIndex 164
    b6000e | | BadIndex 164
    // invokespecial and invokestatic of both, and of a field.
    b7000fb70015 | | in order
    b8000fb80015 | | in order
    b7000e | | BadIndex 164
    b80018 | | BadIndex 164
    // invokeinterface of a method of an interface, with other bytes behind it, and of a method of a class.
    b900150100 | | in order
    b90015ffff | | in order
    b9000f0100 | | BadIndex 164
    // invokedynamic of a call site, with other bytes behind it, and of a method.
    ba00180000 | | in order
    ba0018ffff | | in order
    ba000f0000 | | BadIndex 164
    // new of a class, an array, the name of a class.
    bb0002 | | in order
    bb0009 | | BadIndex 164
    bb0001 | | BadIndex 164
    // anewarray, checkcast, instanceof and multianewarray of both, and of others; no dimension at all.
    bd0002bd0009 | | in order
    c00002c00009 | | in order
    c10002c10009 | | in order
    c5000901c5000900 | | in order
    bd0008 | | BadIndex 164
    c0000a | | BadIndex 164
    c1000e | | BadIndex 164
    c5000101 | | BadIndex 164
    // newarray of the codes 4 to 11, 3, 12, 0, 255.
    bc04bc05bc06bc07bc08bc09bc0abc0b | | in order
    bc03 | | BadIndex 164
    bc0c | | BadIndex 164
    bc00 | | BadIndex 164
    00bcff | | BadIndex 165
    // The least place decides: an index before an opcode, before a target, behind a target, behind wide, behind a switch.
    1200ca | | BadIndex 164
    b20000a70001 | | BadIndex 164
    a700011200 | | BadTarget 164
    c41500001200 | | BadIndex 168
    000000aa000000000000000000000000000000001200 | | BadIndex 184
    // A row over four instructions, its end the last one and the end of the code.
    000000b1 | 0000 0003 0000 0000 | in order
    000000b1 | 0000 0004 0003 0000 | in order
    b1 | 0000 0001 0000 0002 | in order
    // An end behind the code, the start at the end, the start above the end.
    000000b1 | 0000 0005 0000 0000 | BadTarget 170
    000000b1 | 0000 ffff 0000 0000 | BadTarget 170
    000000b1 | 0001 0001 0000 0000 | BadTarget 170
    000000b1 | 0002 0001 0000 0000 | BadTarget 170
    // A start, an end and a handler that are no instruction; a start and a handler at the end of the code.
    110000b1 | 0000 0003 0003 0000 | in order
    110000b1 | 0001 0004 0000 0000 | BadTarget 170
    110000b1 | 0000 0002 0000 0000 | BadTarget 170
    110000b1 | 0000 0004 0002 0000 | BadTarget 170
    110000b1 | 0000 0004 0004 0000 | BadTarget 170
    110000b1 | 0004 0005 0000 0000 | BadTarget 170
    110000b1 | 0000 0004 ffff 0000 | BadTarget 170
    // The second of two rows; both; a row of code that is at fault itself.
    000000b1 | 0000 0004 0000 0000 0000 0005 0000 0000 | BadTarget 178
    000000b1 | 0000 0005 0000 0000 0000 0005 0000 0000 | BadTarget 170
    a70001b1 | 0000 0005 0000 0000 | BadTarget 164
    120000b1 | 0000 0005 0000 0000 | BadIndex 164
    0000b1ca | 0000 0003 0003 0000 | BadOpcode 167
";

// What stands behind the pool, from place 130 on, and the first fault.
#[rattlefmt::skip]
const CLASSES: &str = "
    // The second of two methods, and both.
    0021 0002 0002 0000 0000 0002 0009 0003 0005 0001 0006 0000000d 0000 0000 00000001 b1 0000 0000 0009 0001 0005 0001 0006 0000000d 0000 0000 00000001 ca 0000 0000 0000 | BadOpcode 191
    0021 0002 0002 0000 0000 0002 0009 0003 0005 0001 0006 0000000e 0000 0000 00000002 1200 0000 0000 0009 0001 0005 0001 0006 0000000d 0000 0000 00000001 ca 0000 0000 0000 | BadIndex 164
    // Behind a native method, behind a row, behind an attribute of a Code, which is passed over.
    0021 0002 0002 0000 0000 0002 0109 0003 0005 0000 0009 0001 0005 0001 0006 0000000d 0000 0000 00000001 ca 0000 0000 0000 | BadOpcode 172
    0021 0002 0002 0000 0000 0002 0009 0003 0005 0001 0006 00000015 0000 0000 00000001 b1 0001 0000 0001 0000 0000 0000 0009 0001 0005 0001 0006 0000000d 0000 0000 00000001 ca 0000 0000 0000 | BadOpcode 199
    0021 0002 0002 0000 0000 0002 0009 0003 0005 0001 0006 00000014 0000 0000 00000001 b1 0000 0001 0006 00000001 ca 0009 0001 0005 0001 0006 0000000d 0000 0000 00000001 ca 0000 0000 0000 | BadOpcode 198
    0021 0002 0002 0000 0000 0001 0009 0003 0005 0001 0006 00000014 0000 0000 00000001 b1 0000 0001 0006 00000001 ca 0000 | in order
    // Behind another attribute of the method, an interface, a field with a Code, which is passed over, and one with a constant.
    0021 0002 0002 0000 0000 0001 0009 0003 0005 0002 0001 00000003 ffffff 0006 0000000d 0000 0000 00000001 ca 0000 0000 0000 | BadOpcode 173
    0021 0002 0002 0001 0002 0000 0001 0009 0003 0005 0001 0006 0000000d 0000 0000 00000001 ca 0000 0000 0000 | BadOpcode 166
    0021 0002 0002 0000 0001 0000 0003 0004 0001 0006 00000001 ca 0001 0009 0003 0005 0001 0006 0000000d 0000 0000 00000001 ca 0000 0000 0000 | BadOpcode 179
    0021 0002 0002 0000 0001 0000 0003 0004 0001 0007 00000002 000a 0001 0009 0003 0005 0001 0006 0000000d 0000 0000 00000001 ca 0000 0000 0000 | BadOpcode 180
    // The Code of a class is passed over.
    0021 0002 0002 0000 0000 0000 0001 0006 00000001 ca | in order
";

#[test]
fn the_code_of_methods_is_in_order_or_has_its_first_fault(rt: HostRuntime) {
    one_verdict();
    one_file();
    for row in &rows(&rt, CODES) {
        let (code, table, wanted) = three_of(&rt, row);
        let bytes = with_code(&rt, &bytes_of(&rt, code), &bytes_of(&rt, table));
        assert!(rt; judged(&rt, &bytes).as_str() == wanted, "{row}");
    }
    for row in &rows(&rt, CLASSES) {
        let (class, wanted) = two_of(&rt, row);
        let mut bytes = bytes_of(&rt, FRONT);
        bytes
            .extend_from_slice(&bytes_of(&rt, class))
            .expect(&rt, "memory");
        assert!(rt; judged(&rt, &bytes).as_str() == wanted, "{row}");
    }
}

// Two methods, of which the first has a nop and a return and the second a return, with a native one between them.
const TWO_BODIES: &str = "
    0021 0002 0002 0000 0000 0003 0009 0003 0005 0001 0006 0000000e 0000 0000 00000002 00b1 0000 0000
    0109 0004 0005 0000 0009 0001 0005 0001 0006 0000000d 0000 0000 00000001 b1 0000 0000 0000
";

#[test]
fn the_instructions_of_each_code_are_handed_back_in_file_order(rt: HostRuntime) {
    let alloc = rt.alloc();
    let mut bytes = bytes_of(&rt, FRONT);
    bytes
        .extend_from_slice(&bytes_of(&rt, TWO_BODIES))
        .expect(&rt, "memory");
    let structure = read_structure(alloc, &bytes).expect(&rt, "a structure");
    let texts = judge(alloc, &structure).expect(&rt, "no fault");
    let bodies = judge_bodies(alloc, &structure, texts.as_slice()).expect(&rt, "no fault");
    let printed = format!(in alloc; "{bodies:?}").expect(&rt, "memory");
    let wanted =
        "List { items: [List { items: [Placed { pc: 0, instr: Nop }, Placed { pc: 1, instr: Return(Nothing) }] }, List { items: [Placed { pc: 0, instr: Return(Nothing) }] }] }";
    assert!(rt; printed.as_str() == wanted);
    let pool = structure.pool.entries.as_slice();
    let need = need_of(&Instr::Call(Call::Static(15)));
    assert!(rt; need == Need::Pooled(PoolKind::AnyMethod, 15));
    assert!(rt; is_met(pool, texts.as_slice(), need));
    assert!(rt; !is_met(pool, texts.as_slice(), Need::Pooled(PoolKind::Field, 15)));
}

/// As many rows as there can be, over a code of 65,535 bytes, the last of which is at fault or not.
pub(crate) fn large<R: Abort + AllocGlobal>(rt: &R, last_end: u16) -> Vec<u8> {
    let mut code = vec![in rt.alloc(); 0; 65535].expect(rt, "memory");
    code[65534] = 0xb1;
    let mut table = Vec::new(rt.alloc());
    for n in 0..65535u16 {
        let end = if n == 65534 { last_end } else { 65535 };
        for number in [0, end, n, 0u16] {
            table
                .extend_from_slice(&number.to_be_bytes())
                .expect(rt, "memory");
        }
    }
    with_code(rt, &code, &table)
}

#[test]
fn a_table_of_65535_rows_over_65535_instructions_is_judged(rt: HostRuntime) {
    assert!(rt; judged(&rt, &large(&rt, 65535)).as_str() == "in order");
    assert!(rt; judged(&rt, &large(&rt, 0)).as_str() == "BadTarget 589973");
}
