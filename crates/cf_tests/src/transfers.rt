// Which instruction can follow which, worked out by hand.
use crate::tables::{bytes_of, cut, number_of, rows, three_of};
use cf_code::{Instr, Placed, Row, read_instr, transfers};
use jv_list::List;
use std::fmt::Write;
use std::process::Abort;

/// The instructions of words like `4:a70003`, a pc and its bytes.
fn code_of<R: Abort + AllocGlobal>(rt: &R, words: &str) -> List<Placed> {
    let alloc = rt.alloc();
    let mut code = Vec::new(alloc);
    for word in words.split_whitespace() {
        let (pc, bytes) = cut(rt, word, ':');
        let pc = number_of(rt, pc);
        let instr = read_instr(alloc, pc, &bytes_of(rt, bytes))
            .expect(rt, "memory")
            .expect(rt, "an instruction");
        code.push(Placed { pc, instr }).expect(rt, "memory");
    }
    List::from_vec(code)
}

/// The rows of words like `1-4>7`, a start, an end and a handler.
fn table_of<R: Abort + AllocGlobal>(rt: &R, words: &str) -> List<Row> {
    let alloc = rt.alloc();
    let mut table = Vec::new(alloc);
    for word in words.split_whitespace() {
        let (range, handler) = cut(rt, word, '>');
        let (start, end) = cut(rt, range, '-');
        table
            .push(Row {
                start: number_of(rt, start),
                end: number_of(rt, end),
                handler: number_of(rt, handler),
                catch_type: 0,
            })
            .expect(rt, "memory");
    }
    List::from_vec(table)
}

// The code, its exception table, and the pairs of which the second can follow the first, like `1>4`.
const TRANSFERS: &str = "
    // instructions of each length, one that ends a method, one that falls off it, a gap, and pcs that do not rise
     |  |
    0:00 1:00 2:b1 |  | 0>1 1>2
    0:00 1:00 |  | 0>1
    0:00 2:b1 |  |
    1:b1 0:00 0:00 |  | 0>1
    65534:00 65535:00 0:00 |  | 65534>65535
    0:c48400010001 6:b900010100 11:c5000102 15:110001 18:1005 20:1201 22:c4150001 26:bb0001 29:c00001 32:bc0a 34:b20001 37:840101 40:15ff 42:1a 43:b1 |  | 0>6 6>11 11>15 15>18 18>20 20>22 22>26 26>29 29>32 32>34 34>37 37>40 40>42 42>43
    0:b1 1:01 2:bf 3:ac 4:b0 5:00 6:00 |  | 1>2 5>6
    // an if goes both ways, its two ways may be one; a goto, a jsr and a ret do not go on
    0:03 1:990004 4:00 5:b1 |  | 0>1 1>4 1>5 4>5
    0:03 1:9a0003 4:b1 |  | 0>1 1>4
    0:03 1:c7ffff 4:b1 |  | 0>1 1>0 1>4
    0:a70004 3:00 4:b1 |  | 0>4 3>4
    0:c800000006 5:00 6:c8fffffffa |  | 0>6 5>6 6>0
    0:a80004 3:b1 4:4c 5:a901 |  | 0>4 4>5
    0:c900000006 5:b1 6:4c 7:c4a90001 11:b1 |  | 0>6 6>7
    // targets that a switch names twice, its default among them, and a target that is the switch
    0:03 1:aa00000000001c00000000000000020000001b0000001c0000001b 28:00 29:b1 |  | 0>1 1>28 1>29 28>29
    0:ab0000000000001c00000002ffffffff0000001c000000050000001d 28:b1 29:b1 |  | 0>28 0>29
    0:ab0000000000000c00000000 12:b1 |  | 0>12
    0:ab00000000000014000000010000000700000000 20:b1 |  | 0>0 0>20
    // exception tables that hold one, all and no instruction, up to the end of the code; two rows with one handler;
    // a row that starts inside an instruction
    0:00 1:00 2:b1 3:bf | 1-2>3 | 0>1 1>2 1>3
    0:00 1:00 2:b1 3:bf | 0-4>3 | 0>1 0>3 1>2 1>3 2>3 3>3
    0:00 1:00 2:b1 3:bf | 2-2>3 4-9>3 | 0>1 1>2
    0:00 1:00 2:b1 3:bf | 0-1>3 0-2>3 | 0>1 0>3 1>2 1>3
    0:00 1:00 2:b1 3:bf | 2-3>3 2-3>0 | 0>1 1>2 2>0 2>3
    0:00 1:00 2:b1 3:bf | 1-2>2 | 0>1 1>2
    // rows of one handler that overlap, hold one another, touch or leave a gap, in any order and beside those of another
    0:00 1:00 2:00 3:00 4:00 5:b1 | 2-5>0 0-3>0 | 0>0 0>1 1>0 1>2 2>0 2>3 3>0 3>4 4>0 4>5
    0:00 1:00 2:00 3:00 4:00 5:b1 | 1-5>0 2-3>0 0-2>0 | 0>0 0>1 1>0 1>2 2>0 2>3 3>0 3>4 4>0 4>5
    0:00 1:00 2:00 3:00 4:00 5:b1 | 3-5>1 0-2>1 2-3>1 0-2>1 | 0>1 1>1 1>2 2>1 2>3 3>1 3>4 4>1 4>5
    0:00 1:00 2:00 3:00 4:00 5:b1 | 4-6>0 3-4>5 0-1>0 1-2>0 0-6>5 | 0>0 0>1 0>5 1>0 1>2 1>5 2>3 2>5 3>4 3>5 4>0 4>5 5>0 5>5
    0:00 1:00 2:00 3:00 4:00 5:b1 | 3-2>0 2-4>0 5-1>0 | 0>1 1>2 2>0 2>3 3>0 3>4 4>5
    0:110001 3:b1 | 1-3>3 | 0>3
    0:110001 3:b1 | 0-65535>3 | 0>3 3>3
";

#[test]
fn each_instruction_is_followed_by_what_can_be_next(rt: HostRuntime) {
    let alloc = rt.alloc();
    for row in &rows(&rt, TRANSFERS) {
        let (code, table, pairs) = three_of(&rt, row);
        let found = transfers(alloc, &code_of(&rt, code), &table_of(&rt, table)).expect(
            &rt, "memory",
        );
        let mut printed = String::new(alloc);
        for (from, to) in found.as_slice() {
            write!(printed, "{from}>{to} ").expect(&rt, "memory");
        }
        assert!(rt; printed.as_str().trim() == pairs, "{row}");
    }
}

/// How many pairs there are of as many instructions as a method can have, under as many rows that all hold them.
fn pairs_of_longest<R: Abort + AllocGlobal>(rt: &R) -> usize {
    let alloc = rt.alloc();
    let mut code = Vec::new(alloc);
    let mut table = Vec::new(alloc);
    for pc in 0..65535 {
        let instr = Instr::Nop;
        code.push(Placed { pc, instr }).expect(rt, "memory");
        table
            .push(Row {
                start: 0,
                end: 65535,
                handler: 7,
                catch_type: pc,
            })
            .expect(rt, "memory");
    }
    transfers(alloc, &List::from_vec(code), &List::from_vec(table))
        .expect(rt, "memory")
        .length()
}

#[test]
fn rows_with_one_handler_make_a_pair_once(rt: HostRuntime) {
    // 65,534 go on, and 65,535 to the handler, to which the one before it goes on too.
    assert!(rt; pairs_of_longest(&rt) == 131_068);
}
