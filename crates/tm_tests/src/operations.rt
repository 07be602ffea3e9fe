// Each operation at each sort, on free terms under a valuation and on constants.
use crate::rows::{EDGES, ROWS};
use crate::tables::{hex_number, made, pair_of, sort_of, stands, valued};
use std::process::Abort;
use tm_terms::{Bank, Op, Sort, TermId};

/// The sort of an operation on words of a sort.
fn sort_given(name: &str, sort: Sort) -> Sort {
    match name {
        "Less" | "Below" | "Equal" => Sort::Bool,
        _ => sort,
    }
}

// That an operation on two words gives a number, on free terms and on constants.
fn gives<R: Abort + AllocGlobal>(rt: &R, name: &str, sort: Sort, x: u64, y: u64, z: u64) {
    let mut bank = Bank::new(rt.alloc());
    let a = made(rt, &mut bank, Op::Free(sort));
    let b = made(rt, &mut bank, Op::Free(sort));
    let op = pair_of(rt, name, a, b);
    let free = made(rt, &mut bank, op);
    assert!(rt; valued(rt, &bank, &[x, y], free) == z);
    let a = made(rt, &mut bank, Op::Const(sort, x));
    let b = made(rt, &mut bank, Op::Const(sort, y));
    let op = pair_of(rt, name, a, b);
    let folded = made(rt, &mut bank, op);
    assert!(rt; stands(rt, &bank, folded) == Op::Const(sort_given(name, sort), z));
}

#[test]
fn words_are_computed_as_the_jvm_does(rt: HostRuntime) {
    for row in ROWS.trim().lines() {
        let (front, results) = row.split_once('|').expect(&rt, "a bar");
        let mut cells = front.split_whitespace();
        let name = cells.next().expect(&rt, "a name");
        let width = cells
            .next()
            .expect(&rt, "a width")
            .parse::<u32>()
            .expect(&rt, "a number");
        let x = hex_number(&rt, cells.next().expect(&rt, "a number"));
        for (edges_width, edges) in EDGES {
            if edges_width == width {
                for (y, z) in edges.iter().zip(results.split_whitespace()) {
                    gives(&rt, name, sort_of(width), x, *y, hex_number(&rt, z));
                }
            }
        }
    }
}

// Operations on truth values and choices: what they give at 0 0, 0 1, 1 0 and 1 1. Words of one bit are truth values; the greatest is -1
// where it has a sign.
const TRUTHS: &str = "
    And | 0 0 0 1
    Or | 0 1 1 1
    Equal | 1 0 0 1
    Below | 0 1 0 0
    Less | 0 0 1 0
    Add | 0 1 1 0
    Sub | 0 1 1 0
    Mul | 0 0 0 1
    Div | 0 0 0 1
    Rem | 0 0 0 0
    Shl | 0 0 1 1
    Shr | 0 0 1 1
    Ushr | 0 0 1 1
    BitAnd | 0 0 0 1
    BitOr | 0 1 1 1
    BitXor | 0 1 1 0
";

#[test]
fn truth_values_are_words_of_one_bit(rt: HostRuntime) {
    for row in TRUTHS.trim().lines() {
        let (name, results) = row.split_once('|').expect(&rt, "a bar");
        for (i, z) in results.split_whitespace().enumerate() {
            let i = i as u64;
            gives(
                &rt,
                name.trim(),
                Sort::Bool,
                i / 2,
                i % 2,
                hex_number(&rt, z),
            );
        }
    }
}

// A width, the width that it is taken to, a word, and the words that Widen, WidenZero and Cut give (JVM Specification SE 8, 6.5: i2l, l2i,
// i2s and i2c are these at 16, 32 and 64 bits); a bar where the sorts do not fit.
const CONVERSIONS: &str = "
    1 1 1 | 1 1 1
    1 16 1 | ffff 1 -
    1 32 1 | ffffffff 1 -
    1 64 1 | ffffffffffffffff 1 -
    1 64 0 | 0 0 -
    16 1 fffe | - - 0
    16 1 8001 | - - 1
    16 16 8001 | 8001 8001 8001
    16 32 7fff | 7fff 7fff -
    16 32 8000 | ffff8000 8000 -
    16 64 ffff | ffffffffffffffff ffff -
    32 1 80000001 | - - 1
    32 16 12348001 | - - 8001
    32 32 ffffffff | ffffffff ffffffff ffffffff
    32 64 7fffffff | 7fffffff 7fffffff -
    32 64 80000000 | ffffffff80000000 80000000 -
    64 1 8000000000000000 | - - 0
    64 16 123456789abcdef0 | - - def0
    64 32 123456789abcdef0 | - - 9abcdef0
    64 64 8000000000000000 | 8000000000000000 8000000000000000 8000000000000000
";

/// The operation that takes a term to a sort.
fn conversion(i: usize, to: Sort, a: TermId) -> Op {
    match i {
        0 => Op::Widen(to, a),
        1 => Op::WidenZero(to, a),
        _ => Op::Cut(to, a),
    }
}

// That an operation on one free word gives a number, and that on a constant; where it fits.
fn gives_one<R: Abort + AllocGlobal>(rt: &R, i: usize, from: Sort, to: Sort, x: u64, z: &str) {
    let mut bank = Bank::new(rt.alloc());
    let a = made(rt, &mut bank, Op::Free(from));
    let op = conversion(i, to, a);
    if z == "-" {
        assert!(rt; !bank.fits(op));
        return;
    }
    let free = made(rt, &mut bank, op);
    assert!(rt; valued(rt, &bank, &[x], free) == hex_number(rt, z));
    let a = made(rt, &mut bank, Op::Const(from, x));
    let folded = made(rt, &mut bank, conversion(i, to, a));
    assert!(rt; stands(rt, &bank, folded) == Op::Const(to, hex_number(rt, z)));
}

#[test]
fn words_are_taken_to_other_sorts(rt: HostRuntime) {
    for row in CONVERSIONS.trim().lines() {
        let (front, results) = row.split_once('|').expect(&rt, "a bar");
        let mut cells = front.split_whitespace();
        let from = cells
            .next()
            .expect(&rt, "a width")
            .parse::<u32>()
            .expect(&rt, "a number");
        let to = cells
            .next()
            .expect(&rt, "a width")
            .parse::<u32>()
            .expect(&rt, "a number");
        let x = hex_number(&rt, cells.next().expect(&rt, "a number"));
        for (i, z) in results.split_whitespace().enumerate() {
            gives_one(&rt, i, sort_of(from), sort_of(to), x, z);
        }
    }
}

#[test]
fn a_choice_has_the_value_of_its_arm(rt: HostRuntime) {
    for sort in [Sort::Bool, Sort::W16, Sort::W32, Sort::W64] {
        let mut bank = Bank::new(rt.alloc());
        let c = made(&rt, &mut bank, Op::Free(Sort::Bool));
        let a = made(&rt, &mut bank, Op::Free(sort));
        let b = made(&rt, &mut bank, Op::Free(sort));
        let choice = made(&rt, &mut bank, Op::If(c, a, b));
        assert!(&rt; valued(&rt, &bank, &[1, 1, 0], choice) == 1);
        assert!(&rt; valued(&rt, &bank, &[0, 1, 0], choice) == 0);
        let not = made(&rt, &mut bank, Op::Not(c));
        assert!(&rt; valued(&rt, &bank, &[1], not) == 0);
        assert!(&rt; valued(&rt, &bank, &[0], not) == 1);
    }
}

#[test]
fn a_number_that_is_wanting_is_0_and_one_too_large_is_cut(rt: HostRuntime) {
    let mut bank = Bank::new(rt.alloc());
    let a = made(&rt, &mut bank, Op::Free(Sort::W16));
    let b = made(&rt, &mut bank, Op::Free(Sort::W16));
    let k = made(&rt, &mut bank, Op::Const(Sort::W16, 0x1_0005));
    assert!(&rt; stands(&rt, &bank, k) == Op::Const(Sort::W16, 5));
    assert!(&rt; valued(&rt, &bank, &[0x1_0007], a) == 7);
    assert!(&rt; valued(&rt, &bank, &[0x1_0007], b) == 0);
    assert!(&rt; valued(&rt, &bank, &[1, 2, 3], b) == 2);
}
