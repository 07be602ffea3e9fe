// Each call over words of fresh variables, at given numbers, against numbers.
use crate::extension::{extended, value_of};
use bb_arith::{add, below, choose, divrem, less, mul, shl, shr, sub, ushr};
use cn_clauses::{Assignment, Formula, Lit};
use jv_list::List;
use std::process::Abort;

#[derive(Clone, Copy, Debug, PartialEq, Eq)]
enum Call {
    Below,
    Less,
    Add,
    Sub,
    Choose,
    Mul,
    Shl,
    Shr,
    Ushr,
    Quotient,
    Remainder,
}

// A call, and the variables and clauses that it adds over free operands at W 8, 16, 32 and 64.
#[rattlefmt::skip]
const CALLS: [(Call, [(usize, usize); 4]); 11] = [
    (Call::Below, [(9, 46), (17, 94), (33, 190), (65, 382)]),
    (Call::Less, [(9, 46), (17, 94), (33, 190), (65, 382)]),
    (Call::Add, [(16, 100), (32, 212), (64, 436), (128, 884)]),
    (Call::Sub, [(16, 100), (32, 212), (64, 436), (128, 884)]),
    (Call::Choose, [(8, 32), (16, 64), (32, 128), (64, 256)]),
    (Call::Mul, [(86, 413), (362, 1897), (1490, 8129), (6050, 33649)]),
    (Call::Shl, [(25, 90), (65, 242), (161, 610), (385, 1474)]),
    (Call::Shr, [(21, 84), (60, 240), (155, 620), (378, 1512)]),
    (Call::Ushr, [(25, 90), (65, 242), (161, 610), (385, 1474)]),
    (Call::Quotient, [(353, 1702), (1233, 6518), (4529, 25366), (17265, 99926)]),
    (Call::Remainder, [(353, 1702), (1233, 6518), (4529, 25366), (17265, 99926)]),
];

/// The number whose lowest bits are ones, as many as the width.
fn ones(width: usize) -> u64 {
    let mut ones = 0_u64;
    for _ in 0..width {
        ones = ones.wrapping_mul(2).wrapping_add(1);
    }
    ones
}

/// The number of some bits as a signed one.
fn signed(x: u64, ones: u64) -> i64 {
    if x > ones / 2 {
        (x | !ones).cast_signed()
    } else {
        x.cast_signed()
    }
}

/// The quotient, or what it leaves.
fn divided(call: Call, x: i64, divisor: i64) -> i64 {
    if divisor == 0 {
        0
    } else if call == Call::Quotient {
        x.wrapping_div(divisor)
    } else {
        x.wrapping_rem(divisor)
    }
}

/// The number that the call is to give, 1 for true. The choice is whether the first number is greater.
fn expected(call: Call, width: usize, x: u64, y: u64) -> u64 {
    let ones = ones(width);
    let distance = u32::try_from(y & (width as u64).wrapping_sub(1)).unwrap_or(0);
    match call {
        Call::Below => u64::from(x < y),
        Call::Less => u64::from(signed(x, ones) < signed(y, ones)),
        Call::Add => x.wrapping_add(y) & ones,
        Call::Sub => x.wrapping_sub(y) & ones,
        Call::Choose => x.max(y),
        Call::Mul => x.wrapping_mul(y) & ones,
        Call::Shl => x.wrapping_shl(distance) & ones,
        Call::Shr => signed(x, ones).wrapping_shr(distance).cast_unsigned() & ones,
        Call::Ushr => x.wrapping_shr(distance),
        Call::Quotient | Call::Remainder => {
            divided(call, signed(x, ones), signed(y, ones)).cast_unsigned() & ones
        }
    }
}

/// A formula with a choice, two words and the answer of a call over these.
#[derive(Drop)]
struct Made {
    formula: Formula,
    inputs: usize,
    lits: List<Lit>,
}

// Makes each literal of the word a fresh variable.
fn fill<R: Abort, const W: usize>(rt: &R, formula: &mut Formula, word: &mut [Lit; W]) {
    for lit in word.iter_mut() {
        *lit = formula.fresh().expect(rt, "memory");
    }
}

/// The literals of the answer, the lowest bit first.
fn answer<R: Abort + AllocGlobal, const W: usize>(
    rt: &R,
    formula: &mut Formula,
    call: Call,
    choice: Lit,
    a: &[Lit; W],
    b: &[Lit; W],
) -> List<Lit> {
    let alloc = rt.alloc();
    assert!(rt; formula.covers(&[choice]) && formula.covers(a) && formula.covers(b));
    assert!(rt; W.is_power_of_two() && W <= 64);
    let mut lits = List::new(alloc);
    let word = match call {
        Call::Below | Call::Less => {
            let lit = if call == Call::Below {
                below(alloc, formula, a, b)
            } else {
                less(alloc, formula, a, b)
            };
            lits.add(lit.expect(rt, "memory")).expect(rt, "memory");
            return lits;
        }
        Call::Quotient | Call::Remainder => {
            let made = divrem(alloc, formula, a, b).expect(rt, "memory");
            Ok(if call == Call::Quotient {
                made.quotient
            } else {
                made.remainder
            })
        }
        Call::Add => add(alloc, formula, a, b),
        Call::Sub => sub(alloc, formula, a, b),
        Call::Choose => choose(alloc, formula, choice, a, b),
        Call::Mul => mul(alloc, formula, a, b),
        Call::Shl => shl(alloc, formula, a, b),
        Call::Shr => shr(alloc, formula, a, b),
        Call::Ushr => ushr(alloc, formula, a, b),
    };
    lits.extend(&word.expect(rt, "memory")).expect(rt, "memory");
    lits
}

/// The call over words as wide as this one, whose literals tell nothing.
fn make<R: Abort + AllocGlobal, const W: usize>(rt: &R, call: Call, word: &[Lit; W]) -> Made {
    let mut formula = Formula::new(rt.alloc());
    let choice = formula.fresh().expect(rt, "memory");
    let mut a = *word;
    fill(rt, &mut formula, &mut a);
    let mut b = *word;
    fill(rt, &mut formula, &mut b);
    let inputs = formula.variables.length();
    let lits = answer(rt, &mut formula, call, choice, &a, &b);
    Made {
        formula,
        inputs,
        lits,
    }
}

pub(crate) fn put_bits<R: Abort>(rt: &R, values: &mut List<bool>, width: usize, number: u64) {
    let mut rest = number;
    for _ in 0..width {
        values.add(rest % 2 == 1).expect(rt, "memory");
        rest /= 2;
    }
}

/// The number that the literals show, the lowest bit first.
pub(crate) fn shown<R: Abort>(rt: &R, a: &Assignment, lits: &[Lit]) -> u64 {
    let mut number = 0_u64;
    for lit in lits.iter().rev() {
        number = number
            .wrapping_mul(2)
            .wrapping_add(u64::from(value_of(rt, a, *lit)));
    }
    number
}

fn agree<R: Abort + AllocGlobal>(rt: &R, call: Call, width: usize, made: &Made, x: u64, y: u64) {
    let mut values = List::new(rt.alloc());
    values.add(x > y).expect(rt, "memory");
    put_bits(rt, &mut values, width, x);
    put_bits(rt, &mut values, width, y);
    let a = extended(rt, &made.formula, values);
    let number = shown(rt, &a, made.lits.as_slice());
    assert!(rt;
        number == expected(call, width, x, y),
        "{call:?} of {width} bits at {x} and {y}"
    );
}

/// All numbers of so many bits.
fn all_numbers<R: Abort + AllocGlobal>(rt: &R, width: usize) -> Vec<u64> {
    let mut numbers = Vec::new(rt.alloc());
    for number in 0..ones(width).wrapping_add(1) {
        numbers.push(number).expect(rt, "memory");
    }
    numbers
}

/// Numbers of so many bits: the least and the greatest ones, with a sign and without, and some drawn at random.
fn some_numbers<R: Abort + AllocGlobal>(rt: &R, width: usize) -> Vec<u64> {
    let ones = ones(width);
    let mut numbers = Vec::new(rt.alloc());
    for number in [
        0,
        1,
        2,
        ones / 3,
        ones / 2,
        ones / 2 + 1,
        ones.wrapping_sub(1),
        ones,
    ] {
        numbers.push(number).expect(rt, "memory");
    }
    let mut drawn = 1_u64;
    for _ in 0..if width > 16 { 4 } else { 12 } {
        drawn = drawn
            .wrapping_mul(6_364_136_223_846_793_005)
            .wrapping_add(1_442_695_040_888_963_407);
        numbers
            .push((drawn >> 32 ^ drawn) & ones)
            .expect(rt, "memory");
    }
    numbers
}

// Each call at all pairs of numbers of so many bits; a division of words of more than four bits by some of them.
fn all_agree<R: Abort + AllocGlobal, const W: usize>(rt: &R, word: &[Lit; W]) {
    let all = all_numbers(rt, W);
    let some = some_numbers(rt, W);
    for (call, _) in CALLS {
        let made = make(rt, call, word);
        let divides = call == Call::Quotient || call == Call::Remainder;
        let others = if divides && W > 4 {
            some.as_slice()
        } else {
            all.as_slice()
        };
        for x in &all {
            for y in others {
                agree(rt, call, W, &made, *x, *y);
            }
        }
    }
}

#[test]
fn short_words_agree_with_all_numbers(rt: HostRuntime) {
    all_agree(&rt, &[Lit(0); 1]);
    all_agree(&rt, &[Lit(0); 2]);
    all_agree(&rt, &[Lit(0); 4]);
    all_agree(&rt, &[Lit(0); 8]);
}

// Each call at pairs of some numbers of so many bits, and its size.
fn some_agree<R: Abort + AllocGlobal, const W: usize>(rt: &R, word: &[Lit; W], column: usize) {
    let numbers = some_numbers(rt, W);
    for (call, sizes) in CALLS {
        let made = make(rt, call, word);
        for x in &numbers {
            for y in &numbers {
                agree(rt, call, W, &made, *x, *y);
            }
        }
        let (variables, clauses) = sizes.get(column).expect(rt, "a column");
        assert!(rt;
            made.formula.variables.length() == made.inputs.wrapping_add(*variables),
            "{call:?} of {W} bits"
        );
        assert!(rt;
            made.formula.clauses.length() == *clauses,
            "{call:?} of {W} bits"
        );
    }
}

#[test]
fn words_agree_with_some_numbers_and_have_their_sizes(rt: HostRuntime) {
    some_agree(&rt, &[Lit(0); 8], 0);
    some_agree(&rt, &[Lit(0); 16], 1);
    some_agree(&rt, &[Lit(0); 32], 2);
    some_agree(&rt, &[Lit(0); 64], 3);
}
