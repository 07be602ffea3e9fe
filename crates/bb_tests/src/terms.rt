// Terms and the literals that they get, under the same bits.
use crate::arithmetic::{put_bits, shown};
use crate::extension::extended;
use bb_terms::{Table, blast, blasting_laws};
use cn_clauses::{Formula, Lit};
use jv_list::List;
use std::process::Abort;
use tm_terms::{Bank, Op, Sort, TermId, Valuation};

/// The term of an operation that fits.
fn made<R: Abort>(rt: &R, bank: &mut Bank, op: Op) -> TermId {
    assert!(rt; bank.fits(op));
    bank.make(op).expect(rt, "memory")
}

/// The value of a term where the first two free terms have these numbers.
fn valued<R: Abort + AllocGlobal>(rt: &R, bank: &Bank, numbers: &[u64], id: TermId) -> u64 {
    let alloc = rt.alloc();
    assert!(rt; id.0 < bank.count());
    let v = Valuation {
        numbers: List::copied(alloc, numbers).expect(rt, "memory"),
    };
    bank.value(alloc, &v, id).expect(rt, "memory")
}

/// A formula with the literals of free terms of so many bits, its variables and clauses then, and the literals of a term.
#[derive(Drop)]
struct Blasted {
    formula: Formula,
    width: usize,
    inputs: usize,
    clauses: usize,
    id: TermId,
    lits: List<Lit>,
}

// The literals of a term, those of three others first.
fn literals_of<R: Abort + AllocGlobal>(
    rt: &R,
    bank: &Bank,
    width: usize,
    others: (TermId, TermId, TermId),
    id: TermId,
) -> Blasted {
    blasting_laws();
    let alloc = rt.alloc();
    let (x, y, z) = others;
    let count = bank.count();
    assert!(rt; x.0 < count && y.0 < count && z.0 < count && id.0 < count);
    let mut formula = Formula::new(alloc);
    let mut table = Table::new(alloc);
    let _ = blast(alloc, &mut formula, &mut table, bank, x).expect(rt, "memory");
    let _ = blast(alloc, &mut formula, &mut table, bank, y).expect(rt, "memory");
    let _ = blast(alloc, &mut formula, &mut table, bank, z).expect(rt, "memory");
    let inputs = formula.variables.length();
    let clauses = formula.clauses.length();
    let lits = blast(alloc, &mut formula, &mut table, bank, id).expect(rt, "memory");
    Blasted {
        formula,
        width,
        inputs,
        clauses,
        id,
        lits,
    }
}

// That the literals of a term show its value, where the two free terms have these numbers.
fn agree<R: Abort + AllocGlobal>(rt: &R, bank: &Bank, made: &Blasted, x: u64, y: u64) {
    let mut values = List::new(rt.alloc());
    put_bits(rt, &mut values, made.width, x);
    put_bits(rt, &mut values, made.width, y);
    let a = extended(rt, &made.formula, values);
    let number = shown(rt, &a, made.lits.as_slice());
    assert!(rt;
        number == valued(rt, bank, &[x, y], made.id),
        "term {} at {x} and {y}",
        made.id.0
    );
}

fn numbered_sort(number: u64) -> Sort {
    match number % 4 {
        0 => Sort::Bool,
        1 => Sort::W16,
        2 => Sort::W32,
        _ => Sort::W64,
    }
}

/// An operation, by a number below 34.
fn operation(number: u64, a: TermId, b: TermId, c: TermId) -> Op {
    match number {
        0 => Op::Not(a),
        1 => Op::And(a, b),
        2 => Op::Or(a, b),
        3 => Op::If(c, a, b),
        4 => Op::Equal(a, b),
        5 => Op::Below(a, b),
        6 => Op::Less(a, b),
        7 => Op::Add(a, b),
        8 => Op::Sub(a, b),
        9 => Op::Mul(a, b),
        10 => Op::Div(a, b),
        11 => Op::Rem(a, b),
        12 => Op::Shl(a, b),
        13 => Op::Shr(a, b),
        14 => Op::Ushr(a, b),
        15 => Op::BitAnd(a, b),
        16 => Op::BitOr(a, b),
        17 => Op::BitXor(a, b),
        18..=21 => Op::Widen(numbered_sort(number), a),
        22..=25 => Op::WidenZero(numbered_sort(number), a),
        26..=29 => Op::Cut(numbered_sort(number), a),
        _ => Op::Const(numbered_sort(number), 0x8000_0001_8000_8001),
    }
}

const SORTS: [(Sort, usize); 4] = [
    (Sort::Bool, 1),
    (Sort::W16, 16),
    (Sort::W32, 32),
    (Sort::W64, 64),
];

const EDGES: [u64; 8] = [
    0,
    1,
    2,
    0x7fff,
    0x8000,
    0xffff,
    0x7fff_ffff,
    0xffff_ffff_8000_0000,
];

#[test]
fn each_operation_at_each_sort_has_its_value(rt: HostRuntime) {
    let mut tried = 0_u64;
    for (sort, width) in SORTS {
        for number in 0..34 {
            let mut bank = Bank::new(rt.alloc());
            let x = made(&rt, &mut bank, Op::Free(sort));
            let y = made(&rt, &mut bank, Op::Free(sort));
            let choice = made(&rt, &mut bank, Op::Less(x, y));
            let op = operation(number, x, y, choice);
            if bank.fits(op) {
                tried = tried.wrapping_add(1);
                let id = made(&rt, &mut bank, op);
                let found = literals_of(&rt, &bank, width, (x, y, x), id);
                for a in EDGES {
                    for b in EDGES {
                        agree(&rt, &bank, &found, a, b);
                    }
                }
            }
        }
    }
    assert!(&rt; tried == 109, "{tried} operations");
}

/// The next of the numbers that are drawn.
fn drawn(last: u64) -> u64 {
    last.wrapping_mul(6_364_136_223_846_793_005)
        .wrapping_add(1_442_695_040_888_963_407)
}

// Puts random operations on the terms of a bank.
fn grow<R: Abort>(rt: &R, bank: &mut Bank, seed: u64) -> u64 {
    let mut state = seed;
    for _ in 0..60 {
        let count = bank.count().max(1);
        state = drawn(state);
        let number = state / 0x1_0000_0000 % 34;
        let a = TermId(state / 0x100_0000_0000 % count);
        state = drawn(state);
        let b = TermId(state / 0x1_0000_0000 % count);
        let c = TermId(state / 0x100_0000_0000 % count);
        let op = operation(number, a, b, c);
        if bank.fits(op) {
            let _ = bank.make(op).expect(rt, "memory");
        }
    }
    state
}

#[test]
fn random_graphs_have_their_values(rt: HostRuntime) {
    let mut state = 1;
    let mut terms = 0_u64;
    for _ in 0..500 {
        let mut bank = Bank::new(rt.alloc());
        let x = made(&rt, &mut bank, Op::Free(Sort::W16));
        let y = made(&rt, &mut bank, Op::Free(Sort::W16));
        let _ = made(&rt, &mut bank, Op::Less(x, y));
        state = grow(&rt, &mut bank, state);
        let id = TermId(bank.count().wrapping_sub(1));
        let found = literals_of(&rt, &bank, 16, (x, y, x), id);
        terms = terms.wrapping_add(bank.count());
        let random = state / 0x1_0000_0000;
        agree(&rt, &bank, &found, random % 65536, random / 65536);
        agree(&rt, &bank, &found, 0x8000, 0xffff);
    }
    assert!(&rt; terms > 10_000, "{terms} terms");
}

// What divisions of 16 bits give, the quotient and what it leaves: of the least number by -1, and by 0.
const DIVISIONS: [(u64, u64, u64, u64); 3] = [
    (32768, 65535, 32768, 0),
    (7, 0, 0, 0),
    (65529, 2, 65533, 65535),
];

#[test]
fn divisions_at_the_edges(rt: HostRuntime) {
    let mut bank = Bank::new(rt.alloc());
    let x = made(&rt, &mut bank, Op::Free(Sort::W16));
    let y = made(&rt, &mut bank, Op::Free(Sort::W16));
    let quotient = made(&rt, &mut bank, Op::Div(x, y));
    let rest = made(&rt, &mut bank, Op::Rem(x, y));
    let of_quotient = literals_of(&rt, &bank, 16, (x, y, x), quotient);
    let of_rest = literals_of(&rt, &bank, 16, (x, y, x), rest);
    for (a, b, q, r) in DIVISIONS {
        assert!(&rt; valued(&rt, &bank, &[a, b], quotient) == q);
        assert!(&rt; valued(&rt, &bank, &[a, b], rest) == r);
        agree(&rt, &bank, &of_quotient, a, b);
        agree(&rt, &bank, &of_rest, a, b);
    }
}

// The variables and clauses that an operation on free words of 32 bits adds, and on a free truth value.
const SIZES: [(u64, usize, usize); 4] = [
    (3, 32, 128),
    (7, 64, 436),
    (9, 1490, 8129),
    (10, 4529, 25366),
];

#[test]
fn operations_of_32_bits_have_their_sizes(rt: HostRuntime) {
    for (number, variables, clauses) in SIZES {
        let mut bank = Bank::new(rt.alloc());
        let x = made(&rt, &mut bank, Op::Free(Sort::W32));
        let y = made(&rt, &mut bank, Op::Free(Sort::W32));
        let choice = made(&rt, &mut bank, Op::Free(Sort::Bool));
        let id = made(&rt, &mut bank, operation(number, x, y, choice));
        let found = literals_of(&rt, &bank, 32, (x, y, choice), id);
        let more = found.formula.variables.length().wrapping_sub(found.inputs);
        let pushed = found.formula.clauses.length().wrapping_sub(found.clauses);
        assert!(&rt;
            more == variables && pushed == clauses,
            "{number}: {more} and {pushed}"
        );
    }
}
