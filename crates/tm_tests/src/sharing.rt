// Which operations are one term.
use crate::tables::{made, pair_of, stands, valued};
use std::process::Abort;
use tm_terms::{Bank, Op, Sort, TermId, growth_laws, term_laws};

#[test]
fn equal_operations_are_one_term(rt: HostRuntime) {
    let mut bank = Bank::new(rt.alloc());
    let x = made(&rt, &mut bank, Op::Free(Sort::W32));
    let y = made(&rt, &mut bank, Op::Free(Sort::W32));
    assert!(&rt; x != y);
    let sum = made(&rt, &mut bank, Op::Add(x, y));
    assert!(&rt; made(&rt, &mut bank, Op::Add(x, y)) == sum);
    assert!(&rt; made(&rt, &mut bank, Op::Add(y, x)) == sum);
    let two = made(&rt, &mut bank, Op::Const(Sort::W32, 2));
    let three = made(&rt, &mut bank, Op::Const(Sort::W32, 3));
    let five = made(&rt, &mut bank, Op::Const(Sort::W32, 5));
    assert!(&rt; made(&rt, &mut bank, Op::Add(two, three)) == five);
    assert!(&rt; bank.count() == 6);
}

#[test]
fn a_chain_of_sums_is_valued(rt: HostRuntime) {
    let mut bank = Bank::new(rt.alloc());
    let mut sum = made(&rt, &mut bank, Op::Free(Sort::W64));
    for _ in 0..100_000 {
        let x = made(&rt, &mut bank, Op::Free(Sort::W64));
        sum = made(&rt, &mut bank, Op::Add(sum, x));
    }
    assert!(&rt; bank.count() == 200_001);
    assert!(&rt; valued(&rt, &bank, &[7, 8, 9], sum) == 24);
}

// The terms t and f are true and false, x and y free truth values, n is Not x, p And x y, q Or x y, r And x (Not y); z, o and d are the
// constants 0, 1 and 2 of 32 bits, i and j free words, a is Add i j, b is Add i o, e is Add i d. A row has an operation on them, and the term that it is.
const TRUTHS: &str = "
    Not n | x
    And x t | x
    And t x | x
    And x f | f
    And f x | f
    And x x | x
    And x n | f
    And n x | f
    And x p | p
    And p y | p
    And x q | x
    Or x t | t
    Or t x | t
    Or x f | x
    Or f x | x
    Or x x | x
    Or n x | t
    Or x p | x
    Or q y | q
    Or p r | x
    Or r p | x
    Equal x t | x
    Equal x f | n
    Equal f x | n
    Equal x x | t
    Below x x | f
    Less x x | f
    If t x y | x
    If f x y | y
    If x y y | y
    If x t f | x
    If x f t | n
    If x y f | p
    If x t y | q
    Not t | f
    And y x | p
    Or y x | q
";

const WORDS: &str = "
    Add i z | i
    Add z i | i
    Sub i z | i
    Sub i i | z
    Mul i o | i
    Mul o i | i
    Mul i z | z
    Mul z i | z
    Shl i z | i
    Ushr i z | i
    BitAnd i z | z
    BitAnd i i | i
    BitOr i z | i
    BitOr z i | i
    BitOr i i | i
    BitXor i z | i
    BitXor i i | z
    Equal i i | t
    Less i i | f
    Below i i | f
    Add j i | a
    Add o o | d
    Add b o | e
    Add o b | e
    Sub o o | z
    If t i j | i
    If x j j | j
";

/// The terms of the rows by their names.
fn named<R: Abort + AllocGlobal>(rt: &R, bank: &mut Bank) -> Vec<(char, TermId)> {
    let mut terms = Vec::new(rt.alloc());
    let t = made(rt, bank, Op::Const(Sort::Bool, 1));
    let f = made(rt, bank, Op::Const(Sort::Bool, 0));
    let x = made(rt, bank, Op::Free(Sort::Bool));
    let y = made(rt, bank, Op::Free(Sort::Bool));
    let n = made(rt, bank, Op::Not(x));
    let m = made(rt, bank, Op::Not(y));
    let p = made(rt, bank, Op::And(x, y));
    let q = made(rt, bank, Op::Or(x, y));
    let r = made(rt, bank, Op::And(x, m));
    for term in [
        ('t', t),
        ('f', f),
        ('x', x),
        ('y', y),
        ('n', n),
        ('p', p),
        ('q', q),
        ('r', r),
    ] {
        terms.push(term).expect(rt, "memory");
    }
    let z = made(rt, bank, Op::Const(Sort::W32, 0));
    let o = made(rt, bank, Op::Const(Sort::W32, 1));
    let d = made(rt, bank, Op::Const(Sort::W32, 2));
    let i = made(rt, bank, Op::Free(Sort::W32));
    let j = made(rt, bank, Op::Free(Sort::W32));
    let a = made(rt, bank, Op::Add(i, j));
    let b = made(rt, bank, Op::Add(i, o));
    let e = made(rt, bank, Op::Add(i, d));
    for term in [
        ('z', z),
        ('o', o),
        ('d', d),
        ('i', i),
        ('j', j),
        ('a', a),
        ('b', b),
        ('e', e),
    ] {
        terms.push(term).expect(rt, "memory");
    }
    terms
}

/// The term of a name.
fn term<R: Abort>(rt: &R, terms: &[(char, TermId)], name: Option<&str>) -> TermId {
    let name = name.expect(rt, "a name").chars().next();
    for (other, id) in terms {
        if Some(*other) == name {
            return *id;
        }
    }
    panic!(rt; "a term")
}

#[test]
fn operations_that_are_terms_make_none(rt: HostRuntime) {
    let mut bank = Bank::new(rt.alloc());
    let terms = named(&rt, &mut bank);
    let count = bank.count();
    for row in TRUTHS.trim().lines().chain(WORDS.trim().lines()) {
        let (front, same) = row.split_once('|').expect(&rt, "a bar");
        let mut cells = front.split_whitespace();
        let name = cells.next().expect(&rt, "a name");
        let a = term(&rt, terms.as_slice(), cells.next());
        let op = match name {
            "Not" => Op::Not(a),
            "If" => Op::If(
                a,
                term(&rt, terms.as_slice(), cells.next()),
                term(&rt, terms.as_slice(), cells.next()),
            ),
            _ => pair_of(&rt, name, a, term(&rt, terms.as_slice(), cells.next())),
        };
        assert!(&rt; made(&rt, &mut bank, op) == term(&rt, terms.as_slice(), Some(same.trim())));
        assert!(&rt; bank.count() == count);
    }
}

#[test]
fn a_copy_grows_alone(rt: HostRuntime) {
    let alloc = rt.alloc();
    growth_laws();
    term_laws();
    let mut bank = Bank::new(alloc);
    let x = made(&rt, &mut bank, Op::Free(Sort::W32));
    let mut copy = bank.copy(alloc).expect(&rt, "memory");
    let y = made(&rt, &mut copy, Op::Sub(x, x));
    copy.laws();
    assert!(&rt; bank.count() == 1 && copy.count() == 2);
    assert!(&rt; stands(&rt, &copy, y) == Op::Const(Sort::W32, 0));
    assert!(&rt; y.0 < copy.count());
    assert!(&rt; copy.sort(y) == Sort::W32 && Sort::W32.width() == 32);
}
