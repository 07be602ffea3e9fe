// Operations by their names, and banks that are filled.
ghost use Rattle.std.specs.Prelude.{◌<◌, length};

use jv_base::List;
use std::process::Abort;
use tm_terms::{Bank, Op, Sort, TermId, Valuation};

/// The term of an operation that fits.
pub fn made<R: Abort>(rt: &R, bank: &mut Bank, op: Op) -> TermId {
    assert!(rt; bank.fits(op));
    bank.make(op).expect(rt, "memory")
}

/// The operation of a term.
pub fn stands<R: Abort>(rt: &R, bank: &Bank, id: TermId) -> Op {
    assert!(rt; id.0 < bank.count());
    *bank.op(id)
}

/// The value of a term where the free terms have these numbers.
pub fn valued<R: Abort + AllocGlobal>(rt: &R, bank: &Bank, numbers: &[u64], id: TermId) -> u64 {
    let alloc = rt.alloc();
    assert!(rt; id.0 < bank.count());
    let v = Valuation {
        numbers: List::copied(alloc, numbers).expect(rt, "memory"),
    };
    bank.value(alloc, &v, id).expect(rt, "memory")
}

/// The sort of so many bits.
pub fn sort_of(width: u32) -> Sort {
    match width {
        1 => Sort::Bool,
        16 => Sort::W16,
        32 => Sort::W32,
        _ => Sort::W64,
    }
}

/// The operation on two terms that has the name.
pub fn pair_of<R: Abort>(rt: &R, name: &str, a: TermId, b: TermId) -> Op {
    match name {
        "And" => Op::And(a, b),
        "Or" => Op::Or(a, b),
        "Equal" => Op::Equal(a, b),
        "Add" => Op::Add(a, b),
        "Sub" => Op::Sub(a, b),
        "Mul" => Op::Mul(a, b),
        "Div" => Op::Div(a, b),
        "Rem" => Op::Rem(a, b),
        "Shl" => Op::Shl(a, b),
        "Shr" => Op::Shr(a, b),
        "Ushr" => Op::Ushr(a, b),
        "BitAnd" => Op::BitAnd(a, b),
        "BitOr" => Op::BitOr(a, b),
        "BitXor" => Op::BitXor(a, b),
        "Less" => Op::Less(a, b),
        "Below" => Op::Below(a, b),
        _ => panic!(rt; "an operation"),
    }
}

/// A number in hexadecimal.
pub fn hex_number<R: Abort>(rt: &R, digits: &str) -> u64 {
    let mut number = 0_u64;
    for digit in digits.chars() {
        let digit = digit.to_digit(16).expect(rt, "a digit");
        number = number.wrapping_mul(16).wrapping_add(u64::from(digit));
    }
    number
}
