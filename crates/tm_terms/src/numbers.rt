// The number that each operation names, computed.
ghost use Rattle.std.specs.Prelude.{◌≡◌, ◌+◌, ◌-◌, ◌*◌, ◌/◌, ◌%◌, ◌^◌, ◌<◌, int_lt, nat_lt};
ghost use Rattle.std.specs.Int.{int_shr};
ghost use Rattle.tm_terms.specs.Words.{width_of};
ghost use Rattle.jv_list.specs.Numbers.{signed_number, wrapped_number, bit_number};
ghost use Rattle.jv_list.specs.Numbers.{quotient_of, remainder_of};

use crate::op::Op;
use crate::sort::Sort;
use crate::words::{low, signed, wrapped};

pub(crate) fn sum(sort: Sort, x: u64, y: u64) -> u64
    ensures { result ≡ (x + y) % 2 ^ width_of sort }
{
    low(sort, x.wrapping_add(y))
}

fn difference(sort: Sort, x: u64, y: u64) -> u64
    requires { y < 2 ^ width_of sort }
    ensures { result ≡ (x + (2 ^ width_of sort - y)) % 2 ^ width_of sort }
{
    low(sort, x.wrapping_sub(y))
}

fn product(sort: Sort, x: u64, y: u64) -> u64
    ensures { result ≡ (x * y) % 2 ^ width_of sort }
{
    low(sort, x.wrapping_mul(y))
}

fn quotient(sort: Sort, x: u64, y: u64) -> u64
    ensures { result ≡ wrapped_number (width_of sort) (quotient_of (signed_number (width_of sort) x) (signed_number (width_of sort) y)) }
{
    let divisor = signed(sort, y);
    if divisor == 0 {
        0
    } else {
        wrapped(sort, signed(sort, x).wrapping_div(divisor))
    }
}

fn remainder(sort: Sort, x: u64, y: u64) -> u64
    ensures { result ≡ wrapped_number (width_of sort) (remainder_of (signed_number (width_of sort) x) (signed_number (width_of sort) y)) }
{
    let divisor = signed(sort, y);
    if divisor == 0 {
        0
    } else {
        wrapped(sort, signed(sort, x).wrapping_rem(divisor))
    }
}

// The distance of a shift.
fn distance(sort: Sort, y: u64) -> u32
    ensures value { result ≡ y % width_of sort }
    ensures within { result < 64 }
{
    (y % sort.width() as u64) as u32
}

fn moved_up(sort: Sort, x: u64, y: u64) -> u64
    ensures { result ≡ (x * 2 ^ (y % width_of sort)) % 2 ^ width_of sort }
{
    low(sort, x << distance(sort, y))
}

fn moved_down(sort: Sort, x: u64, y: u64) -> u64
    ensures { result ≡ x / 2 ^ (y % width_of sort) }
{
    x >> distance(sort, y)
}

fn moved_down_signed(sort: Sort, x: u64, y: u64) -> u64
    ensures { result ≡ wrapped_number (width_of sort) (int_shr (signed_number (width_of sort) x) (y % width_of sort)) }
{
    wrapped(sort, signed(sort, x) >> distance(sort, y))
}

fn less(sort: Sort, x: u64, y: u64) -> u64
    ensures { result ≡ bit_number (int_lt (signed_number (width_of sort) x) (signed_number (width_of sort) y)) }
{
    u64::from(signed(sort, x) < signed(sort, y))
}

fn widened(from: Sort, to: Sort, x: u64) -> u64
    ensures { result ≡ wrapped_number (width_of to) (signed_number (width_of from) x) }
{
    wrapped(to, signed(from, x))
}

// What the operands of an operation have: the sorts of the first two, and the numbers.
#[derive(Clone, Copy)]
pub(crate) struct Given {
    pub s: Sort,
    pub t: Sort,
    pub x: u64,
    pub y: u64,
    pub z: u64,
}

impl Op {
    ghost use Rattle.tm_terms.specs.declared.sort.Sort.{Sort};
    ghost use Rattle.tm_terms.specs.Operations.{sort_over, SortsFit};
    ghost use Rattle.tm_terms.specs.Equations.{named_number};

    // The number of an operation on what is given, modulo 2 to the power of its width.
    pub(crate) fn number_over(self, given: Given, input: u64) -> u64
        requires sorts { (u : Sort) × SortsFit given.s given.t u self }
        requires second { given.y < 2 ^ width_of given.t }
        ensures { result ≡ named_number given.s given.x given.y given.z input self % 2 ^ width_of (sort_over given.s given.t self) }
    {
        let Given { s, t, x, y, z } = given;
        let number = match self {
            Op::Free(_) => input,
            Op::Const(_, k) => k,
            Op::Not(_) => 1u64.saturating_sub(x),
            Op::And(_, _) => x.min(y),
            Op::Or(_, _) => x.max(y),
            Op::If(_, _, _) => { if x == 0 { z } else { y } }
            Op::Equal(_, _) => u64::from(x == y),
            Op::Add(_, _) => return sum(s, x, y),
            Op::Sub(_, _) => return difference(s, x, y),
            Op::Mul(_, _) => return product(s, x, y),
            Op::Div(_, _) => quotient(s, x, y),
            Op::Rem(_, _) => remainder(s, x, y),
            Op::Shl(_, _) => return moved_up(s, x, y),
            Op::Shr(_, _) => moved_down_signed(s, x, y),
            Op::Ushr(_, _) => moved_down(s, x, y),
            Op::BitAnd(_, _) => x & y,
            Op::BitOr(_, _) => x | y,
            Op::BitXor(_, _) => x ^ y,
            Op::Less(_, _) => less(s, x, y),
            Op::Below(_, _) => u64::from(x < y),
            Op::Widen(to, _) => widened(s, to, x),
            Op::WidenZero(_, _) => x,
            Op::Cut(_, _) => x,
        };
        low(self.sort_over(s, t), number)
    }
}
