// The instructions on numbers.
ghost use Rattle.std.specs.Prelude.{◌≡◌, pos};
ghost use Rattle.std.specs.Int.{w8, w16, w32, int_wrap, int_rem_euclid};
ghost use Rattle.vm_frame.specs.Numbers as specs;

use crate::arith::{
    int_arith_given, int_negation_given, long_arith_given, long_negation_given, negates,
};
use crate::effect::FrameEffect;
use crate::operand::{int_in, long_and_int, long_in, top, two_ints, two_longs};
use crate::shift::{int_bitwise_given, int_shift_given, long_bitwise_given, long_shift_given};
use cf_code::{ArithOp, Comparison, Conversion, Num, Number, Whole};
use jv_base::Value;

fn int_arith_effect(op: ArithOp, stack: &[Value]) -> FrameEffect
    ensures { result ≡ specs.int_arith_effect op stack.now }
{
    if negates(op) {
        int_negation_given(int_in(top(stack)))
    } else {
        int_arith_given(op, two_ints(stack))
    }
}

fn long_arith_effect(op: ArithOp, stack: &[Value]) -> FrameEffect
    ensures { result ≡ specs.long_arith_effect op stack.now }
{
    if negates(op) {
        long_negation_given(long_in(top(stack)))
    } else {
        long_arith_given(op, two_longs(stack))
    }
}

fn long_to_int(number: i64) -> i32
    ensures { result ≡ int_wrap w32 number }
{
    (number.rem_euclid(4294967296) as u32).cast_signed()
}

/// The low 8 bits of an int, with their sign.
pub fn int_to_byte(number: i32) -> i32
    ensures { result ≡ int_wrap w8 number }
{
    i32::from((number.rem_euclid(256) as u8).cast_signed())
}

/// Its low 16 bits, with their sign.
pub fn int_to_short(number: i32) -> i32
    ensures { result ≡ int_wrap w16 number }
{
    i32::from((number.rem_euclid(65536) as u16).cast_signed())
}

/// Its low 16 bits, without a sign.
pub fn int_to_char(number: i32) -> i32
    ensures { result ≡ int_rem_euclid number (pos 65536) }
{
    number.rem_euclid(65536)
}

fn to_byte_given(operand: Option<i32>) -> FrameEffect
    ensures { result ≡ specs.gives_int (int_wrap w8) operand }
{
    match operand {
        Some(number) => FrameEffect::Gives(1, Value::Int(int_to_byte(number))),
        None => FrameEffect::Sticks,
    }
}

fn to_char_given(operand: Option<i32>) -> FrameEffect
    ensures { result ≡ specs.gives_int (λ n. int_rem_euclid n (pos 65536)) operand }
{
    match operand {
        Some(number) => FrameEffect::Gives(1, Value::Int(int_to_char(number))),
        None => FrameEffect::Sticks,
    }
}

fn to_short_given(operand: Option<i32>) -> FrameEffect
    ensures { result ≡ specs.gives_int (int_wrap w16) operand }
{
    match operand {
        Some(number) => FrameEffect::Gives(1, Value::Int(int_to_short(number))),
        None => FrameEffect::Sticks,
    }
}

fn to_int_given(operand: Option<i64>) -> FrameEffect
    ensures { result ≡ specs.gives_int (int_wrap w32) operand }
{
    match operand {
        Some(number) => FrameEffect::Gives(1, Value::Int(long_to_int(number))),
        None => FrameEffect::Sticks,
    }
}

fn to_long_given(operand: Option<i32>) -> FrameEffect
    ensures { result ≡ specs.gives_long operand }
{
    match operand {
        Some(number) => FrameEffect::Gives(1, Value::Long(i64::from(number))),
        None => FrameEffect::Sticks,
    }
}

fn conversion_effect(conversion: Conversion, stack: &[Value]) -> FrameEffect
    ensures { result ≡ specs.conversion_effect conversion stack.now }
{
    match conversion {
        Conversion::IntToLong => to_long_given(int_in(top(stack))),
        Conversion::LongToInt => to_int_given(long_in(top(stack))),
        Conversion::IntToByte => to_byte_given(int_in(top(stack))),
        Conversion::IntToChar => to_char_given(int_in(top(stack))),
        Conversion::IntToShort => to_short_given(int_in(top(stack))),
        _ => FrameEffect::Sticks,
    }
}

fn compared(a: i64, b: i64) -> i32
    ensures { result ≡ specs.compared a b }
{
    if a < b {
        -1
    } else if a == b {
        0
    } else {
        1
    }
}

fn compared_given(operands: Option<(i64, i64)>) -> FrameEffect
    ensures { result ≡ specs.compared_given operands }
{
    match operands {
        Some((a, b)) => FrameEffect::Gives(2, Value::Int(compared(a, b))),
        None => FrameEffect::Sticks,
    }
}

/// What an instruction on numbers does (JVM Specification SE 8, 6.5).
pub fn number_effect(number: Number, stack: &[Value]) -> FrameEffect
    ensures { result ≡ specs.number_effect number stack.now }
{
    match number {
        Number::Arith(op, Num::Int) => int_arith_effect(op, stack),
        Number::Arith(op, Num::Long) => long_arith_effect(op, stack),
        Number::Arith(_, Num::Float | Num::Double) => FrameEffect::Sticks,
        Number::Shift(op, Whole::WholeInt) => int_shift_given(op, two_ints(stack)),
        Number::Shift(op, Whole::WholeLong) => long_shift_given(op, long_and_int(stack)),
        Number::Bitwise(op, Whole::WholeInt) => int_bitwise_given(op, two_ints(stack)),
        Number::Bitwise(op, Whole::WholeLong) => long_bitwise_given(op, two_longs(stack)),
        Number::Convert(conversion) => conversion_effect(conversion, stack),
        Number::Compare(Comparison::CompareLong) => compared_given(two_longs(stack)),
        Number::Compare(_) => FrameEffect::Sticks,
    }
}
