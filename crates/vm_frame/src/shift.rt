// Shifts, and the bits of ints and longs.
ghost use Rattle.std.specs.Prelude.{◌≡◌, ◌<◌};
ghost use Rattle.std.specs.Int.{w32, w64};
ghost use Rattle.jv_base.specs.declared.value.Value.TheVariants as values;
ghost use Rattle.vm_frame.specs.Numbers as specs;

use crate::effect::FrameEffect;
use cf_code::{BitOp, ShiftOp};
use jv_base::Value;

/// The distance of a shift of an int.
fn int_distance(distance: i32) -> u32
    ensures value { result ≡ specs.distance 32 distance }
    ensures within { result < 32 }
{
    distance.rem_euclid(32) as u32
}

/// The distance of a shift of a long.
fn long_distance(distance: i32) -> u32
    ensures value { result ≡ specs.distance 64 distance }
    ensures within { result < 64 }
{
    distance.rem_euclid(64) as u32
}

fn shifted_int(op: ShiftOp, a: i32, distance: u32) -> i32
    requires { distance < 32 }
    ensures { result ≡ specs.shifted w32 op a distance }
{
    match op {
        ShiftOp::Left => a << distance,
        ShiftOp::Right => a >> distance,
        ShiftOp::RightUnsigned => (a.cast_unsigned() >> distance).cast_signed(),
    }
}

fn shifted_long(op: ShiftOp, a: i64, distance: u32) -> i64
    requires { distance < 64 }
    ensures { result ≡ specs.shifted w64 op a distance }
{
    match op {
        ShiftOp::Left => a << distance,
        ShiftOp::Right => a >> distance,
        ShiftOp::RightUnsigned => (a.cast_unsigned() >> distance).cast_signed(),
    }
}

pub(crate) fn int_shift_given(op: ShiftOp, operands: Option<(i32, i32)>) -> FrameEffect
    ensures { result ≡ specs.int_shift_given op operands }
{
    match operands {
        Some((a, d)) => FrameEffect::Gives(2, Value::Int(shifted_int(op, a, int_distance(d)))),
        None => FrameEffect::Sticks,
    }
}

pub(crate) fn long_shift_given(op: ShiftOp, operands: Option<(i64, i32)>) -> FrameEffect
    ensures { result ≡ specs.long_shift_given op operands }
{
    match operands {
        Some((a, d)) => FrameEffect::Gives(2, Value::Long(shifted_long(op, a, long_distance(d)))),
        None => FrameEffect::Sticks,
    }
}

fn bitwise_int(op: BitOp, a: i32, b: i32) -> i32
    ensures { result ≡ specs.bitwise w32 op a b }
{
    match op {
        BitOp::And => a & b,
        BitOp::Or => a | b,
        BitOp::Xor => a ^ b,
    }
}

fn bitwise_long(op: BitOp, a: i64, b: i64) -> i64
    ensures { result ≡ specs.bitwise w64 op a b }
{
    match op {
        BitOp::And => a & b,
        BitOp::Or => a | b,
        BitOp::Xor => a ^ b,
    }
}

pub(crate) fn int_bitwise_given(op: BitOp, operands: Option<(i32, i32)>) -> FrameEffect
    ensures { result ≡ specs.bitwise_given op values.Int w32 operands }
{
    match operands {
        Some((a, b)) => FrameEffect::Gives(2, Value::Int(bitwise_int(op, a, b))),
        None => FrameEffect::Sticks,
    }
}

pub(crate) fn long_bitwise_given(op: BitOp, operands: Option<(i64, i64)>) -> FrameEffect
    ensures { result ≡ specs.bitwise_given op values.Long w64 operands }
{
    match operands {
        Some((a, b)) => FrameEffect::Gives(2, Value::Long(bitwise_long(op, a, b))),
        None => FrameEffect::Sticks,
    }
}
