// Arithmetic of ints and longs.
ghost use Rattle.std.specs.Prelude.{◌≡◌, ◌&&◌, false, pos};
ghost use Rattle.std.specs.Int.{w32, w64};
ghost use Rattle.std.specs.Ordering.{int_eq};
ghost use Rattle.jv_base.specs.declared.value.Value.TheVariants as values;
ghost use Rattle.cf_code.specs.declared.number.ArithOp.TheVariants.{Neg};
ghost use Rattle.vm_frame.specs.Numbers as specs;

use crate::effect::FrameEffect;
use cf_code::ArithOp;
use jv_base::{Kind, Value};

fn divides(op: ArithOp) -> bool
    ensures { result ≡ specs.divides op }
{
    match op {
        ArithOp::Div | ArithOp::Rem => true,
        ArithOp::Add | ArithOp::Sub | ArithOp::Mul | ArithOp::Neg => false,
    }
}

pub(crate) fn negates(op: ArithOp) -> bool
    ensures { result ≡ specs.negates op }
{
    match op {
        ArithOp::Neg => true,
        ArithOp::Add | ArithOp::Sub | ArithOp::Mul | ArithOp::Div | ArithOp::Rem => false,
    }
}

/// What comes of an operation on two ints. A negation takes the second alone.
fn int_arith(op: ArithOp, a: i32, b: i32) -> i32
    requires { specs.divides op && int_eq b (pos 0) ≡ false }
    ensures { result ≡ specs.arith w32 op a b }
{
    match op {
        ArithOp::Add => a.wrapping_add(b),
        ArithOp::Sub => a.wrapping_sub(b),
        ArithOp::Mul => a.wrapping_mul(b),
        ArithOp::Div => a.wrapping_div(b),
        ArithOp::Rem => a.wrapping_rem(b),
        ArithOp::Neg => b.wrapping_neg(),
    }
}

/// The same of longs.
fn long_arith(op: ArithOp, a: i64, b: i64) -> i64
    requires { specs.divides op && int_eq b (pos 0) ≡ false }
    ensures { result ≡ specs.arith w64 op a b }
{
    match op {
        ArithOp::Add => a.wrapping_add(b),
        ArithOp::Sub => a.wrapping_sub(b),
        ArithOp::Mul => a.wrapping_mul(b),
        ArithOp::Div => a.wrapping_div(b),
        ArithOp::Rem => a.wrapping_rem(b),
        ArithOp::Neg => b.wrapping_neg(),
    }
}

/// What an operation on two ints does, if they are there.
pub(crate) fn int_arith_given(op: ArithOp, operands: Option<(i32, i32)>) -> FrameEffect
    ensures { result ≡ specs.arith_given op values.Int w32 operands }
{
    let Some((a, b)) = operands else {
        return FrameEffect::Sticks;
    };
    if divides(op) && b == 0 {
        FrameEffect::Raises(Kind::Zero)
    } else {
        FrameEffect::Gives(2, Value::Int(int_arith(op, a, b)))
    }
}

/// What an operation on two longs does, if they are there.
pub(crate) fn long_arith_given(op: ArithOp, operands: Option<(i64, i64)>) -> FrameEffect
    ensures { result ≡ specs.arith_given op values.Long w64 operands }
{
    let Some((a, b)) = operands else {
        return FrameEffect::Sticks;
    };
    if divides(op) && b == 0 {
        FrameEffect::Raises(Kind::Zero)
    } else {
        FrameEffect::Gives(2, Value::Long(long_arith(op, a, b)))
    }
}

pub(crate) fn int_negation_given(operand: Option<i32>) -> FrameEffect
    ensures { result ≡ specs.negation_given values.Int w32 operand }
{
    match operand {
        Some(b) => FrameEffect::Gives(1, Value::Int(int_arith(ArithOp::Neg, 0, b))),
        None => FrameEffect::Sticks,
    }
}

pub(crate) fn long_negation_given(operand: Option<i64>) -> FrameEffect
    ensures { result ≡ specs.negation_given values.Long w64 operand }
{
    match operand {
        Some(b) => FrameEffect::Gives(1, Value::Long(long_arith(ArithOp::Neg, 0, b))),
        None => FrameEffect::Sticks,
    }
}
