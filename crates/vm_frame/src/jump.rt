// The jumps.
ghost use Rattle.std.specs.Prelude.{◌≡◌};
ghost use Rattle.vm_frame.specs.Jumps as specs;

use crate::effect::FrameEffect;
use crate::operand::{int_in, reference_in, top, two_ints, two_references};
use cf_code::{Condition, Equality, Jump};
use jv_base::Value;

/// Whether the condition holds of two numbers.
fn holds(condition: Condition, a: i32, b: i32) -> bool
    ensures { result ≡ specs.holds condition a b }
{
    match condition {
        Condition::Equal => a == b,
        Condition::NotEqual => a != b,
        Condition::Less => a < b,
        Condition::AtLeast => a >= b,
        Condition::Greater => a > b,
        Condition::AtMost => a <= b,
    }
}

/// Whether two references are the same.
fn same_reference(a: Option<u64>, b: Option<u64>) -> bool
    ensures { result ≡ specs.same_reference a b }
{
    match (a, b) {
        (None, None) => true,
        (Some(a), Some(b)) => a == b,
        _ => false,
    }
}

fn as_said(equality: Equality, same: bool) -> bool
    ensures { result ≡ specs.as_said equality same }
{
    match equality {
        Equality::Same => same,
        Equality::Other => !same,
    }
}

fn branch(taken: usize, target: u16, test: bool) -> FrameEffect
    ensures { result ≡ specs.branch taken target test }
{
    if test {
        FrameEffect::Jumps(taken, target)
    } else {
        FrameEffect::Drops(taken)
    }
}

fn if_zero(condition: Condition, target: u16, operand: Option<i32>) -> FrameEffect
    ensures { result ≡ specs.if_zero condition target operand }
{
    match operand {
        Some(a) => branch(1, target, holds(condition, a, 0)),
        None => FrameEffect::Sticks,
    }
}

fn if_ints(condition: Condition, target: u16, operands: Option<(i32, i32)>) -> FrameEffect
    ensures { result ≡ specs.if_ints condition target operands }
{
    match operands {
        Some((a, b)) => branch(2, target, holds(condition, a, b)),
        None => FrameEffect::Sticks,
    }
}

fn if_references(
    equality: Equality,
    target: u16,
    operands: Option<(Option<u64>, Option<u64>)>,
) -> FrameEffect
    ensures { result ≡ specs.if_references equality target operands }
{
    match operands {
        Some((a, b)) => branch(2, target, as_said(equality, same_reference(a, b))),
        None => FrameEffect::Sticks,
    }
}

fn if_null(equality: Equality, target: u16, operand: Option<Option<u64>>) -> FrameEffect
    ensures { result ≡ specs.if_null equality target operand }
{
    match operand {
        Some(a) => branch(1, target, as_said(equality, same_reference(a, None))),
        None => FrameEffect::Sticks,
    }
}

/// What a jump does (JVM Specification SE 8, 6.5).
pub fn jump_effect(jump: Jump, stack: &[Value]) -> FrameEffect
    ensures { result ≡ specs.jump_effect jump stack.now }
{
    match jump {
        Jump::IfZero(condition, target) => if_zero(condition, target, int_in(top(stack))),
        Jump::IfInts(condition, target) => if_ints(condition, target, two_ints(stack)),
        Jump::IfReferences(equality, target) => {
            if_references(equality, target, two_references(stack))
        }
        Jump::IfNull(equality, target) => if_null(equality, target, reference_in(top(stack))),
        Jump::Goto(target) | Jump::GotoW(target) => FrameEffect::Jumps(0, target),
        Jump::Jsr(_) | Jump::JsrW(_) => FrameEffect::Sticks,
    }
}
