// The moves on the operand stack.
ghost use Rattle.std.specs.Prelude.{◌≡◌};
ghost use Rattle.vm_frame.specs.Stacks as specs;

use crate::effect::FrameEffect;
use crate::operand::{Operands, operands_of, without};
use cf_code::StackMove;
use jv_base::Value;

fn dropped(top: Option<Operands>) -> FrameEffect
    ensures { result ≡ specs.dropped top }
{
    match top {
        Some(top) => FrameEffect::Drops(top.count()),
        None => FrameEffect::Sticks,
    }
}

fn copies(top: u8, under: u8, stack: &[Value]) -> FrameEffect
    ensures { result ≡ specs.copies top under stack.now }
{
    let Some(top) = operands_of(top, stack) else {
        return FrameEffect::Sticks;
    };
    match operands_of(under, without(stack, top.count())) {
        Some(under) => FrameEffect::Copies(top, under),
        None => FrameEffect::Sticks,
    }
}

fn swaps(operands: Option<Operands>) -> FrameEffect
    ensures { result ≡ specs.swaps operands }
{
    match operands {
        Some(Operands::TwoOperands(under, top)) => FrameEffect::Swaps(under, top),
        _ => FrameEffect::Sticks,
    }
}

/// What a move on the operand stack does (JVM Specification SE 8, 6.5).
pub fn stack_effect(how: StackMove, stack: &[Value]) -> FrameEffect
    ensures { result ≡ specs.stack_effect how stack.now }
{
    match how {
        StackMove::Pop => dropped(operands_of(1, stack)),
        StackMove::Pop2 => dropped(operands_of(2, stack)),
        StackMove::Dup => copies(1, 0, stack),
        StackMove::DupX1 => copies(1, 1, stack),
        StackMove::DupX2 => copies(1, 2, stack),
        StackMove::Dup2 => copies(2, 0, stack),
        StackMove::Dup2X1 => copies(2, 1, stack),
        StackMove::Dup2X2 => copies(2, 2, stack),
        StackMove::Swap => swaps(operands_of(2, stack)),
    }
}
