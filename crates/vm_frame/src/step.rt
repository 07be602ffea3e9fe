// The whole step of a frame.
ghost use Rattle.std.specs.Prelude.{◌≡◌, IfOk, OnErr};
ghost use Rattle.vm_frame.specs.Steps as specs;

use crate::constant::constant_effect;
use crate::effect::{FrameEffect, FrameWent, carry_out};
use crate::jump::jump_effect;
use crate::local::local_effect;
use crate::number::number_effect;
use crate::stack::stack_effect;
use crate::switch::{lookup_effect, table_effect};
use cf_code::Instr;
use jv_base::Mem;
use vm_world::Frame;

/// What an instruction does to its frame (JVM Specification SE 8, 6.5). Nothing has changed yet.
pub fn frame_effect(instr: &Instr, frame: &Frame) -> FrameEffect
    ensures { result ≡ specs.frame_effect instr.now frame.now }
{
    let stack = frame.stack.as_slice();
    match instr {
        Instr::Nop => FrameEffect::Drops(0),
        Instr::Constant(constant) => constant_effect(*constant),
        Instr::Local(local) => local_effect(*local, frame.locals.as_slice(), stack),
        Instr::Stack(how) => stack_effect(*how, stack),
        Instr::Number(number) => number_effect(*number, stack),
        Instr::Jump(jump) => jump_effect(*jump, stack),
        Instr::Table(switch) => table_effect(switch, stack),
        Instr::Lookup(switch) => lookup_effect(switch, stack),
        Instr::Array(_) | Instr::Return(_) | Instr::Field(_) | Instr::Call(_) | Instr::Object(_) =>
            FrameEffect::Exceeds,
    }
}

/// Executes an instruction, behind which another stands at the pc `next`, as far as its frame alone tells (JVM
/// Specification SE 8, 6.5). A fault, and what is stuck, leave the frame as it was. For want of memory the frame stays.
pub fn frame_step(instr: &Instr, next: u16, frame: &mut Frame) -> Mem<FrameWent>
    ensures ok { IfOk result (λ went. (went, frame.new) ≡ specs.frame_step instr.now next frame.old) }
    ensures unchanged { OnErr result (frame.new ≡ frame.old) }
{
    let effect = frame_effect(instr, frame);
    carry_out(effect, next, frame)
}
