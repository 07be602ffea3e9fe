// The instructions of a method, and their bytes.
ghost use Rattle.std.specs.Prelude.{◌≡◌, IfOk};
ghost use Rattle.cf_code.specs.Code.{code_spelling, AllFit};
ghost use Rattle.cf_code.specs.Decoding.{IsCode, IsLaid, AllHaveTargets};

use crate::instr::{Instr, put_instr};
use jv_base::{List, Mem};
use std::alloc::Global;

/// An instruction, and the pc of its opcode.
#[derive(Debug, PartialEq, Eq, Drop)]
pub struct Placed {
    pub pc: u16,
    pub instr: Instr,
}

/// The bytes of instructions, one after the other. Each has to have a spelling at its pc, as those of a method have.
/// Where they stand one behind the other, and each target is one of them, the bytes are this code, so `decode` gives it
/// back; and of what `decode` gave these are the bytes that it was read from.
pub fn encode(alloc: Global, code: &List<Placed>) -> Mem<List<u8>>
    requires { AllFit code.now }
    ensures value { IfOk result (λ bytes. bytes ≡ code_spelling code.now) }
    ensures code { IsLaid 0 code.now → AllHaveTargets code.now → IfOk result (λ bytes. IsCode bytes code.now) }
{
    let mut out = Vec::new(alloc);
    for placed in code.as_slice() {
        put_instr(&mut out, placed.pc, &placed.instr)?;
    }
    Ok(List::from_vec(out))
}
