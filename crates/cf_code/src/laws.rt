// Laws of the code of a method.
ghost use Rattle.cf_code.specs.Laws.{HasItsSize, IsOneCode, IsNoCode, IsOneFault, IsCodeDecided, IsOneBeginning, TellsSame};

use crate::code::Placed;
use crate::instr::Instr;
use crate::transfer::Row;

/// What is an instruction has the size that its opcode and its operands tell.
pub fn one_size()
    ensures { HasItsSize }
{}

/// As many bytes as the code of a method may have are one list of instructions at most, so what was written is read
/// again. In longer bytes an offset of four bytes could lead to two pcs.
pub fn one_code()
    ensures { IsOneCode }
{}

/// Bytes with a fault are no code.
pub fn no_code()
    ensures { IsNoCode }
{}

/// Bytes have one fault at most.
pub fn one_fault()
    ensures { IsOneFault }
{}

/// As many bytes as the code of a method may have begin with instructions, up to their end or their first fault: what
/// `walk` gives is there, also where memory is short.
pub fn code_decided()
    ensures { IsCodeDecided }
{}

/// What bytes begin with is the front of what `walk` gives.
pub fn one_beginning()
    ensures { IsOneBeginning }
{}

/// What `==` finds equal is the same, and nothing else.
pub fn equality()
    ensures instr { TellsSame ⟦<Instr as PartialEq>⟧.eq }
    ensures placed { TellsSame ⟦<Placed as PartialEq>⟧.eq }
    ensures row { TellsSame ⟦<Row as PartialEq>⟧.eq }
{}
