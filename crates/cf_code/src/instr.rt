// An instruction, and its bytes.
ghost use Rattle.std.specs.Prelude.{◌≡◌, ◌++◌, ◌∷◌, [], ℕ, Some, None, IfOk, IfSome, OnOk};
ghost use Rattle.cf_code.specs.Instr.{spelling, Fits, IsInstr, IsPlain};
ghost use Rattle.cf_code.specs.Steps.Families.{IsOpcode, HasOperands};

use crate::array::{Array, put_array, read_array};
use crate::call::{Call, put_call, read_call};
use crate::constant::{Constant, put_constant, read_constant};
use crate::field::{Field, put_field, read_field};
use crate::jump::{Jump, put_jump, read_jump};
use crate::local::{Local, put_local, read_local};
use crate::number::{Number, number_byte, read_number};
use crate::object::{Object, put_object, read_object};
use crate::stack::{StackMove, read_stack_move, stack_byte};
use crate::switch::{LookupSwitch, TableSwitch, put_lookup, put_table, read_lookup, read_table};
use crate::word::{Returned, read_return, return_byte};
use jv_base::Mem;
use std::alloc::Global;

/// An instruction, by its family (JVM Specification SE 8, 6.5). It keeps the form that it has in the code, so that its
/// bytes are known; a target is a pc.
#[derive(Debug, PartialEq, Eq, Drop)]
pub enum Instr {
    Nop,
    Constant(Constant),
    Local(Local),
    Array(Array),
    Stack(StackMove),
    Number(Number),
    Jump(Jump),
    Table(TableSwitch),
    Lookup(LookupSwitch),
    Return(Returned),
    Field(Field),
    Call(Call),
    Object(Object),
}

/// The instruction that these bytes are at a pc, all of them. None where they are none: also where a target is below 0
/// or above 65535, where the least key of a table is above its greatest, or where the keys of a switch do not rise.
pub fn read_instr(alloc: Global, pc: u16, bytes: &[u8]) -> Mem<Option<Instr>>
    ensures found { IfOk result (λ o. IfSome o (λ i. IsInstr pc bytes.now i)) }
    ensures only { (i : Instr) → IsInstr pc bytes.now i → IfOk result (λ o. o ≡ Some i) }
{
    match bytes {
        [170, rest @ ..] => match read_table(alloc, pc, rest)? {
            Some(switch) => Ok(Some(Instr::Table(switch))),
            None => Ok(None),
        },
        [171, rest @ ..] => match read_lookup(alloc, pc, rest)? {
            Some(switch) => Ok(Some(Instr::Lookup(switch))),
            None => Ok(None),
        },
        _ => Ok(read_plain(pc, bytes)),
    }
}

/// The instruction that these bytes are at a pc, of the families that need no memory.
fn read_plain(pc: u16, bytes: &[u8]) -> Option<Instr>
    ensures found { IfSome result (λ i. IsInstr pc bytes.now i) }
    ensures only { (i : Instr) → IsInstr pc bytes.now i → IsPlain i → result ≡ Some i }
{
    if let Some(instr) = read_family(pc, bytes) {
        return Some(instr);
    }
    let [opcode] = bytes else {
        return None;
    };
    read_alone(*opcode)
}

/// The instruction of an opcode, of the families that have no operand.
fn read_alone(opcode: u8) -> Option<Instr>
    ensures found { IfSome result (λ i. (pc : ℕ) → IsInstr pc (opcode ∷ []) i) }
    ensures only { (i : Instr) → IsOpcode i opcode → result ≡ Some i }
{
    if opcode == 0 {
        return Some(Instr::Nop);
    }
    if let Some(stack) = read_stack_move(opcode) {
        return Some(Instr::Stack(stack));
    }
    if let Some(number) = read_number(opcode) {
        return Some(Instr::Number(number));
    }
    Some(Instr::Return(read_return(opcode)?))
}

/// The instruction that these bytes are at a pc, of the families that have operands.
fn read_family(pc: u16, bytes: &[u8]) -> Option<Instr>
    ensures found { IfSome result (λ i. IsInstr pc bytes.now i) }
    ensures only { (i : Instr) → HasOperands i → IsInstr pc bytes.now i → result ≡ Some i }
{
    if let Some(constant) = read_constant(bytes) {
        return Some(Instr::Constant(constant));
    }
    if let Some(local) = read_local(bytes) {
        return Some(Instr::Local(local));
    }
    if let Some(array) = read_array(bytes) {
        return Some(Instr::Array(array));
    }
    if let Some(jump) = read_jump(pc, bytes) {
        return Some(Instr::Jump(jump));
    }
    if let Some(field) = read_field(bytes) {
        return Some(Instr::Field(field));
    }
    if let Some(call) = read_call(bytes) {
        return Some(Instr::Call(call));
    }
    Some(Instr::Object(read_object(bytes)?))
}

/// Puts the bytes of an instruction at a pc at the end.
pub fn put_instr(out: &mut Vec<u8>, pc: u16, instr: &Instr) -> Mem<()>
    requires { Fits pc instr.now }
    ensures { OnOk result (out.new.items ≡ out.old.items ++ spelling pc instr.now) }
{
    match instr {
        Instr::Nop => out.extend_from_slice(&[0]),
        Instr::Constant(constant) => put_constant(out, *constant),
        Instr::Local(local) => put_local(out, *local),
        Instr::Array(array) => put_array(out, *array),
        Instr::Stack(stack) => out.extend_from_slice(&[stack_byte(*stack)]),
        Instr::Number(number) => out.extend_from_slice(&[number_byte(*number)]),
        Instr::Jump(jump) => put_jump(out, pc, *jump),
        Instr::Table(switch) => put_table(out, pc, switch),
        Instr::Lookup(switch) => put_lookup(out, pc, switch),
        Instr::Return(returned) => out.extend_from_slice(&[return_byte(*returned)]),
        Instr::Field(field) => put_field(out, *field),
        Instr::Call(call) => put_call(out, *call),
        Instr::Object(object) => put_object(out, *object),
    }
}
