// The instructions of thin code, and where they stand.
ghost use Rattle.std.specs.Prelude.{◌+◌, ◌≡◌, ◌≤◌, ◌<◌, ◌∷◌, ◌++◌, replicate, None as nothing, length, IfOk, IfSome, OnOk};
ghost use Rattle.cf_code.specs.declared.instr.Instr.TheVariants as instrs;
ghost use Rattle.cf_thin.specs.Instr.{thin_of, of_constant, of_access, of_local, of_number, of_jump, of_return, of_object, places_of, thin_places, target_of, jumps_on, goes_on, standing_at, instr_at};

use ThinInstr::{
    AconstNull, Athrow, Goto, Iconst, IfIcmpeq, IfIcmpne, Ifeq, Ifne, Iload, Ireturn, Istore, Ixor,
    Return,
};
use cf_code::{
    BitOp, Condition, Constant, Instr, Jump, Local, LocalIndex, Number, Object, Placed, Returned,
    Whole, Word,
};
use jv_base::{List, Mem};
use std::alloc::Global;

/// An instruction of thin code (JVM Specification SE 8, 6.5). A jump's target is a pc.
#[derive(Clone, Copy, Debug, PartialEq, Eq)]
pub enum ThinInstr {
    AconstNull,
    Iconst(i32),
    Iload(u8),
    Istore(u8),
    Ixor,
    Ifeq(u16),
    Ifne(u16),
    IfIcmpeq(u16),
    IfIcmpne(u16),
    Goto(u16),
    Ireturn,
    Return,
    Athrow,
}

fn constant_of(constant: Constant) -> Option<(ThinInstr, u16)>
    ensures { result ≡ of_constant constant }
{
    match constant {
        Constant::Null => Some((AconstNull, 1)),
        Constant::Iconst(value) => Some((Iconst(i32::from(value)), 1)),
        Constant::Bipush(value) => Some((Iconst(i32::from(value)), 2)),
        Constant::Sipush(value) => Some((Iconst(i32::from(value)), 3)),
        _ => None,
    }
}

fn local_of(local: Local) -> Option<(ThinInstr, u16)>
    ensures { result ≡ of_local local }
{
    match local {
        Local::Load(Word::Int, LocalIndex::Short(index)) => Some((Iload(index), 1)),
        Local::Load(Word::Int, LocalIndex::Byte(index)) => Some((Iload(index), 2)),
        Local::Store(Word::Int, LocalIndex::Short(index)) => Some((Istore(index), 1)),
        Local::Store(Word::Int, LocalIndex::Byte(index)) => Some((Istore(index), 2)),
        _ => None,
    }
}

fn jump_of(jump: Jump) -> Option<(ThinInstr, u16)>
    ensures { result ≡ of_jump jump }
{
    match jump {
        Jump::IfZero(Condition::Equal, target) => Some((Ifeq(target), 3)),
        Jump::IfZero(Condition::NotEqual, target) => Some((Ifne(target), 3)),
        Jump::IfInts(Condition::Equal, target) => Some((IfIcmpeq(target), 3)),
        Jump::IfInts(Condition::NotEqual, target) => Some((IfIcmpne(target), 3)),
        Jump::Goto(target) => Some((Goto(target), 3)),
        _ => None,
    }
}

/// The instruction of thin code that an instruction is, and how many bytes it has. None where it is of another kind.
pub fn thin_instr(instr: &Instr) -> Option<(ThinInstr, u16)>
    ensures { result ≡ thin_of instr.now }
{
    match instr {
        Instr::Constant(constant) => constant_of(*constant),
        Instr::Local(local) => local_of(*local),
        Instr::Number(Number::Bitwise(BitOp::Xor, Whole::WholeInt)) => Some((Ixor, 1)),
        Instr::Jump(jump) => jump_of(*jump),
        Instr::Return(Returned::Value(Word::Int)) => Some((Ireturn, 1)),
        Instr::Return(Returned::Nothing) => Some((Return, 1)),
        Instr::Object(Object::Throw) => Some((Athrow, 1)),
        _ => None,
    }
}

/// Puts the places of the bytes of an instruction at the end.
fn put_places(
    places: &mut List<Option<(ThinInstr, u16)>>,
    found: Option<(ThinInstr, u16)>,
) -> Mem<()>
    ensures { OnOk result (places.new ≡ places.old ++ places_of found) }
{
    places.add(found)?;
    if let Some((_, size)) = found {
        for _ in 0..size.saturating_sub(1) {
            places.add(None)?;
        }
    }
    Ok(())
}

/// Code with a place for each of its bytes: at the opcode of an instruction of thin code that instruction and how many
/// bytes it has. Where an instruction is not of thin code, the places from there on are of no use.
pub fn places_of_code(alloc: Global, code: &[Placed]) -> Mem<List<Option<(ThinInstr, u16)>>>
    ensures { IfOk result (λ places. places ≡ thin_places code.now) }
{
    let mut places = List::new(alloc);
    for placed in code {
        put_places(&mut places, thin_instr(&placed.instr))?;
    }
    Ok(places)
}

/// Where an instruction jumps to.
pub(crate) fn target_of_instr(instr: ThinInstr) -> Option<u16>
    ensures { result ≡ target_of instr }
{
    match instr {
        Ifeq(target) | Ifne(target) | IfIcmpeq(target) | IfIcmpne(target) | Goto(target) => Some(
            target,
        ),
        _ => None,
    }
}

/// Whether an instruction at a pc jumps behind it, if it jumps.
fn jumps_forward(pc: u16, instr: ThinInstr) -> bool
    ensures { result ≡ jumps_on pc (target_of instr) }
{
    match target_of_instr(instr) {
        Some(target) => pc < target,
        None => true,
    }
}

/// Whether an instruction of so many bytes at a pc ends behind the pc and within the code, and jumps behind the pc.
fn goes_on(bytes: usize, pc: u16, instr: ThinInstr, size: u16) -> bool
    requires { bytes ≤ 65535 }
    ensures { result ≡ goes_on bytes pc instr size }
{
    size > 0 && usize::from(pc) + usize::from(size) <= bytes && jumps_forward(pc, instr)
}

/// The instruction at a pc of so many bytes with the pc after it, where it goes on.
fn standing_at(bytes: usize, pc: u16, found: (ThinInstr, u16)) -> Option<(ThinInstr, u16)>
    requires { bytes ≤ 65535 }
    ensures value { result ≡ standing_at bytes pc found }
    ensures within { IfSome result (λ r. (pc < r.1) × (r.1 ≤ bytes)) }
{
    let (instr, size) = found;
    if goes_on(bytes, pc, instr, size) {
        Some((instr, pc + size))
    } else {
        None
    }
}

/// The instruction whose opcode is at `pc`, and the pc after it. None where none of thin code is there, where it passes
/// the end, and where it jumps back or to itself.
#[tactic(auto, unfolding(crate::specs::Instr::instr_at))]
pub fn thin_instr_at(code: &[Option<(ThinInstr, u16)>], pc: u16) -> Option<(ThinInstr, u16)>
    requires { length code.now ≤ 65535 }
    ensures value { result ≡ instr_at code.now pc }
    ensures within { IfSome result (λ found. (pc < found.1) × (found.1 ≤ length code.now)) }
{
    match code.get(usize::from(pc)) {
        Some(Some(found)) => standing_at(code.len(), pc, *found),
        _ => None,
    }
}
