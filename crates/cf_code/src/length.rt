// How many bytes an instruction is written as.
ghost use Rattle.std.specs.Prelude.{◌≡◌, ◌-◌, ◌^◌, ℕ, length, min};
ghost use Rattle.cf_code.specs.Constants.{constant_spelling};
ghost use Rattle.cf_code.specs.Locals.{access_spelling, local_spelling};
ghost use Rattle.cf_code.specs.Arrays.{array_spelling};
ghost use Rattle.cf_code.specs.Jumps.{jump_spelling};
ghost use Rattle.cf_code.specs.Switches.{table_spelling, lookup_spelling};
ghost use Rattle.cf_code.specs.Calls.{call_spelling};
ghost use Rattle.cf_code.specs.Objects.{object_spelling};
ghost use Rattle.cf_code.specs.Instr.{spelling};

use crate::array::Array;
use crate::call::Call;
use crate::constant::Constant;
use crate::instr::Instr;
use crate::jump::Jump;
use crate::local::{Local, LocalIndex};
use crate::object::Object;
use crate::switch::{LookupSwitch, TableSwitch};

/// The bytes of an instruction that pushes a constant.
fn constant_length(constant: Constant) -> usize
    ensures { result ≡ length (constant_spelling constant) }
{
    match constant {
        Constant::Null | Constant::Iconst(_) | Constant::Lconst(_) => 1,
        Constant::Fconst(_) | Constant::Dconst(_) => 1,
        Constant::Bipush(_) | Constant::Ldc(_) => 2,
        Constant::Sipush(_) | Constant::LdcW(_) | Constant::Ldc2W(_) => 3,
    }
}

/// The bytes of a load or a store.
fn access_length(index: LocalIndex) -> usize
    ensures { (first opcode : ℕ) → result ≡ length (access_spelling first opcode index) }
{
    match index {
        LocalIndex::Short(_) => 1,
        LocalIndex::Byte(_) => 2,
        LocalIndex::Wide(_) => 4,
    }
}

/// The bytes of an instruction on a local variable.
fn local_length(local: Local) -> usize
    ensures { result ≡ length (local_spelling local) }
{
    match local {
        Local::Load(_, index) => access_length(index),
        Local::Store(_, index) => access_length(index),
        Local::Iinc(_, _) => 3,
        Local::IincWide(_, _) => 6,
        Local::Ret(_) => 2,
        Local::RetWide(_) => 4,
    }
}

/// The bytes of an instruction on arrays.
fn array_length(array: Array) -> usize
    ensures { result ≡ length (array_spelling array) }
{
    match array {
        Array::Load(_) | Array::Store(_) | Array::Length => 1,
        Array::New(_) => 2,
        Array::NewOf(_) => 3,
        Array::NewMany(_, _) => 4,
    }
}

/// The bytes of a jump.
fn jump_length(jump: Jump) -> usize
    ensures { (pc : ℕ) → result ≡ length (jump_spelling pc jump) }
{
    match jump {
        Jump::GotoW(_) | Jump::JsrW(_) => 5,
        _ => 3,
    }
}

/// The bytes of a table, or the greatest number where they are more.
fn table_length(switch: &TableSwitch) -> usize
    ensures { (pc : ℕ) → result ≡ min (length (table_spelling pc switch.now)) (2 ^ 64 - 1) }
{
    let entries = switch.targets.length().saturating_mul(4);
    let padded = switch.padding.length().saturating_add(entries);
    padded.saturating_add(13)
}

/// The bytes of a switch over cases, or the greatest number where they are more.
fn lookup_length(switch: &LookupSwitch) -> usize
    ensures { (pc : ℕ) → result ≡ min (length (lookup_spelling pc switch.now)) (2 ^ 64 - 1) }
{
    let pairs = switch.cases.length().saturating_mul(8);
    let padded = switch.padding.length().saturating_add(pairs);
    padded.saturating_add(9)
}

/// The bytes of a call.
fn call_length(call: Call) -> usize
    ensures { result ≡ length (call_spelling call) }
{
    match call {
        Call::Virtual(_) | Call::Special(_) | Call::Static(_) => 3,
        Call::Interface(_, _, _) | Call::Dynamic(_, _) => 5,
    }
}

/// The bytes of an instruction on an object.
fn object_length(object: Object) -> usize
    ensures { result ≡ length (object_spelling object) }
{
    match object {
        Object::Throw | Object::MonitorEnter | Object::MonitorExit => 1,
        Object::New(_) | Object::CheckCast(_) | Object::InstanceOf(_) => 3,
    }
}

/// How many bytes an instruction is written as at any pc, its padding as long as it is; the greatest number where they
/// are more.
pub fn instr_length(instr: &Instr) -> usize
    ensures { (pc : ℕ) → result ≡ min (length (spelling pc instr.now)) (2 ^ 64 - 1) }
{
    match instr {
        Instr::Nop | Instr::Stack(_) | Instr::Number(_) | Instr::Return(_) => 1,
        Instr::Constant(constant) => constant_length(*constant),
        Instr::Local(local) => local_length(*local),
        Instr::Array(array) => array_length(*array),
        Instr::Jump(jump) => jump_length(*jump),
        Instr::Table(switch) => table_length(switch),
        Instr::Lookup(switch) => lookup_length(switch),
        Instr::Field(_) => 3,
        Instr::Call(call) => call_length(*call),
        Instr::Object(object) => object_length(*object),
    }
}
