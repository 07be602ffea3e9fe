// What follows from the folder's answer for the entry's class: verdicts, or the refusal that applies.
ghost use Rattle.std.specs.Prelude.{◌≡◌, ◌≢◌, ◌<◌, ◌+◌, ◌^◌, ◌↔◌, ℕ, Bool, length, IfOk, IfSome, IfNone, IsTrue, IsFalse, Err, Ok};
ghost use Rattle.std.specs.List.{flat_map};
ghost use Rattle.cf_pool.specs.Spelling.{entry_text};
ghost use Rattle.cf_class.specs.Content.{IsClass};
ghost use Rattle.cf_thin.specs.Thin.{int_descriptor, Thin};
ghost use Rattle.cf_thin.specs.declared.thin.ThinMethod.{ThinMethod as thin_method};
ghost use Rattle.jb_run.specs.Refusals as refusals;
ghost use Rattle.jb_run.specs.Calls.Decisions as decisions;

use crate::report::{Line, Refusal};
use crate::verdicts::verdicts;
use cf_class::{ClassFile, code_in, member_in, one_class, read_class};
use cf_judge::entry_size;
use cf_pool::{Fault, PoolEntry, What};
use cf_structure::{ClassFault, spelled};
use cf_thin::read_thin;
use cl_words::{Command, Mode};
use hi_tree::Was;
use jv_base::{List, Mem, MethodId, Name};
use std::alloc::{AllocError, Global};

const STATIC: u16 = 0x0008;

const ABSTRACT_OR_INTERFACE: u16 = 0x0600;

/// The place of a class whose file is longer than what is read.
const LONGEST: u64 = 16_777_216;

fn lacks_code(class: &ClassFile, entry: &MethodId) -> bool
    ensures { IsTrue result ↔ refusals.LacksCode class.now entry.now }
{
    match member_in(class.methods.as_slice(), &entry.name, &entry.desc) {
        Some(method) => code_in(method.attributes.as_slice()).is_none(),
        None => true,
    }
}

fn lacks_object(class: &ClassFile, entry: &MethodId) -> bool
    ensures { IsTrue result ↔ refusals.LacksObject class.now entry.now }
{
    match member_in(class.methods.as_slice(), &entry.name, &entry.desc) {
        Some(method) => method.flags & STATIC == 0 && class.flags & ABSTRACT_OR_INTERFACE != 0,
        None => false,
    }
}

fn is_built_form(command: &Command) -> bool
    ensures { IsTrue result ↔ refusals.IsBuiltForm command.now }
{
    matches!(&command.mode, Mode::Plain) && command.budget == 0 && !command.trace
}

// How many bytes entries of the pool take.
fn entries_size(entries: &[PoolEntry]) -> u64
    requires { length (flat_map entry_text entries.now) < 2 ^ 64 }
    ensures { result ≡ length (flat_map entry_text entries.now) }
{
    let mut size = 0;
    for entry in entries {
        size += entry_size(entry);
    }
    size
}

// The place of this_class.
fn name_place(class: &ClassFile) -> u64
    requires { refusals.name_place class.now < 2 ^ 64 }
    ensures { result ≡ refusals.name_place class.now }
{
    10 + entries_size(class.pool.entries.as_slice()) + 2
}

// How many parameters a descriptor has that is `(`, an `I` for each, `)` and one letter.
fn int_params(desc: &Name) -> usize
    ensures { (params : ℕ) (gives_int : Bool) → desc.now ≡ int_descriptor params gives_int → result ≡ params }
{
    desc.length().saturating_sub(3)
}

// The lines of the thin method of the entry, where the class has one.
fn lines_of(alloc: Global, entry: &MethodId, class: &ClassFile) -> Mem<Option<List<Line>>>
    ensures lines { IfOk result (λ o. IfSome o (λ lines. decisions.HasLines class.now entry.now lines)) }
    ensures none { IfOk result (λ o. IfNone o ((m : thin_method) → Thin class.now entry.now m → ⊥)) }
{
    let Some(method) = read_thin(alloc, class, entry)? else {
        return Ok(None);
    };
    let params = int_params(&entry.desc);
    let lines = verdicts(alloc, entry, method.code.as_slice(), params)?;
    Ok(Some(lines))
}

// What a class comes to.
fn judge_class(
    alloc: Global,
    command: &Command,
    class: &ClassFile,
) -> Mem<Result<List<Line>, Refusal>>
    requires { refusals.name_place class.now < 2 ^ 64 }
    ensures { IfOk result (λ r. decisions.ClassComesTo command.now class.now r) }
{
    let entry = &command.entry;
    if !class.this_class.name.equals(&entry.class) {
        let name = entry.class.copy(alloc)?;
        let refusal = Refusal::Malformed(name, name_place(class), What::WrongName);
        return Ok(Err(refusal));
    }
    if lacks_code(class, entry) || lacks_object(class, entry) {
        return Ok(Err(Refusal::NoEntry(entry.copy(alloc)?)));
    }
    if !is_built_form(command) {
        return Ok(Err(Refusal::Narrow));
    }
    match lines_of(alloc, entry, class)? {
        Some(lines) => Ok(Ok(lines)),
        None => Ok(Err(Refusal::Narrow)),
    }
}

// The fault of a file.
fn fault_of(refusal: ClassFault) -> Mem<Fault>
    ensures { IfOk result (λ fault. refusal ≡ ClassFault.Malformed fault) }
{
    match refusal {
        ClassFault::Malformed(fault) => Ok(fault),
        ClassFault::NoMemory => Err(AllocError),
    }
}

// What the file of the entry's class comes to.
fn judge_file(alloc: Global, command: &Command, bytes: &[u8]) -> Mem<Result<List<Line>, Refusal>>
    requires { decisions.AsksClass command.now }
    ensures { IfOk result (λ r. decisions.ComesTo command.now (decisions.world_of command.now (Was.Found bytes.now)) r) }
{
    one_class();
    spelled();
    match read_class(alloc, bytes) {
        Ok(class) => judge_class(alloc, command, &class),
        Err(refusal) => {
            let fault = fault_of(refusal)?;
            let name = command.entry.class.copy(alloc)?;
            Ok(Err(Refusal::Malformed(name, fault.place, fault.what)))
        }
    }
}

/// What the folder's answer for the entry's class comes to.
pub fn judge(alloc: Global, command: &Command, was: &Was) -> Mem<Result<List<Line>, Refusal>>
    requires { decisions.AsksClass command.now }
    ensures { IfOk result (λ r. decisions.ComesTo command.now (decisions.world_of command.now was.now) r) }
{
    match was {
        Was::Found(bytes) => judge_file(alloc, command, bytes.as_slice()),
        Was::Absent => Ok(Err(Refusal::Missing(command.entry.class.copy(alloc)?))),
        Was::TooLong => {
            let name = command.entry.class.copy(alloc)?;
            Ok(Err(Refusal::Malformed(name, LONGEST, What::TooLong)))
        }
    }
}

// Whether the command is about the classes of a folder.
fn has_folder(mode: &Mode) -> bool
    ensures folder { IsTrue result → refusals.HasFolder mode.now }
    ensures made { IsFalse result → refusals.HasFolder mode.now → ⊥ }
{
    match mode {
        Mode::Make(_) => false,
        _ => true,
    }
}

/// The refusal of a command for which the folder is asked for nothing.
pub fn unasked(alloc: Global, command: &Command) -> Mem<Refusal>
    requires { decisions.AsksNothing command.now }
    ensures { IfOk result (λ r. decisions.ComesTo command.now decisions.no_world (Err r)) }
{
    if !has_folder(&command.mode) {
        return Ok(Refusal::Narrow);
    }
    let entry = command.entry.copy(alloc)?;
    Ok(Refusal::NoEntry(entry))
}
