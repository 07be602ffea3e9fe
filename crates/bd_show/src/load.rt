// One worker takes what a core asks for, until it is closed.
ghost use Rattle.std.specs.Prelude.{◌≡◌, false, IfOk, OnOk};
ghost use Rattle.bd_core.specs.declared.item.Item.TheVariants as items;
ghost use Rattle.bd_core.specs.Told.{Fits};
ghost use Rattle.bd_core.specs.Runs.{HasCode, IsAsked, IsExhausted, IsIdle};
ghost use Rattle.bd_core.specs.Loading.{job_of, events_of, told_of, IsKept};

use bd_core::{Core, Facts, Item, Took};
use bd_scan::scan;
use cf_class::read_class;
use cf_structure::ClassFault;
use io_edges::{Folder, Got};
use jv_base::{MethodId, Name};
use std::alloc::{AllocError, Global};

/// Why loading ended before it was closed.
#[derive(Clone, Copy, Debug)]
pub enum LoadFault {
    ReadFault,
    NoMemory,
}

impl From<AllocError> for LoadFault {
    fn from(_: AllocError) -> LoadFault {
        LoadFault::NoMemory
    }
}

// The facts of the bytes of a file that should be the class of a name; of another class they are no file of it.
fn facts_of_bytes(alloc: Global, name: &Name, bytes: &[u8]) -> Result<Facts, LoadFault>
    ensures { IfOk result (Fits (items.Class name.now)) }
{
    match read_class(alloc, bytes) {
        Ok(class) => {
            if class.this_class.name.equals(name) {
                return Ok(Facts::Class(class));
            }
            Ok(Facts::Absent)
        }
        Err(ClassFault::Malformed(fault)) => Ok(Facts::Malformed(fault)),
        Err(ClassFault::NoMemory) => Err(LoadFault::NoMemory),
    }
}

// What the folder has under the name of a class.
fn class_facts<F: Folder>(
    alloc: Global,
    dir: &str,
    folder: &mut F,
    name: &Name,
) -> Result<Facts, LoadFault>
    ensures { IfOk result (Fits (items.Class name.now)) }
{
    let class = name.as_str();
    let path = format!(in alloc; "{dir}/{class}.class")?;
    match folder.read(alloc, path.as_str()) {
        Got::Found(bytes) => facts_of_bytes(alloc, name, bytes.as_slice()),
        Got::Absent => Ok(Facts::Absent),
        Got::TooLong => Ok(Facts::TooLong),
        Got::Failed => Err(LoadFault::ReadFault),
        Got::NoMemory => Err(LoadFault::NoMemory),
    }
}

// The facts of a method whose class was read.
fn method_facts(alloc: Global, core: &Core, method: &MethodId) -> Result<Facts, LoadFault>
    requires { HasCode (told_of core.now).given.classes method.now }
    ensures { IfOk result (Fits (items.Method method.now)) }
{
    match core.class(&method.class) {
        Some(class) => Ok(Facts::Method(scan(alloc, class, method)?)),
        None => unreachable!(),
    }
}

fn facts_of<F: Folder>(
    alloc: Global,
    dir: &str,
    folder: &mut F,
    core: &Core,
    item: &Item,
) -> Result<Facts, LoadFault>
    requires { IsAsked (job_of core.now) (told_of core.now).given item.now }
    ensures { IfOk result (Fits item.now) }
{
    match item {
        Item::Class(name) => class_facts(alloc, dir, folder, name),
        Item::Method(method) => method_facts(alloc, core, method),
    }
}

// The worker takes an item and gives its facts; whether one was pending.
fn step<F: Folder>(
    alloc: Global,
    dir: &str,
    folder: &mut F,
    core: &mut Core,
) -> Result<bool, LoadFault>
    requires { IsKept core.old }
    ensures kept { IsKept core.new }
    ensures job { job_of core.new ≡ job_of core.old }
    ensures closed { IfOk result (λ more. more ≡ false → IsExhausted (job_of core.new) (told_of core.new) (events_of core.new) × IsIdle (events_of core.new)) }
{
    match core.take(0) {
        Took::Item(item) => {
            let facts = facts_of(alloc, dir, folder, core, &item)?;
            match core.give(0, &item, facts) {
                Ok(()) => Ok(true),
                Err(_) => Err(LoadFault::NoMemory),
            }
        }
        Took::Closed => Ok(false),
        Took::Later | Took::NoMemory => Err(LoadFault::NoMemory),
    }
}

/// Tells a core all that it asks for, from a folder.
pub fn load<F: Folder>(
    alloc: Global,
    dir: &str,
    folder: &mut F,
    core: &mut Core,
) -> Result<(), LoadFault>
    requires { IsKept core.old }
    ensures kept { IsKept core.new }
    ensures job { job_of core.new ≡ job_of core.old }
    ensures closed { OnOk result (IsExhausted (job_of core.new) (told_of core.new) (events_of core.new) × IsIdle (events_of core.new)) }
{
    'steps: for _ in 0..u64::MAX {
        if !step(alloc, dir, folder, core)? {
            return Ok(());
        }
    }
    Err(LoadFault::NoMemory)
}
