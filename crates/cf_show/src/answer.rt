// What is answered of a file.
ghost use Rattle.std.specs.Prelude.{◌≡◌};
ghost use Rattle.cf_show.specs.Answers.{IsAnswer, IsRead};

use cf_class::{ClassFile, read_class};
use cf_pool::Fault;
use cf_structure::ClassFault;
use io_edges::{Folder, Got};
use std::alloc::Global;

/// What a file is, or why it was not read.
#[derive(Debug, Drop)]
pub enum Answer {
    Class(ClassFile),
    /// No class file, with its first fault.
    Malformed(Fault),
    Absent,
    TooLong,
    Failed,
    NoMemory,
}

// The class that the bytes are, or their fault.
fn read_bytes(alloc: Global, bytes: &[u8]) -> Answer
    ensures { IsRead (Got.Found bytes.now) result }
{
    match read_class(alloc, bytes) {
        Ok(class) => Answer::Class(class),
        Err(ClassFault::Malformed(fault)) => Answer::Malformed(fault),
        Err(ClassFault::NoMemory) => Answer::NoMemory,
    }
}

// The answer of what the folder gave.
fn read_given(alloc: Global, given: &Got) -> Answer
    ensures { IsRead given.now result }
{
    match given {
        Got::Found(bytes) => read_bytes(alloc, bytes.as_slice()),
        Got::Absent => Answer::Absent,
        Got::TooLong => Answer::TooLong,
        Got::Failed => Answer::Failed,
        Got::NoMemory => Answer::NoMemory,
    }
}

/// The answer of the file at a path.
pub fn answer_of<F: Folder>(alloc: Global, folder: &mut F, path: &str) -> Answer
    ensures { IsAnswer (F.files folder.old) path.now result }
{
    let given = folder.read(alloc, path);
    read_given(alloc, &given)
}
