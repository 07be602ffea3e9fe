// Files in memory, and the paths that were asked for.
ghost use Rattle.std.specs.Prelude.{◌≡◌, ◌≢◌, ◌⊎◌, [], ◌∷◌, ◌++◌, find, Some, IfOk, OnOk, OnErr};
ghost use Rattle.std.specs.Option.{option_copied};
ghost use Rattle.std.specs.Str.{bytes_eq};
ghost use Rattle.io_edges.specs.Folder.{answer_of, file_at, Asks, IsAnswer};

use crate::folder::LONGEST_FILE;
use crate::{File, Got};
use jv_base::{List, Mem, Name};
use std::alloc::Global;

#[derive(Drop)]
pub(crate) struct Known {
    pub(crate) files: List<File>,
    pub(crate) asked: List<Name>,
}

fn find_file<'a>(files: &'a [File], path: &str) -> Option<&'a File>
    ensures { option_copied result ≡ find (λ file. bytes_eq file.path path.now) files.now }
{
    files.iter().find(|file| file.path.as_str() == path)
}

// The bytes of a file that is not too long.
fn content(alloc: Global, file: &File) -> Mem<Got>
    ensures { IfOk result (λ got. got ≡ answer_of (Some file.now.bytes)) }
{
    if file.bytes.length() > LONGEST_FILE {
        return Ok(Got::TooLong);
    }
    Ok(Got::Found(List::copied(alloc, file.bytes.as_slice())?))
}

fn answer(alloc: Global, files: &List<File>, path: &str) -> Mem<Got>
    ensures { IfOk result (λ got. got ≡ answer_of (file_at files.now path.now)) }
{
    match find_file(files.as_slice(), path) {
        Some(file) => content(alloc, file),
        None => Ok(Got::Absent),
    }
}

// Notes that a path was asked for.
fn note(asked: &mut List<Name>, alloc: Global, path: &str) -> Mem<()>
    ensures ok { OnOk result (asked.new ≡ asked.old ++ path.now ∷ []) }
    ensures unchanged { OnErr result (asked.new ≡ asked.old) }
{
    let path = Name::from_text(alloc, path)?;
    asked.add(path)
}

impl Known {
    /// The files, with no path asked for. It takes no memory.
    pub(crate) fn new(files: List<File>) -> Known
        ensures files { result.files ≡ files }
        ensures asked { result.asked ≡ [] }
    {
        let files = files.into_vec();
        let asked = List::new(*files.allocator());
        Known {
            files: List::from_vec(files),
            asked,
        }
    }

    /// Reads the file at a path, and notes the path.
    pub(crate) fn read(&mut self, alloc: Global, path: &str) -> Got
        ensures files { self.new.files ≡ self.old.files }
        ensures asked { Asks (Some self.old.asked) path.now result (Some self.new.asked) }
        ensures answer { IsAnswer (file_at self.old.files path.now) result }
        ensures no_fault { result ≢ Got.Failed }
    {
        let Ok(got) = answer(alloc, &self.files, path) else {
            return Got::NoMemory;
        };
        match note(&mut self.asked, alloc, path) {
            Ok(()) => got,
            Err(_) => Got::NoMemory,
        }
    }

    /// Fails, and notes the path.
    pub(crate) fn fail(&mut self, alloc: Global, path: &str) -> Got
        ensures files { self.new.files ≡ self.old.files }
        ensures asked { Asks (Some self.old.asked) path.now result (Some self.new.asked) }
        ensures fails { (result ≡ Got.Failed) ⊎ (result ≡ Got.NoMemory) }
    {
        match note(&mut self.asked, alloc, path) {
            Ok(()) => Got::Failed,
            Err(_) => Got::NoMemory,
        }
    }
}
