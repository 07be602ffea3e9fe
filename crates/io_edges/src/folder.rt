// A folder as its readers see it: files by path, and a count of the reads that failed.
ghost use Rattle.std.specs.Prelude.{◌≡◌, ◌≢◌, ◌≤◌, ◌<◌, ◌^◌, ℕ, List as list_of, Option};
ghost use Rattle.io_edges.specs.declared.folder.File.{File as file_of};
ghost use Rattle.io_edges.specs.Faults.{Rose};
ghost use Rattle.io_edges.specs.Folder.{Answers, Asks};

use jv_base::{List, Name};
use std::alloc::Global;

/// The most bytes that a file may have to be read.
pub(crate) const LONGEST_FILE: usize = 16_777_216;

/// What a read answers.
#[derive(Debug, Drop)]
pub enum Got {
    /// The bytes of the file.
    Found(List<u8>),
    /// No file is there.
    Absent,
    /// The file has more than 16,777,216 bytes.
    TooLong,
    /// The folder was not able to say.
    Failed,
    NoMemory,
}

/// A file by its path.
#[derive(Debug, Drop)]
pub struct File {
    pub path: Name,
    pub bytes: List<u8>,
}

pub trait Folder {
    /// The files, where they are told. Of two files of one path the first counts.
    ghost files: { Self → Option (list_of file_of) };

    /// The paths that were asked for so far, in order, where they are told.
    ghost asked: { Self → Option (list_of (list_of ℕ)) };

    /// How many reads failed. At the last value of a `u64` it stays.
    ghost count: { Self → ℕ };

    /// Reads the file at a path.
    fn read(&mut self, alloc: Global, path: &str) -> Got
        ensures files { files self.new ≡ files self.old }
        ensures asked { Asks (asked self.old) path.now result (asked self.new) }
        ensures later { count self.old ≤ count self.new }
        ensures failed { result ≡ Got.Failed → Rose (count self.old) (count self.new) }
        ensures others { result ≢ Got.Failed → count self.new ≡ count self.old }
        ensures answer { Answers (files self.old) path.now result };

    /// The count of the reads that failed.
    fn faults(&self) -> u64
        ensures { result ≡ count self.now };

    /// Each count is a `u64`.
    ghost count_fits: { (folder : Self) → count folder < 2 ^ 64 };
}
