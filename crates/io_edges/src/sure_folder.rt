// A folder in memory that never fails.
ghost use Rattle.std.specs.Prelude.{◌≡◌, ◌≢◌, Some, []};
ghost use Rattle.io_edges.specs.Faults.{zero_fits};
ghost use Rattle.io_edges.specs.Folder.{Answers, Asks};
ghost use Rattle.io_edges.specs.SureFolder.{sure_files, sure_asked};

use crate::known::Known;
use crate::{File, Folder, Got};
use jv_base::List;
use std::alloc::Global;

/// Files in memory, each read of which is answered.
#[derive(Drop)]
pub struct SureFolder {
    known: Known,
}

impl SureFolder {
    /// These files. It takes no memory.
    pub fn new(files: List<File>) -> SureFolder
        ensures files { sure_files result ≡ files }
        ensures asked { sure_asked result ≡ [] }
    {
        SureFolder {
            known: Known::new(files),
        }
    }
}

impl Folder for SureFolder {
    ghost files = { λ f. Some (sure_files f) };

    ghost asked = { λ f. Some (sure_asked f) };

    ghost count = { λ _. 0 };

    fn read(&mut self, alloc: Global, path: &str) -> Got
        ensures files { sure_files self.new ≡ sure_files self.old }
        ensures asked { Asks (Some (sure_asked self.old)) path.now result (Some (sure_asked self.new)) }
        ensures answer { Answers (Some (sure_files self.old)) path.now result }
        ensures no_fault { result ≢ Got.Failed }
    {
        self.known.read(alloc, path)
    }

    fn faults(&self) -> u64 {
        0
    }

    ghost count_fits = { λ _. zero_fits };
}
