// A folder in memory that fails at chosen reads.
ghost use Rattle.std.specs.Prelude.{◌≡◌, ◌≢◌, ◌≤◌, ◌<◌, ◌^◌, ◌⊎◌, ◌↔◌, IsTrue, Some, Contains};
ghost use Rattle.io_edges.specs.Faults.{Rose, raised};
ghost use Rattle.io_edges.specs.Folder.{Answers, Asks};

use crate::known::Known;
use crate::{File, Folder, Got};
use jv_base::{List, Name};
use std::alloc::Global;

/// Files in memory. It fails the reads whose numbers, from 0, it was made with, and no other.
#[derive(Drop)]
pub struct MemFolder {
    known: Known,
    failing: List<u32>,
    // How many reads there were. At the last value it stays.
    calls: u64,
    faults: u64,
    ghost faults_fit: { faults < 2 ^ 64 },
}

// Whether a read is listed.
fn is_listed(failing: &[u32], call: u64) -> bool
    ensures { IsTrue result ↔ Contains failing.now call }
{
    failing.iter().any(|listed| u64::from(*listed) == call)
}

impl MemFolder {
    ghost use Rattle.std.specs.Prelude.{[]};
    ghost use Rattle.io_edges.specs.MemFolder.{told_files, asked_paths, failing_calls, calls_so_far, fault_count};

    /// These files, and the numbers of the reads to fail. It takes no memory.
    pub fn new(files: List<File>, failing: List<u32>) -> MemFolder
        ensures files { told_files result ≡ files }
        ensures asked { asked_paths result ≡ [] }
        ensures failing { failing_calls result ≡ failing }
        ensures calls { calls_so_far result ≡ 0 }
        ensures faults { fault_count result ≡ 0 }
    {
        MemFolder {
            known: Known::new(files),
            failing,
            calls: 0,
            faults: 0,
        }
    }

    /// The paths that were asked for so far, in order.
    pub fn asked(&self) -> &[Name]
        ensures { result.now ≡ asked_paths self.now }
    {
        self.known.asked.as_slice()
    }
}

impl Folder for MemFolder {
    ghost use Rattle.io_edges.specs.MemFolder.{told_files, asked_paths, failing_calls, calls_so_far, fault_count};

    ghost files = { λ f. Some (told_files f) };

    ghost asked = { λ f. Some (asked_paths f) };

    ghost count = { fault_count };

    fn read(&mut self, alloc: Global, path: &str) -> Got
        ensures files { told_files self.new ≡ told_files self.old }
        ensures asked { Asks (Some (asked_paths self.old)) path.now result (Some (asked_paths self.new)) }
        ensures later { fault_count self.old ≤ fault_count self.new }
        ensures failed { result ≡ Got.Failed → Rose (fault_count self.old) (fault_count self.new) }
        ensures answer { Answers (Some (told_files self.old)) path.now result }

        // Only a read that failed is counted.
        ensures counted { result ≡ Got.Failed → fault_count self.new ≡ raised (fault_count self.old) }
        ensures others { result ≢ Got.Failed → fault_count self.new ≡ fault_count self.old }

        // It fails at the listed reads and at no other.
        ensures fails_listed { Contains (failing_calls self.old) (calls_so_far self.old)
            → (result ≡ Got.Failed) ⊎ (result ≡ Got.NoMemory) }
        ensures listed { result ≡ Got.Failed → Contains (failing_calls self.old) (calls_so_far self.old) }
        ensures failing { failing_calls self.new ≡ failing_calls self.old }
        ensures calls { calls_so_far self.new ≡ raised (calls_so_far self.old) }
    {
        let call = self.calls;
        self.calls = call.saturating_add(1);
        if !is_listed(self.failing.as_slice(), call) {
            return self.known.read(alloc, path);
        }
        let got = self.known.fail(alloc, path);
        if let Got::Failed = got {
            self.faults = self.faults.saturating_add(1);
        }
        got
    }

    fn faults(&self) -> u64 {
        self.faults
    }

    ghost count_fits = { λ f. f.faults_fit };
}
