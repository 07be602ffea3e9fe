// The files of the system.
ghost use Rattle.std.specs.Prelude.{◌<◌, ◌^◌, ◌≡◌, None};

use crate::folder::LONGEST_FILE;
use crate::{Folder, Got};
use jv_base::List;
use std::alloc::Global;
use std::fs;
use std::io::{self, Read};
use std::rt::Files;

/// The files of the system, of which no clause tells anything.
#[derive(Drop)]
pub struct DiskFolder<R> {
    rt: R,
    faults: u64,
    ghost faults_fit: { faults < 2 ^ 64 },
}

impl<R: Files> DiskFolder<R> {
    /// The files that this runtime reaches.
    pub fn new(rt: R) -> DiskFolder<R>
        ensures { ⟦<DiskFolder<R> as Folder>⟧.count result ≡ 0 }
    {
        DiskFolder { rt, faults: 0 }
    }
}

// The bytes of a file, up to one more than a file may have. What is there and no file is refused unopened.
fn read_file<R: Files>(rt: &R, alloc: Global, path: &str) -> io::Result<Vec<u8>> {
    if !fs::metadata(rt, path)?.is_file() {
        return Err(io::ErrorKind::InvalidInput.into());
    }
    let mut bytes = Vec::new(alloc);
    fs::open(rt, path)?
        .take(LONGEST_FILE as u64 + 1)
        .read_to_end(&mut bytes)?;
    Ok(bytes)
}

impl<R: Files> Folder for DiskFolder<R> {
    ghost files = { λ _. None };

    ghost asked = { λ _. None };

    ghost count = { λ f. f.faults };

    fn read(&mut self, alloc: Global, path: &str) -> Got {
        match read_file(&self.rt, alloc, path) {
            Ok(bytes) if bytes.len() > LONGEST_FILE => Got::TooLong,
            Ok(bytes) => Got::Found(List::from_vec(bytes)),
            Err(error) => match error.kind() {
                io::ErrorKind::NotFound => Got::Absent,
                io::ErrorKind::OutOfMemory => Got::NoMemory,
                _ => {
                    self.faults = self.faults.saturating_add(1);
                    Got::Failed
                }
            },
        }
    }

    fn faults(&self) -> u64 {
        self.faults
    }

    ghost count_fits = { λ f. f.faults_fit };
}
