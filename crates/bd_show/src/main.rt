//! `bd_show`: which classes and methods are loaded for an entry.
#![tactic(auto)]

mod lines;
mod load;
mod show;

use crate::show::show;
use io_edges::{DiskFolder, OutSink, words_of};
use std::alloc::AllocError;
use std::process::ExitCode;

fn main(rt: HostRuntime) -> ExitCode {
    match words_of(&rt) {
        Ok(words) => {
            let mut folder = DiskFolder::new(&rt);
            let mut sink = OutSink::new(&rt);
            ExitCode::from(show(rt.alloc(), words.as_slice(), &mut folder, &mut sink))
        }
        Err(AllocError) => ExitCode::from(6),
    }
}
