// `jbmc`: a bounded verifier of Java bytecode.
#![tactic(auto)]

mod encoder;
mod encoding;
mod formula;
mod frame;
mod gates;
mod int_bits;
mod judging;
mod laws;
mod locals;
mod machine;
#[cfg(test)]
mod random_runs;
mod report;
mod sites;
mod solver;
#[cfg(test)]
mod tests;
mod text;
mod top_call;
mod verdicts;

use crate::top_call::{run_alone, run_no_words};
use io_edges::{DiskFolder, OutSink, words_of};
use std::alloc::AllocError;
use std::process::ExitCode;

fn main(rt: HostRuntime) -> ExitCode {
    let mut sink = OutSink::new(&rt);
    let status = match words_of(&rt) {
        Ok(words) => {
            let folder = DiskFolder::new(&rt);
            run_alone(rt.alloc(), words.as_slice(), folder, &mut sink).status
        }
        Err(AllocError) => run_no_words(&mut sink),
    };
    ExitCode::from(status.0)
}
