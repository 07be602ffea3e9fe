// The words of the command line.
use jv_base::Mem;
use std::alloc::AllocError;
use std::env::{self, Env};
use std::io::ErrorKind;

/// The words after the program's name. Where the system does not give them as text, there is none.
pub fn words_of<R: Env + AllocGlobal>(rt: &R) -> Mem<Vec<String>> {
    match env::args(rt) {
        Ok(mut args) => {
            let _ = args.next();
            args.collect(rt.alloc())
        }
        Err(fault) if fault.kind() == ErrorKind::OutOfMemory => Err(AllocError),
        Err(_) => Ok(Vec::new(rt.alloc())),
    }
}
