// What the words ask for.
use crate::lines::lines_of;
use crate::load::{LoadFault, load};
use bd_core::Core;
use io_edges::{Folder, Put, Sink};
use jv_base::{Mem, MethodId, TextFault, read_entry};
use std::alloc::{AllocError, Global};

// Puts the lines of a core that is closed.
fn put_lines<S: Sink>(alloc: Global, core: &Core, sink: &mut S) -> Mem<u8> {
    let mut status = 0;
    let lines = lines_of(alloc, core)?;
    for line in &lines {
        let text = format!(in alloc; "{line}\n")?;
        if let Put::Failed = sink.put(text.as_bytes()) {
            status = 4;
        }
    }
    Ok(status)
}

// Loads what an entry asks for, and puts its lines.
fn show_entry<F: Folder, S: Sink>(
    alloc: Global,
    dir: &str,
    entry: MethodId,
    folder: &mut F,
    sink: &mut S,
) -> Mem<u8> {
    let mut core = Core::start(alloc, entry, 2)?;
    match load(alloc, dir, folder, &mut core) {
        Ok(()) => put_lines(alloc, &core, sink),
        Err(LoadFault::ReadFault) => Ok(3),
        Err(LoadFault::NoMemory) => Err(AllocError),
    }
}

// Loads what the entry of a word asks for, and puts its lines behind one of its own.
fn show_word<F: Folder, S: Sink>(
    alloc: Global,
    dir: &str,
    word: &str,
    folder: &mut F,
    sink: &mut S,
) -> Mem<u8> {
    match read_entry(alloc, word) {
        Ok(entry) => {
            let line = format!(in alloc; "entry {word}\n")?;
            let _ = sink.put(line.as_bytes());
            show_entry(alloc, dir, entry, folder, sink)
        }
        Err(TextFault::Bad(_)) => Ok(1),
        Err(TextFault::NoMemory) => Err(AllocError),
    }
}

// The status of the first entry that has another than 0.
fn show_words<F: Folder, S: Sink>(
    alloc: Global,
    dir: &str,
    entries: &[String],
    folder: &mut F,
    sink: &mut S,
) -> Mem<u8> {
    for entry in entries {
        let status = show_word(alloc, dir, entry.as_str(), folder, sink)?;
        if status != 0 {
            return Ok(status);
        }
    }
    Ok(0)
}

/// Puts what is loaded for each entry behind the first word, which is a folder: a line of the entry, and then a line each,
/// sorted by bytes. The status is 0; 1 where there are no entries or a word is none (with a line of usage), 3 where a
/// read failed, 4 where a write failed, 6 for want of memory.
pub fn show<F: Folder, S: Sink>(
    alloc: Global,
    words: &[String],
    folder: &mut F,
    sink: &mut S,
) -> u8 {
    let shown = match words {
        [dir, first, ..] => {
            let _first = first;
            show_words(alloc, dir.as_str(), &words[1..], folder, sink)
        }
        _ => Ok(1),
    };
    match shown {
        Ok(1) => {
            let _ = sink.put("usage: bd_show DIR ENTRY..\n".as_bytes());
            1
        }
        Ok(status) => status,
        Err(AllocError) => {
            let _ = sink.put("no memory\n".as_bytes());
            6
        }
    }
}
