// The lines that are put.
use crate::answer::{Answer, answer_of};
use io_edges::{Folder, Put, Sink};
use jv_base::Mem;
use std::alloc::{AllocError, Global};

const USAGE: &str = "usage: cf_show [--quiet] PATH..\n";

const NO_MEMORY: &str = "no memory\n";

/// How many files were read as classes, and how many were not.
#[derive(Clone, Copy, Debug)]
struct Tally {
    read: u64,
    refused: u64,
}

// The line of a file.
fn line_of(alloc: Global, path: &str, answer: &Answer) -> Mem<String> {
    match answer {
        Answer::Class(class) => format!(in alloc; "{path}: {class:?}\n"),
        Answer::Malformed(fault) => format!(in alloc; "{path}: malformed at {fault}\n"),
        Answer::Absent => format!(in alloc; "{path}: absent\n"),
        Answer::TooLong => format!(in alloc; "{path}: too long\n"),
        Answer::Failed => format!(in alloc; "{path}: not read\n"),
        Answer::NoMemory => format!(in alloc; "{path}: no memory\n"),
    }
}

// The status after a text was put: the one before, or 4 where the write failed.
fn put_text<S: Sink>(sink: &mut S, text: &str, before: u8) -> u8 {
    match sink.put(text.as_bytes()) {
        Put::Done => before,
        Put::Failed => 4,
    }
}

// Puts the line of each file, but, where it is to be quiet, not that of a class.
fn put_lines<F: Folder, S: Sink>(
    alloc: Global,
    paths: &[String],
    quiet: bool,
    folder: &mut F,
    sink: &mut S,
) -> Mem<Tally> {
    let mut tally = Tally {
        read: 0,
        refused: 0,
    };
    for path in paths {
        let answer = answer_of(alloc, folder, path.as_str());
        let is_class = matches!(&answer, Answer::Class(_));
        if is_class {
            tally.read = tally.read.saturating_add(1);
        } else {
            tally.refused = tally.refused.saturating_add(1);
        }
        if !(quiet && is_class) {
            let line = line_of(alloc, path.as_str(), &answer)?;
            let _ = sink.put(line.as_bytes());
        }
    }
    Ok(tally)
}

// Puts the lines, and where it is to be quiet their counts. The status is 0 where each file is a class, else 2.
fn show_paths<F: Folder, S: Sink>(
    alloc: Global,
    paths: &[String],
    quiet: bool,
    folder: &mut F,
    sink: &mut S,
) -> Mem<u8> {
    let tally = put_lines(alloc, paths, quiet, folder, sink)?;
    let status = if tally.refused == 0 { 0 } else { 2 };
    if !quiet {
        return Ok(status);
    }
    let counts = format!(in alloc; "{} read, {} not\n", tally.read, tally.refused)?;
    Ok(put_text(sink, counts.as_str(), status))
}

/// Puts what the words ask for. The status is 0 where each file is a class, 1 with no path, 2 where a file is none, 4 where
/// the last write failed, and 6 for want of memory.
pub fn show<F: Folder, S: Sink>(
    alloc: Global,
    words: &[String],
    folder: &mut F,
    sink: &mut S,
) -> u8 {
    let (quiet, paths) = match words {
        [first, rest @ ..] if first.as_str() == "--quiet" => (true, rest),
        _ => (false, words),
    };
    if paths.is_empty() {
        return put_text(sink, USAGE, 1);
    }
    match show_paths(alloc, paths, quiet, folder, sink) {
        Ok(status) => status,
        Err(AllocError) => put_text(sink, NO_MEMORY, 6),
    }
}
