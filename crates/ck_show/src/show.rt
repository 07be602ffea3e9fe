// The lines that are put.
use crate::answer::{Answer, answer_of, told_text};
use crate::verdict::{Told, Verdict};
use io_edges::{Folder, Put, Sink};
use jv_base::Mem;
use std::alloc::{AllocError, Global};

/// How many methods have shapes, have none, are outside the profile; and how many files are no classes.
#[derive(Clone, Copy, Debug)]
struct Tally {
    with: u64,
    without: u64,
    outside: u64,
    others: u64,
}

// Puts the lines of methods with code.
fn put_told<S: Sink>(alloc: Global, told: &[Told], tally: &mut Tally, sink: &mut S) -> Mem<()> {
    for one in told {
        match one.verdict {
            Verdict::NoCode => continue,
            Verdict::Outside => tally.outside = tally.outside.saturating_add(1),
            Verdict::Shapes => tally.with = tally.with.saturating_add(1),
            Verdict::NoShapes => tally.without = tally.without.saturating_add(1),
        }
        let _ = sink.put(told_text(alloc, one)?.as_bytes());
    }
    Ok(())
}

// Puts the lines of each file.
fn put_lines<F: Folder, S: Sink>(
    alloc: Global,
    paths: &[String],
    folder: &mut F,
    sink: &mut S,
) -> Mem<Tally> {
    let mut tally = Tally {
        with: 0,
        without: 0,
        outside: 0,
        others: 0,
    };
    for path in paths {
        match answer_of(alloc, folder, path.as_str())? {
            Answer::Class(told) => put_told(alloc, told.as_slice(), &mut tally, sink)?,
            Answer::NoClass | Answer::NotRead => {
                tally.others = tally.others.saturating_add(1);
                let line = format!(in alloc; "{path}: no class\n")?;
                let _ = sink.put(line.as_bytes());
            }
        }
    }
    Ok(tally)
}

// Puts the lines and their counts. The status is 0 where each file is a class, and no method of the profile lacks shapes.
fn show_paths<F: Folder, S: Sink>(
    alloc: Global,
    paths: &[String],
    folder: &mut F,
    sink: &mut S,
) -> Mem<u8> {
    let Tally {
        with,
        without,
        outside,
        others,
    } = put_lines(alloc, paths, folder, sink)?;
    let counts = format!(in alloc;
        "{with} shapes, {without} no shapes, {outside} outside the profile, {others} no class\n"
    )?;
    match sink.put(counts.as_bytes()) {
        Put::Failed => Ok(4),
        Put::Done if without == 0 && others == 0 => Ok(0),
        Put::Done => Ok(2),
    }
}

/// Puts what the words ask for. The status is 0 where each file is a class, and no method of the profile lacks shapes, 1
/// with no path, else 2; 4 where the last write failed, and 6 for want of memory.
pub fn show<F: Folder, S: Sink>(
    alloc: Global,
    paths: &[String],
    folder: &mut F,
    sink: &mut S,
) -> u8 {
    if paths.is_empty() {
        let _ = sink.put("usage: ck_show PATH..\n".as_bytes());
        return 1;
    }
    match show_paths(alloc, paths, folder, sink) {
        Ok(status) => status,
        Err(AllocError) => {
            let _ = sink.put("no memory\n".as_bytes());
            6
        }
    }
}
