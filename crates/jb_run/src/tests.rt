// Runs over folders and sinks in memory, with the texts that a person works out.
use crate::report::{Answer, Ran, Status};
use crate::top_call::run_alone;
use io_edges::{File, MemFolder, MemSink};
use jv_base::{List, Mem, Name};
use std::alloc::Global;
use std::process::Abort;
use std::test::Fail;

// A class T whose static method `f:(II)V` throws null where its two numbers are equal, assembled by hand.
const EQUAL_INTS: [u8; 106] = [
    202, 254, 186, 190, 0, 0, 0, 52, 0, 8, 1, 0, 4, 67, 111, 100, 101, 1, 0, 1, 102, 1, 0, 5, 40,
    73, 73, 41, 86, 1, 0, 1, 84, 7, 0, 4, 1, 0, 16, 106, 97, 118, 97, 47, 108, 97, 110, 103, 47,
    79, 98, 106, 101, 99, 116, 7, 0, 6, 0, 33, 0, 5, 0, 7, 0, 0, 0, 0, 0, 1, 0, 8, 0, 2, 0, 3, 0,
    1, 0, 1, 0, 0, 0, 20, 0, 8, 0, 8, 0, 0, 0, 8, 26, 27, 160, 0, 5, 1, 191, 177, 0, 0, 0, 0, 0, 0,
];

const EQUAL_TEXT: &str =
    "entry T.f:(II)V\nbounds unwind=16 frames=16 depth=2 string=32 array=16\nT.f:(II)V@6:null FAILURE {\"args\":[0,0]}\nT.f:(II)V@6:assert SUCCESS\nsites 2 failure 1 unknown 0\n";

// The smallest class of the format, whose name is T.
const SMALLEST: [u8; 53] = [
    202, 254, 186, 190, 0, 0, 0, 52, 0, 5, 7, 0, 2, 1, 0, 1, 84, 7, 0, 4, 1, 0, 16, 106, 97, 118,
    97, 47, 108, 97, 110, 103, 47, 79, 98, 106, 101, 99, 116, 0, 33, 0, 1, 0, 3, 0, 0, 0, 0, 0, 0,
    0, 0,
];

fn file_of(alloc: Global, path: &str, bytes: &[u8]) -> Mem<File> {
    Ok(File {
        path: Name::from_text(alloc, path)?,
        bytes: List::copied(alloc, bytes)?,
    })
}

// EQUAL_INTS as T of `dir`; the smallest class as S, which is not its name, as D without its superclass, as C cut off, and as T
// of `small`.
fn files_of(alloc: Global) -> Mem<List<File>> {
    let mut damaged = SMALLEST;
    damaged[44] = 0;
    let files: [(&str, &[u8]); 5] = [
        ("dir/T.class", &EQUAL_INTS),
        ("dir/S.class", &SMALLEST),
        ("small/T.class", &SMALLEST),
        ("dir/D.class", &damaged),
        ("dir/C.class", &SMALLEST[..30]),
    ];
    let mut listed = List::new(alloc);
    for (path, bytes) in files {
        listed.add(file_of(alloc, path, bytes)?)?;
    }
    Ok(listed)
}

fn words_of(alloc: Global, text: &[&str]) -> Mem<Vec<String>> {
    let mut words = Vec::new(alloc);
    for word in text {
        words.push(String::from_str(alloc, word)?)?;
    }
    Ok(words)
}

// Runs on files, with the reads to fail and the bytes after which the sink fails.
fn ran_on(
    alloc: Global,
    files: List<File>,
    words: &[&str],
    failing: &[u32],
    fail_after: Option<u64>,
) -> Mem<(Ran<MemFolder>, MemSink)> {
    let folder = MemFolder::new(files, List::copied(alloc, failing)?);
    let mut sink = MemSink::new(alloc, fail_after)?;
    let words = words_of(alloc, words)?;
    let ran = run_alone(alloc, words.as_slice(), folder, &mut sink);
    Ok((ran, sink))
}

fn ran(
    alloc: Global,
    words: &[&str],
    failing: &[u32],
    fail_after: Option<u64>,
) -> Mem<(Ran<MemFolder>, MemSink)> {
    ran_on(alloc, files_of(alloc)?, words, failing, fail_after)
}

/// Checks the answer to words: the status, the text, and how many paths were asked for.
fn check<R: Abort + AllocGlobal>(
    rt: &R,
    words: &[&str],
    status: u8,
    text: &str,
    asked: usize,
) -> Result<(), Fail> {
    let (ran, sink) = ran(rt.alloc(), words, &[], None)?;
    assert_eq!(rt; ran.status, Status(status), "{words:?}");
    assert!(rt; sink.bytes() == text.as_bytes(), "{words:?}");
    assert_eq!(rt; ran.folder.asked().len(), asked, "{words:?}");
    Ok(())
}

const USAGE: &str = "usage: jbmc [OPTIONS] DIR ENTRY\n";

// Words that are no command, a line each; an empty word is `''`.
const NO_COMMANDS: &str = "
    dir
    '' T.f:(II)V
    dir T.f
    dir T.f:(II)V x
    --unwind 101 dir T.f:(II)V
    --site T.f:(II)V@6:null dir T.f:(II)V
    --help
";

#[test]
fn words_that_are_no_command_are_usage(rt: HostRuntime) -> Result<(), Fail> {
    check(&rt, &[], 1, USAGE, 0)?;
    for line in NO_COMMANDS.lines() {
        let mut words = Vec::new(rt.alloc());
        for word in line.split_whitespace() {
            words.push(if word == "''" { "" } else { word })?;
        }
        if !words.is_empty() {
            check(&rt, words.as_slice(), 1, USAGE, 0)?;
        }
    }
    Ok(())
}

// Words, how many paths are asked for, and the line that refuses them.
#[rattlefmt::skip]
const REFUSED: &str = "
    dir a/B.f:(II)V | 1 | missing class a/B
    dir T.g:(II)V | 1 | no entry T.g:(II)V
    small T.f:()V | 1 | no entry T.f:()V
    dir S.f:()V | 1 | malformed S at 41: WrongName
    dir D.f:()V | 1 | malformed D at 43: BadIndex
    dir C.f:()V | 1 | malformed C at 30: Truncated
    dir java/lang/Object.f:()V | 0 | no entry java/lang/Object.f:()V
    --list dir T.f:(II)V | 1 | not built yet
    --list dir T.g:(II)V | 1 | no entry T.g:(II)V
    --trace dir T.f:(II)V | 1 | not built yet
    --budget 1 dir T.f:(II)V | 1 | not built yet
    --replay in.json --site T.f:(II)V@6:null dir T.f:(II)V | 1 | not built yet
    --make 1 | 0 | not built yet
";

#[test]
fn what_has_no_verdict_is_refused_by_name(rt: HostRuntime) -> Result<(), Fail> {
    let alloc = rt.alloc();
    for line in REFUSED.lines() {
        let Some((words, rest)) = line.trim().split_once(" | ") else {
            continue;
        };
        let (asked, refusal) = rest.split_once(" | ").expect(&rt, "a row");
        let listed: Vec<&str> = words.split_whitespace().collect(alloc)?;
        let text = format!(in alloc; "refused: {refusal}\n")?;
        check(
            &rt,
            listed.as_slice(),
            2,
            text.as_str(),
            asked.parse::<usize>()?,
        )?;
    }
    Ok(())
}

const NULL: &str =
    "T.f:(II)V@6:null FAILURE {\"args\":[0,0]}\nT.f:(II)V@6:assert SUCCESS\nsites 2 failure 1 unknown 0\n";

// Options, and the bounds that are printed.
const BOUNDS: &str = "
     | unwind=16 frames=16 depth=2 string=32 array=16
    --unwind 0 | unwind=0 frames=16 depth=2 string=32 array=16
    --unwind 100 --frames 255 | unwind=100 frames=255 depth=2 string=32 array=16
    --frames 1 --depth 4 | unwind=16 frames=1 depth=4 string=32 array=16
    --string 255 --array 0 | unwind=16 frames=16 depth=2 string=255 array=0
    --array=255 --string=0 --depth=1 | unwind=16 frames=16 depth=1 string=0 array=255
    --jobs 16 --budget 0 | unwind=16 frames=16 depth=2 string=32 array=16
";

#[test]
fn the_bounds_of_the_words_are_printed(rt: HostRuntime) -> Result<(), Fail> {
    let alloc = rt.alloc();
    for line in BOUNDS.lines() {
        let Some((options, bounds)) = line.split_once(" | ") else {
            continue;
        };
        let mut words: Vec<&str> = options.split_whitespace().collect(alloc)?;
        words.push("dir")?;
        words.push("T.f:(II)V")?;
        let text = format!(in alloc; "entry T.f:(II)V\nbounds {bounds}\n{NULL}")?;
        check(&rt, words.as_slice(), 10, text.as_str(), 1)?;
    }
    Ok(())
}

// A read that fails is a fault.
#[test]
fn a_failed_read_ends_the_run(rt: HostRuntime) -> Result<(), Fail> {
    let (ran, sink) = ran(rt.alloc(), &["dir", "T.f:(II)V"], &[0], None)?;
    assert_eq!(rt; ran.status, Status(3));
    assert!(rt; matches!(ran.answer, Answer::ReadFault));
    assert!(rt; sink.bytes() == b"fault: read\n".as_slice());
    Ok(())
}

// A sink that fails after some bytes has exactly those, for each number below the text's length.
#[test]
fn a_failed_write_leaves_a_front_of_the_text(rt: HostRuntime) -> Result<(), Fail> {
    for length in 0..EQUAL_TEXT.len() {
        let (ran, sink) = ran(rt.alloc(), &["dir", "T.f:(II)V"], &[], Some(length as u64))?;
        assert_eq!(rt; ran.status, Status(4), "{length}");
        assert!(rt; matches!(ran.answer, Answer::Decided(_, _)), "{length}");
        assert_eq!(rt; sink.bytes().len(), length);
        assert!(rt; EQUAL_TEXT.as_bytes().starts_with(sink.bytes()), "{length}");
    }
    Ok(())
}

#[test]
fn a_file_that_is_too_long_is_malformed(rt: HostRuntime) -> Result<(), Fail> {
    let alloc = rt.alloc();
    let mut files = List::new(alloc);
    files.add(File {
        path: Name::from_text(alloc, "dir/L.class")?,
        bytes: List::from_vec(vec![in alloc; 0_u8; 16_777_217]?),
    })?;
    let (ran, sink) = ran_on(alloc, files, &["dir", "L.f:()V"], &[], None)?;
    assert_eq!(rt; ran.status, Status(2));
    assert!(rt; sink.bytes() == b"refused: malformed L at 16777216: TooLong\n".as_slice());
    Ok(())
}
