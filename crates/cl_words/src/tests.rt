// The command lines.
use crate::{Command, Mode, read_words};
use jv_base::{entry_text, site_text};
use std::alloc::{AllocError, Global};
use std::process::Abort;

// Words, where '' is an empty one, and what they are: Usage, or the bounds, the budget, the jobs, the trace, the folder,
// the entry and the mode.
const LINES: &str = "
    // DIR and ENTRY, no fewer and no more
     | Usage
    D | Usage
    T.f:(II)V | Usage
    D T.f:(II)V | 16 16 2 32 16 0 1 false D T.f:(II)V plain
    D T.f:(II)V E | Usage
    // each option at both ends of its range, and one past
    --unwind 0 D T.f:(II)V | 0 16 2 32 16 0 1 false D T.f:(II)V plain
    --unwind 100 D T.f:(II)V | 100 16 2 32 16 0 1 false D T.f:(II)V plain
    --unwind 101 D T.f:(II)V | Usage
    --frames 0 D T.f:(II)V | Usage
    --frames 1 D T.f:(II)V | 16 1 2 32 16 0 1 false D T.f:(II)V plain
    --frames 255 D T.f:(II)V | 16 255 2 32 16 0 1 false D T.f:(II)V plain
    --frames 256 D T.f:(II)V | Usage
    --depth 0 D T.f:(II)V | Usage
    --depth 1 D T.f:(II)V | 16 16 1 32 16 0 1 false D T.f:(II)V plain
    --depth 4 D T.f:(II)V | 16 16 4 32 16 0 1 false D T.f:(II)V plain
    --depth 5 D T.f:(II)V | Usage
    --string 0 D T.f:(II)V | 16 16 2 0 16 0 1 false D T.f:(II)V plain
    --string 255 D T.f:(II)V | 16 16 2 255 16 0 1 false D T.f:(II)V plain
    --string 256 D T.f:(II)V | Usage
    --array 0 D T.f:(II)V | 16 16 2 32 0 0 1 false D T.f:(II)V plain
    --array 255 D T.f:(II)V | 16 16 2 32 255 0 1 false D T.f:(II)V plain
    --array 256 D T.f:(II)V | Usage
    --budget 0 D T.f:(II)V | 16 16 2 32 16 0 1 false D T.f:(II)V plain
    --budget 1000000 D T.f:(II)V | 16 16 2 32 16 1000000 1 false D T.f:(II)V plain
    --budget 1000001 D T.f:(II)V | Usage
    --jobs 0 D T.f:(II)V | Usage
    --jobs 1 D T.f:(II)V | 16 16 2 32 16 0 1 false D T.f:(II)V plain
    --jobs 16 D T.f:(II)V | 16 16 2 32 16 0 16 false D T.f:(II)V plain
    --jobs 17 D T.f:(II)V | Usage
    --make 0 | Usage
    --make 1 | 16 16 2 32 16 0 1 false  G.m0:(I)I make 1
    --make 200 | 16 16 2 32 16 0 1 false  G.m0:(I)I make 200
    --make 201 | Usage
    // a value in a word of its own, or behind =
    --unwind 3 D T.f:(II)V | 3 16 2 32 16 0 1 false D T.f:(II)V plain
    --unwind=3 D T.f:(II)V | 3 16 2 32 16 0 1 false D T.f:(II)V plain
    --unwind= D T.f:(II)V | Usage
    --unwind = 3 D T.f:(II)V | Usage
    // a number is decimal digits without a sign or a leading zero
    --unwind 03 D T.f:(II)V | Usage
    --unwind 00 D T.f:(II)V | Usage
    --unwind +3 D T.f:(II)V | Usage
    --unwind=-0 D T.f:(II)V | Usage
    --unwind 3.0 D T.f:(II)V | Usage
    --unwind 0x3 D T.f:(II)V | Usage
    --unwind '' D T.f:(II)V | Usage
    --unwind 18446744073709551619 D T.f:(II)V | Usage
    --unwind D T.f:(II)V | Usage
    // an option twice
    --unwind 3 --unwind 3 D T.f:(II)V | Usage
    --list D --list T.f:(II)V | Usage
    --trace --trace D T.f:(II)V | Usage
    --make 1 --make 1 | Usage
    // options before, between and behind the positionals
    --frames 2 D --depth 3 T.f:(II)V --jobs 4 | 16 2 3 32 16 0 4 false D T.f:(II)V plain
    D T.f:(II)V --array 1 --string 2 --budget 3 | 16 16 2 2 1 3 1 false D T.f:(II)V plain
    // a word that begins with a hyphen is no value and no positional, unless behind = or --
    -D T.f:(II)V | Usage
    --replay -x --site T.f:(II)V@6:null D T.f:(II)V | Usage
    --replay=-x --site T.f:(II)V@6:null D T.f:(II)V | 16 16 2 32 16 0 1 false D T.f:(II)V replay -x T.f:(II)V@6:null
    - T.f:(II)V | 16 16 2 32 16 0 1 false - T.f:(II)V plain
    -- -D T.f:(II)V | 16 16 2 32 16 0 1 false -D T.f:(II)V plain
    D -- T.f:(II)V | 16 16 2 32 16 0 1 false D T.f:(II)V plain
    D T.f:(II)V -- | 16 16 2 32 16 0 1 false D T.f:(II)V plain
    --unwind 3 -- D T.f:(II)V | 3 16 2 32 16 0 1 false D T.f:(II)V plain
    D -- T.f:(II)V --list | Usage
    // DIR is not empty, and ENTRY is the text form of an entry
    '' T.f:(II)V | Usage
    D '' | Usage
    D T.f | Usage
    D T.<init>:()V | Usage
    D T.\\u0066:(II)V | Usage
    D p/T.\\u00e9:()V | 16 16 2 32 16 0 1 false D p/T.\\u00e9:()V plain
    // the flags
    --list D T.f:(II)V | 16 16 2 32 16 0 1 false D T.f:(II)V list
    --trace D T.f:(II)V | 16 16 2 32 16 0 1 true D T.f:(II)V plain
    D T.f:(II)V --trace --list | 16 16 2 32 16 0 1 true D T.f:(II)V list
    --list=true D T.f:(II)V | Usage
    // --replay and --site together, and not beside --list
    --replay i --site T.f:(II)V@6:null D T.f:(II)V | 16 16 2 32 16 0 1 false D T.f:(II)V replay i T.f:(II)V@6:null
    --site=U.<init>:()V@0:assert --trace --replay= D T.f:(II)V | 16 16 2 32 16 0 1 true D T.f:(II)V replay  U.<init>:()V@0:assert
    --replay i D T.f:(II)V | Usage
    --site T.f:(II)V@6:null D T.f:(II)V | Usage
    --replay --site T.f:(II)V@6:null D T.f:(II)V | Usage
    --list --replay i --site T.f:(II)V@6:null D T.f:(II)V | Usage
    --replay i --site T.f:(II)V@6:nul D T.f:(II)V | Usage
    --replay i --site T.f:(II)V@65536:null D T.f:(II)V | Usage
    --replay i --site T.\\u00E9:()V@0:null D T.f:(II)V | Usage
    --replay i --site T.\\u00e9:()V@0:null D T.f:(II)V | 16 16 2 32 16 0 1 false D T.f:(II)V replay i T.\\u00e9:()V@0:null
    // --make stands with numbers alone
    --make 7 --unwind 3 --jobs 2 --budget 9 | 3 16 2 32 16 9 2 false  G.m0:(I)I make 7
    --make 7 D T.f:(II)V | Usage
    --make 7 D | Usage
    --make 7 '' | Usage
    --make 7 --list | Usage
    --make 7 --trace | Usage
    --make 7 --replay i --site T.f:(II)V@6:null | Usage
    --make | Usage
    // no help, no version, no short option, no prefix of an option, no other
    --help | Usage
    --help D T.f:(II)V | Usage
    -h | Usage
    --version | Usage
    -V D T.f:(II)V | Usage
    help T.f:(II)V | 16 16 2 32 16 0 1 false help T.f:(II)V plain
    --unwin 3 D T.f:(II)V | Usage
    --unwinds 3 D T.f:(II)V | Usage
    --UNWIND 3 D T.f:(II)V | Usage
    -unwind 3 D T.f:(II)V | Usage
    --color D T.f:(II)V | Usage
";

fn mode_text(alloc: Global, mode: &Mode) -> Result<String, AllocError> {
    match mode {
        Mode::Plain => String::from_str(alloc, "plain"),
        Mode::List => String::from_str(alloc, "list"),
        Mode::Replay(file, goal) => {
            let site = site_text(alloc, goal)?;
            format!(in alloc; "replay {} {}", file.as_str(), site.as_str())
        }
        Mode::Make(number) => format!(in alloc; "make {number}"),
    }
}

fn command_text(alloc: Global, command: &Command) -> Result<String, AllocError> {
    let bounds = command.bounds;
    let entry = entry_text(alloc, &command.entry)?;
    let mode = mode_text(alloc, &command.mode)?;
    format!(in alloc;
        "{} {} {} {} {} {} {} {} {} {} {mode}",
        bounds.unwind,
        bounds.frames,
        bounds.depth,
        bounds.string,
        bounds.array,
        command.budget,
        command.jobs,
        command.trace,
        command.dir.as_str(),
        entry.as_str()
    )
}

/// What words are.
fn printed<R: Abort + AllocGlobal>(rt: &R, line: &str) -> String {
    let alloc = rt.alloc();
    let mut words = Vec::new(alloc);
    for word in line.split_whitespace() {
        let word = if word == "''" { "" } else { word };
        let word = String::from_str(alloc, word).expect(rt, "memory");
        words.push(word).expect(rt, "memory");
    }
    match read_words(alloc, words.as_slice()) {
        Ok(command) => command_text(alloc, &command).expect(rt, "memory"),
        Err(fault) => format!(in alloc; "{fault:?}").expect(rt, "memory"),
    }
}

#[test]
fn words_are_their_command(rt: HostRuntime) {
    let mut rows = 0u32;
    for line in LINES.lines() {
        if let Some((words, wanted)) = line.split_once(" | ") {
            assert_eq!(rt; printed(&rt, words).as_str(), wanted, "{words}");
            rows = rows.saturating_add(1);
        }
    }
    assert!(rt; rows > 90, "{rows}");
}
