// The reader of the words.
ghost use Rattle.std.specs.Prelude.{◌≡◌, ℕ, List, IfOk, IfSome};
ghost use Rattle.jv_base.specs.declared.method.Bounds.{Bounds};
ghost use Rattle.jv_base.specs.declared.method.MethodId.{MethodId};
ghost use Rattle.cl_words.specs.declared.command.Command.{Command};
ghost use Rattle.cl_words.specs.declared.command.Mode.{Mode};
ghost use Rattle.cl_words.specs.Calls.Options.{rows};
ghost use Rattle.cl_words.specs.Command.{HasBounds, HasForm, HasJob, HasMake, HasMode, IsCommand, IsRead, made_entry, texts};

use crate::line::command_line;
use crate::matched::{has_flag, lacks_others, lacks_value, text_of};
use crate::option::{ARRAY, BUDGET, DEPTH, FRAMES, JOBS, MAKE, STRING, UNWIND, number_of};
use crate::{Command, Mode, WordsFault};
use clap::ArgMatches;
use jv_base::{Bounds, Mem, MethodId, Name, read_entry, read_site};
use std::alloc::Global;

fn bounds_of(matches: &ArgMatches<'_>) -> Option<Bounds>
    ensures found { IfSome result (λ bounds. HasBounds (rows matches.now) bounds) }
    ensures only { (bounds : Bounds) → HasBounds (rows matches.now) bounds → result ≡ Some bounds }
{
    Some(Bounds {
        unwind: number_of(matches, UNWIND)? as u8,
        frames: number_of(matches, FRAMES)? as u8,
        depth: number_of(matches, DEPTH)? as u8,
        string: number_of(matches, STRING)? as u8,
        array: number_of(matches, ARRAY)? as u8,
    })
}

/// The folder and the entry.
fn job_of(alloc: Global, matches: &ArgMatches<'_>) -> Result<(Name, MethodId), WordsFault>
    ensures found { IfOk result (λ job. HasJob (rows matches.now) job.0 job.1) }
    ensures outside { result ≡ Err WordsFault.Usage
        → (dir : List ℕ) (entry : MethodId) → HasJob (rows matches.now) dir entry → ⊥ }
{
    let dir = text_of(matches, "DIR").ok_or(WordsFault::Usage)?;
    let entry = text_of(matches, "ENTRY").ok_or(WordsFault::Usage)?;
    if dir.is_empty() {
        return Err(WordsFault::Usage);
    }
    let entry = read_entry(alloc, entry)?;
    Ok((Name::from_text(alloc, dir)?, entry))
}

/// What is asked of a folder and an entry.
fn form_of(alloc: Global, matches: &ArgMatches<'_>) -> Result<Mode, WordsFault>
    ensures found { IfOk result (λ mode. HasForm (rows matches.now) mode) }
    ensures outside { result ≡ Err WordsFault.Usage → (mode : Mode) → HasForm (rows matches.now) mode → ⊥ }
{
    let list = has_flag(matches, "list");
    match (text_of(matches, "replay"), text_of(matches, "site")) {
        (None, None) if list => Ok(Mode::List),
        (None, None) => Ok(Mode::Plain),
        (Some(file), Some(site)) if !list => {
            let goal = read_site(alloc, site)?;
            Ok(Mode::Replay(Name::from_text(alloc, file)?, goal))
        }
        _ => Err(WordsFault::Usage),
    }
}

/// The entry of the made classes.
fn made(alloc: Global) -> Mem<MethodId>
    ensures { IfOk result (λ entry. entry ≡ made_entry) }
{
    Ok(MethodId {
        class: Name::from_text(alloc, "G")?,
        name: Name::from_text(alloc, "m0")?,
        desc: Name::from_text(alloc, "(I)I")?,
    })
}

/// The made classes of a number.
fn make_of(alloc: Global, matches: &ArgMatches<'_>) -> Result<(Name, MethodId, Mode), WordsFault>
    ensures found { IfOk result (λ job. HasMode (rows matches.now) job.0 job.1 job.2) }
    ensures outside { result ≡ Err WordsFault.Usage
        → (dir : List ℕ) (entry : MethodId) (number : ℕ) → HasMake (rows matches.now) dir entry number → ⊥ }
{
    if !lacks_others(matches) {
        return Err(WordsFault::Usage);
    }
    let number = number_of(matches, MAKE).ok_or(WordsFault::Usage)?;
    Ok((Name::new(alloc), made(alloc)?, Mode::Make(number)))
}

/// The folder, the entry and what is asked of them.
fn mode_of(alloc: Global, matches: &ArgMatches<'_>) -> Result<(Name, MethodId, Mode), WordsFault>
    ensures found { IfOk result (λ job. HasMode (rows matches.now) job.0 job.1 job.2) }
    ensures outside { result ≡ Err WordsFault.Usage
        → (dir : List ℕ) (entry : MethodId) (mode : Mode) → HasMode (rows matches.now) dir entry mode → ⊥ }
{
    if !lacks_value(matches, "make") {
        return make_of(alloc, matches);
    }
    let (dir, entry) = job_of(alloc, matches)?;
    let mode = form_of(alloc, matches)?;
    Ok((dir, entry, mode))
}

/// The command that the matches are.
fn command_of(alloc: Global, matches: &ArgMatches<'_>) -> Result<Command, WordsFault>
    ensures found { IfOk result (λ command. IsRead (rows matches.now) command) }
    ensures outside { result ≡ Err WordsFault.Usage → (command : Command) → IsRead (rows matches.now) command → ⊥ }
{
    let bounds = bounds_of(matches).ok_or(WordsFault::Usage)?;
    let budget = number_of(matches, BUDGET).ok_or(WordsFault::Usage)?;
    let jobs = number_of(matches, JOBS).ok_or(WordsFault::Usage)?;
    let trace = has_flag(matches, "trace");
    let (dir, entry, mode) = mode_of(alloc, matches)?;
    Ok(Command {
        bounds,
        budget,
        jobs,
        trace,
        dir,
        entry,
        mode,
    })
}

/// The command that the words are, without the program's name.
pub fn read_words(alloc: Global, words: &[String]) -> Result<Command, WordsFault>
    ensures found { IfOk result (λ command. IsCommand (texts words.now) command) }
    ensures outside { result ≡ Err WordsFault.Usage → (command : Command) → IsCommand (texts words.now) command → ⊥ }
{
    let matches = command_line(alloc)?.try_get_matches_from(words)?;
    command_of(alloc, &matches)
}
