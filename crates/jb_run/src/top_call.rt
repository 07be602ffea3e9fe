// The top call: from the words and the folder to the text in the sink.
ghost use Rattle.std.specs.Prelude.{◌≡◌, ◌≢◌, ◌≤◌, ◌<◌, ◌+◌, ◌^◌, ◌↔◌, ℕ, Bool, [], ◌∷◌, codes, length, string_bytes, IfOk, IsTrue, IsFalse, ◌⊎◌, None, Some};
ghost use Rattle.std.specs.List.{flat_map};
ghost use Rattle.cf_pool.specs.Spelling.{entry_text};
ghost use Rattle.cf_class.specs.declared.class_file.ClassFile.{ClassFile as class_file};
ghost use Rattle.cf_class.specs.Content.{IsClass};
ghost use Rattle.cf_thin.specs.Thin.{int_descriptor};
ghost use Rattle.cl_words.specs.Command.{texts, IsCommand};
ghost use Rattle.io_edges.specs.Faults.{Rose};
ghost use Rattle.jb_run.specs.Path as path;
ghost use Rattle.jb_run.specs.Answers as answers;
ghost use Rattle.jb_run.specs.Refusals as refusals;
ghost use Rattle.jb_run.specs.Cause as cause;
ghost use Rattle.jb_run.specs.Calls.Decisions as decisions;
ghost use Rattle.jb_run.specs.declared.report.Answer.TheVariants as variants;

use crate::judging::{judge, unasked};
use crate::report::{Answer, Line, Load, Ran, Refusal, Status};
use crate::text::{NO_MEMORY, output, status_of};
use cl_words::{Command, Mode, WordsFault, read_words};
use hi_tree::{Asked, Was, World};
use io_edges::{Folder, Got, Put, Sink};
use jv_base::{List, Mem, Name};
use lib_rows::find_class;
use std::alloc::{AllocError, Global};

// The path of the file of a class.
fn class_path(alloc: Global, dir: &str, class: &Name) -> Mem<String>
    ensures { IfOk result (λ p. string_bytes p ≡ path.class_path dir.now class.now) }
{
    let mut path = String::from_str(alloc, dir)?;
    path.push_str("/")?;
    path.push_str(class.as_str())?;
    path.push_str(".class")?;
    Ok(path)
}

// Whether the folder is asked for the entry's class.
fn asks(command: &Command) -> bool
    ensures asks { IsTrue result → decisions.AsksClass command.now }
    ensures none { IsFalse result → decisions.AsksNothing command.now }
{
    if let Mode::Make(_) = &command.mode {
        return false;
    }
    find_class(&command.entry.class).is_none()
}

// The world of one answer.
fn world_of(alloc: Global, class: &Name, was: Was) -> Mem<World>
    ensures { IfOk result (λ w. w.entries ≡ record { name = class.now; was = was } ∷ []) }
{
    let name = class.copy(alloc)?;
    let mut entries = List::new(alloc);
    entries.add(Asked { name, was })?;
    Ok(World { entries })
}

// The answer that a command and its world come to.
fn answer_of(alloc: Global, load: Load, decided: Result<List<Line>, Refusal>) -> Mem<Answer>
    requires { decisions.ComesTo load.command load.world decided }
    ensures { IfOk result (λ a. decisions.Answers load.command load.world a) }
{
    match decided {
        Ok(lines) => Ok(Answer::Decided(load, lines)),
        Err(refusal) => {
            let mut refusals = List::new(alloc);
            refusals.add(refusal)?;
            Ok(Answer::Refused(load, refusals))
        }
    }
}

// The answer to the folder's answer for the entry's class.
fn answer_to(alloc: Global, command: Command, was: Was) -> Mem<Answer>
    requires { decisions.AsksClass command }
    ensures { IfOk result (λ a. decisions.Answers command (decisions.world_of command was) a) }
{
    let decided = judge(alloc, &command, &was)?;
    let world = world_of(alloc, &command.entry.class, was)?;
    answer_of(alloc, Load { command, world }, decided)
}

// The answer to a command that asks the folder for nothing.
fn answer_alone(alloc: Global, command: Command) -> Mem<Answer>
    requires { decisions.AsksNothing command }
    ensures { IfOk result (λ a. decisions.Answers command decisions.no_world a) }
{
    let refusal = unasked(alloc, &command)?;
    let world = World {
        entries: List::new(alloc),
    };
    answer_of(alloc, Load { command, world }, Err(refusal))
}

// Asks the folder for the entry's class, where it has to be asked, and works on what it answers.
fn work<F: Folder>(alloc: Global, command: Command, folder: &mut F) -> Mem<Answer>
    ensures outcome { IfOk result (λ a. decisions.IsOutcome (F.files folder.old) command a) }
    ensures read_fault { IfOk result (λ a. a ≡ variants.ReadFault → Rose (F.count folder.old) (F.count folder.new)) }
    ensures later { F.count folder.old ≤ F.count folder.new }
    ensures files { F.files folder.new ≡ F.files folder.old }
    ensures asked { IfOk result (λ a. decisions.AsksBy (F.asked folder.old) command a (F.asked folder.new)) }
    ensures asked_at_most { decisions.AsksClassAtMost (F.asked folder.old) command (F.asked folder.new) }
{
    if !asks(&command) {
        return answer_alone(alloc, command);
    }
    let path = class_path(alloc, command.dir.as_str(), &command.entry.class)?;
    match folder.read(alloc, path.as_str()) {
        Got::Found(bytes) => answer_to(alloc, command, Was::Found(bytes)),
        Got::Absent => answer_to(alloc, command, Was::Absent),
        Got::TooLong => answer_to(alloc, command, Was::TooLong),
        Got::Failed => Ok(Answer::ReadFault),
        Got::NoMemory => Ok(Answer::NoMemory),
    }
}

// The answer to the words, before it is written.
fn answer<F: Folder>(alloc: Global, words: &[String], folder: &mut F) -> Answer
    ensures cause { cause.Cause (F.files folder.old) (texts words.now) result }
    ensures read_fault { result ≡ variants.ReadFault → Rose (F.count folder.old) (F.count folder.new) }
    ensures later { F.count folder.old ≤ F.count folder.new }
    ensures files { F.files folder.new ≡ F.files folder.old }
    ensures asked { cause.Asks (F.asked folder.old) (texts words.now) result (F.asked folder.new) }
    ensures asked_at_most { cause.AsksAtMost (F.asked folder.old) (texts words.now) (F.asked folder.new) }
{
    match read_words(alloc, words) {
        Ok(command) => match work(alloc, command, folder) {
            Ok(answer) => answer,
            Err(AllocError) => Answer::NoMemory,
        },
        Err(WordsFault::Usage) => Answer::Usage,
        Err(WordsFault::NoMemory) => Answer::NoMemory,
    }
}

// Puts the text. The status is the one before, or 4 where the write failed.
fn put_text<S: Sink>(sink: &mut S, text: &str, before: Status) -> Status
    ensures put { cause.PutsText (S.written sink.old) text.now before.0 result.0 (S.written sink.new) }
    ensures write_fault { result.0 ≡ 4 → (before.0 ≡ 4) ⊎ Rose (S.count sink.old) (S.count sink.new) }
    ensures later { S.count sink.old ≤ S.count sink.new }
{
    match sink.put(text.as_bytes()) {
        Put::Done => before,
        Put::Failed => Status(4),
    }
}

/// A run that had no memory for its words: the text of want of memory is put, and the status is 6.
pub fn run_no_words<S: Sink>(sink: &mut S) -> Status
    ensures text { cause.PutsText (S.written sink.old) (answers.answer_text variants.NoMemory) 6 result.0 (S.written sink.new) }
    ensures write_fault { result.0 ≡ 4 → Rose (S.count sink.old) (S.count sink.new) }
    ensures later { S.count sink.old ≤ S.count sink.new }
{
    put_text(sink, NO_MEMORY, Status(6))
}

/// The whole of a run, by one worker: reads the words, asks the folder for the entry's class, decides each site, and
/// puts the text into the sink. The text is made before it is put.
pub fn run_alone<F: Folder, S: Sink>(
    alloc: Global,
    words: &[String],
    folder: F,
    sink: &mut S,
) -> Ran<F>
    // The text of the answer is put, or a front of it; the status is that of the answer, or 4.
    ensures text { cause.PutsText (S.written sink.old) (answers.answer_text result.answer) (answers.status_of result.answer) result.status.0 (S.written sink.new) }
    // Why the answer is what it is.
    ensures cause { cause.Cause (F.files folder) (texts words.now) result.answer }

    // A fault comes only from outside.
    ensures read_fault { result.answer ≡ variants.ReadFault → Rose (F.count folder) (F.count result.folder) }
    ensures write_fault { result.status.0 ≡ 4 → Rose (S.count sink.old) (S.count sink.new) }
    ensures reads_later { F.count folder ≤ F.count result.folder }
    ensures writes_later { S.count sink.old ≤ S.count sink.new }

    // The folder keeps its files, and is asked for the names of the answer's world, in order, each once.
    ensures files { F.files result.folder ≡ F.files folder }
    ensures asked { cause.Asks (F.asked folder) (texts words.now) result.answer (F.asked result.folder) }
{
    let mut folder = folder;
    let answer = answer(alloc, words, &mut folder);
    match output(alloc, &answer) {
        Ok(text) => Ran {
            status: put_text(sink, text.as_str(), status_of(&answer)),
            answer,
            folder,
        },
        Err(AllocError) => Ran {
            status: put_text(sink, NO_MEMORY, Status(6)),
            answer: Answer::NoMemory,
            folder,
        },
    }
}
