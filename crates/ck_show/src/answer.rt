// What is told of a file.
ghost use Rattle.std.specs.Prelude.{◌≡◌, IfOk, string_bytes};
ghost use Rattle.ck_show.specs.Answers.{IsAnswer, IsRead, verdict_word, told_text};

use crate::verdict::{Told, Verdict, all_told};
use cf_class::read_class;
use cf_structure::ClassFault;
use io_edges::{Folder, Got};
use jv_base::{List, Mem, entry_text};
use std::alloc::{AllocError, Global};

/// What is told of the methods of a file, or that it is no class.
#[derive(Debug, Drop)]
pub enum Answer {
    Class(List<Told>),
    NoClass,
    NotRead,
}

// The answer of what the folder gave.
fn read_given(alloc: Global, given: &Got) -> Mem<Answer>
    ensures { IfOk result (IsRead given.now) }
{
    match given {
        Got::Found(bytes) => match read_class(alloc, bytes.as_slice()) {
            Ok(class) => {
                let told = all_told(alloc, &class, class.methods.as_slice())?;
                Ok(Answer::Class(told))
            }
            Err(ClassFault::Malformed(_)) => Ok(Answer::NoClass),
            Err(ClassFault::NoMemory) => Err(AllocError),
        },
        Got::Absent | Got::TooLong | Got::Failed => Ok(Answer::NotRead),
        Got::NoMemory => Err(AllocError),
    }
}

/// The answer of the file at a path.
pub fn answer_of<F: Folder>(alloc: Global, folder: &mut F, path: &str) -> Mem<Answer>
    ensures { IfOk result (IsAnswer (F.files folder.old) path.now) }
{
    let given = folder.read(alloc, path);
    read_given(alloc, &given)
}

fn verdict_word(verdict: Verdict) -> &'static str
    ensures { result.now ≡ verdict_word verdict }
{
    match verdict {
        Verdict::NoCode => "no code",
        Verdict::Outside => "outside the profile",
        Verdict::Shapes => "shapes",
        Verdict::NoShapes => "no shapes",
    }
}

/// The line of a method.
pub fn told_text(alloc: Global, told: &Told) -> Mem<String>
    ensures { IfOk result (λ text. string_bytes text ≡ told_text told.now) }
{
    let entry = entry_text(alloc, &told.method)?;
    let mut line = String::from_str(alloc, entry.as_str())?;
    line.push_str(": ")?;
    line.push_str(verdict_word(told.verdict))?;
    line.push('\n')?;
    Ok(line)
}
