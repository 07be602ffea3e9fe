// What a run answers: what was asked for and what the folder said, and the refusals or the verdicts that follow.
use cf_pool::What;
use cl_words::Command;
use hi_tree::World;
use jv_base::{Goal, Input, List, MethodId, Name};

/// The exit status of a run.
#[derive(Clone, Copy, Debug, PartialEq, Eq)]
pub struct Status(pub u8);

/// Why there are no verdicts.
#[derive(Debug, Drop)]
pub enum Refusal {
    /// Runs cannot begin at the entry: its class is built in, or has no such method with code, or the method wants an
    /// object of a class that has none.
    NoEntry(MethodId),
    /// There is no file of the class.
    Missing(Name),
    /// The file is none of a class of this name: the place in bytes, and what is wrong there.
    Malformed(Name, u64, What),
    /// No other refusal applies, and what is asked is not built yet.
    Narrow,
}

/// What is known of an assertion: that no input violates it, or an input that does.
#[derive(Debug, Drop)]
pub enum Verdict {
    Success,
    Failure(Input),
}

#[derive(Debug, Drop)]
pub struct Line {
    pub goal: Goal,
    pub verdict: Verdict,
}

/// What was asked for, and what the folder answered.
#[derive(Debug, Drop)]
pub struct Load {
    pub command: Command,
    pub world: World,
}

/// What a run answers, before it is written.
#[derive(Debug, Drop)]
pub enum Answer {
    /// The words are no command.
    Usage,
    /// The folder failed.
    ReadFault,
    /// Memory ran out.
    NoMemory,
    /// These refusals apply, at least one.
    Refused(Load, List<Refusal>),
    /// No refusal applies, and each site has its verdict.
    Decided(Load, List<Line>),
}

/// What a run gives back: its exit status, its answer, and the folder. The status is that of the answer, or 4 where the
/// text was not written whole.
#[derive(Debug, Drop)]
pub struct Ran<F> {
    pub status: Status,
    pub answer: Answer,
    pub folder: F,
}
