// What the words ask for.
use jv_base::{Bounds, Goal, MethodId, Name};

/// A job, as the words give it.
#[derive(Debug, Drop)]
pub struct Command {
    pub bounds: Bounds,
    /// The learned clauses for each assertion; 0 is no bound.
    pub budget: u32,
    /// The workers.
    pub jobs: u32,
    /// Whether the steps of each violating run are printed.
    pub trace: bool,
    /// The folder of the class files; empty with `Mode::Make`.
    pub dir: Name,
    /// The method where runs begin.
    pub entry: MethodId,
    pub mode: Mode,
}

/// What is done with the entry.
#[derive(Debug, Drop)]
pub enum Mode {
    /// Each assertion is decided.
    Plain,
    /// What is loaded is listed.
    List,
    /// The run of the input in this file is followed to this assertion.
    Replay(Name, Goal),
    /// Each assertion of the made classes of this number is decided.
    Make(u32),
}
