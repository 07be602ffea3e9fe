// The log of a solver.
ghost use Rattle.std.specs.Prelude.{◌≡◌};

use cn_clauses::{Clause, Lit};
use jv_list::List;

/// A clause that was added, or one that was learned.
#[derive(Debug, Drop)]
pub enum LogEntry {
    Added(Clause),
    Learned(Clause),
}

/// The clauses that were added and learned, in order.
#[derive(Debug, Drop)]
pub struct Log {
    pub entries: List<LogEntry>,
}

impl LogEntry {
    ghost use Rattle.sa_core.specs.SpentLog.{entry_lits, is_learned};

    /// The literals of the entry's clause.
    pub fn lits(&self) -> &[Lit]
        ensures { result.now ≡ entry_lits self.now }
    {
        match self {
            LogEntry::Added(clause) => clause.lits.as_slice(),
            LogEntry::Learned(clause) => clause.lits.as_slice(),
        }
    }

    /// Whether the clause was learned.
    pub fn is_learned(&self) -> bool
        ensures { result ≡ is_learned self.now }
    {
        match self {
            LogEntry::Added(_) => false,
            LogEntry::Learned(_) => true,
        }
    }
}
