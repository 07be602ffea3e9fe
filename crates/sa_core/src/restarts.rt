// When a search takes all decisions back: after as many conflicts as a term of Luby's series says, times a hundred.
ghost use Rattle.std.specs.Prelude.{◌≡◌, ◌+◌, ◌<◌, IsTrue};

// How many conflicts a term of the series stands for.
const UNIT: u64 = 100;

/// A term of the series 1, 1, 2, 1, 1, 2, 4, .., by Knuth's reluctant doubling, the conflicts since the last restart, and how many
/// restarts are left. More than anyone will see, these are not without end, so that a search ends.
#[derive(Clone, Copy, Debug)]
pub struct Restarts {
    pub left: u64,
    turn: u64,
    term: u64,
    conflicts: u64,
}

impl Restarts {
    /// The first term, and no conflict.
    pub fn new() -> Restarts {
        Restarts {
            left: 1 << 40,
            turn: 1,
            term: 1,
            conflicts: 0,
        }
    }

    /// One more conflict.
    pub fn count(&mut self)
        ensures { self.new.left ≡ self.old.left }
    {
        self.conflicts = self.conflicts.saturating_add(1);
    }

    pub fn are_due(&self) -> bool
        ensures { IsTrue result → 0 < self.now.left }
    {
        self.left > 0 && self.conflicts / UNIT >= self.term
    }

    /// Goes on to the next term.
    pub fn advance(&mut self)
        requires { 0 < self.old.left }
        ensures { self.new.left + 1 ≡ self.old.left }
    {
        self.left -= 1;
        self.conflicts = 0;
        if self.turn & self.term == 0 {
            self.term = self.term.saturating_mul(2);
        } else {
            self.turn = self.turn.saturating_add(1);
            self.term = 1;
        }
    }
}
