// Where text is written: what was taken, and a count of the writes that failed.
ghost use Rattle.std.specs.Prelude.{◌≡◌, ◌≤◌, ◌<◌, ◌^◌, ℕ, List, Option};
ghost use Rattle.io_edges.specs.Faults.{Rose};
ghost use Rattle.io_edges.specs.Sink.{Adds};

/// What a write answers.
#[derive(Clone, Copy, Debug, PartialEq, Eq)]
pub enum Put {
    Done,
    /// The piece was not taken, or only its front.
    Failed,
}

pub trait Sink {
    /// What was written so far, where it is told.
    ghost written: { Self → Option (List ℕ) };

    /// How many writes failed. At the last value of a `u64` it stays.
    ghost count: { Self → ℕ };

    /// Writes a piece at the end.
    fn put(&mut self, bytes: &[u8]) -> Put
        ensures written { Adds (written self.old) bytes.now result (written self.new) }
        ensures later { count self.old ≤ count self.new }
        ensures failed { result ≡ Put.Failed → Rose (count self.old) (count self.new) }
        ensures others { result ≡ Put.Done → count self.new ≡ count self.old };

    /// Each count is a `u64`.
    ghost count_fits: { (sink : Self) → count sink < 2 ^ 64 };
}
