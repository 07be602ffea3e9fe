// The pcs of a loop, as an interval.
ghost use Rattle.std.specs.Prelude.{◌≡◌};

/// The pcs from the target of a backward transfer on, up to an end, both of them among these pcs.
#[derive(Clone, Copy, Debug, PartialEq, Eq)]
pub struct Interval {
    pub target: u16,
    pub end: u16,
}

impl Interval {
    ghost use Rattle.uw_keys.specs.Intervals.{holds};

    /// Whether a pc is in it.
    pub fn contains(&self, pc: u16) -> bool
        ensures { result ≡ holds self.now pc }
    {
        self.target <= pc && pc <= self.end
    }
}
