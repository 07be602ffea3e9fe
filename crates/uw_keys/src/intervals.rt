// The intervals of the targets of backward transfers.
ghost use Rattle.std.specs.Prelude.{◌≡◌, ℕ, IfOk, Contains};

use crate::backward::{backward_pairs, nested};
use crate::interval::Interval;
use jv_list::{List, Mem};
use std::alloc::Global;
use std::marker::Model;

/// An interval for each target of a backward transfer of a method, in ascending order of the targets.
#[derive(Debug, Drop)]
pub struct Intervals {
    items: List<Interval>,
}

impl Model for Intervals {
    ghost use Rattle.std.specs.Prelude.{List as list_of};
    ghost use Rattle.uw_keys.specs.declared.interval.Interval.{Interval};
    ghost use Rattle.uw_keys.specs.Intervals.{AreNested};

    ghost Value = { list_of Interval };

    ghost view = { λ is. is.items };

    ghost invariant = { λ is. AreNested is.items };
}

impl Intervals {
    ghost use Rattle.uw_keys.specs.Intervals.{AreIntervals, AreNested, Cover};

    /// The intervals of transfers (source and target, in any order, some perhaps more than once). The time is that of a sort of
    /// those that go back.
    pub fn of(alloc: Global, transfers: &List<(u16, u16)>) -> Mem<Intervals>
        ensures intervals { IfOk result (AreIntervals transfers.now) }
        ensures cover { IfOk result (λ is. (a b : ℕ) → Contains transfers.now (a, b) → Cover is a b) }
    {
        let mut pairs = backward_pairs(alloc, transfers.as_slice())?;
        pairs.sort_unstable();
        Ok(Intervals {
            items: nested(alloc, pairs)?,
        })
    }

    /// The intervals, in ascending order of their targets.
    pub fn as_slice(&self) -> &[Interval]
        ensures value { result.now ≡ self.now }
        ensures nested { AreNested self.now }
    {
        self.items.as_slice()
    }
}
