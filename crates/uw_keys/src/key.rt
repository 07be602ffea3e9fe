// The key of a frame.
ghost use Rattle.std.specs.Prelude.{◌≡◌, ℕ, IfOk};

use crate::intervals::Intervals;
use jv_list::{List, Mem};
use std::alloc::Global;

/// Where a frame is in the unwinding of its method: its pc, and for each interval, in their order, how often the frame went
/// back to its target since it came into it.
#[derive(Debug, Drop)]
pub struct Key {
    pub pc: u16,
    pub counters: List<u8>,
}

impl Key {
    ghost use Rattle.uw_keys.specs.Keys.{IsKeyOf, AreWithin, start_of};

    /// The key of a frame at its start: pc 0, each counter 0.
    pub fn start(alloc: Global, intervals: &Intervals) -> Mem<Key>
        ensures value { IfOk result (λ key. key ≡ start_of intervals.now) }
        ensures of { IfOk result (IsKeyOf intervals.now) }
        ensures within { IfOk result (λ key. (limit : ℕ → ℕ) → AreWithin limit intervals.now key.counters) }
    {
        let mut counters = Vec::new(alloc);
        counters.resize(intervals.as_slice().len(), 0)?;
        Ok(Key {
            pc: 0,
            counters: List::from_vec(counters),
        })
    }
}
