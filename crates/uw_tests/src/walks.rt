// Keys along transfers.
ghost use Rattle.std.specs.Prelude.{◌≡◌, ℕ, IfOk, IsTrue, Contains};
ghost use Rattle.uw_keys.specs.Intervals.{Cover};
ghost use Rattle.uw_keys.specs.Keys.{IsKeyOf};

use crate::slow::{slow_counters, slow_phases};
use jv_list::{List, Mem};
use std::alloc::Global;
use std::cmp::Ordering;
use uw_keys::{Intervals, Key, Next, advance, compare};

/// Where a walk ended: its key, how many transfers were made, and a word for why it ended.
#[derive(Drop)]
pub(crate) struct Walked {
    pub(crate) key: Key,
    pub(crate) made: u16,
    pub(crate) word: &'static str,
}

/// Whether there is a transfer.
fn is_transfer(transfers: &[(u16, u16)], from: u16, to: u16) -> bool
    ensures { IsTrue result → Contains transfers.now (from, to) }
{
    for transfer in transfers {
        if transfer.0 == from && transfer.1 == to {
            return true;
        }
    }
    false
}

/// Whether the key after a transfer has the counters of the definition, and is greater, also by the definition.
fn is_right(
    alloc: Global,
    intervals: &Intervals,
    ends: &[(u16, u16)],
    old: &Key,
    new: &Key,
    limit: u8,
) -> Mem<bool>
    requires old { IsKeyOf intervals.now old.now }
    requires new { IsKeyOf intervals.now new.now }
{
    let counters = slow_counters(alloc, ends, old.counters.as_slice(), old.pc, new.pc)?;
    let before = slow_phases(alloc, ends, old.pc, old.counters.as_slice(), limit)?;
    let after = slow_phases(alloc, ends, new.pc, counters.as_slice(), limit)?;
    Ok(
        counters.as_slice() == new.counters.as_slice()
            && compare(intervals, old, new) == Ordering::Less
            && compare(intervals, new, old) == Ordering::Greater
            && compare(intervals, new, new) == Ordering::Equal
            && before < after,
    )
}

/// From the start along transfers to these pcs, where there are such; it ends where a counter would exceed the limit.
pub(crate) fn walk(
    alloc: Global,
    intervals: &Intervals,
    transfers: &List<(u16, u16)>,
    ends: &[(u16, u16)],
    path: &[u16],
    limit: u8,
) -> Mem<Walked>
    requires cover { (a b : ℕ) → Contains transfers.now (a, b) → Cover intervals.now a b }
    ensures { IfOk result (λ walked. IsKeyOf intervals.now walked.key) }
{
    let mut key = Key::start(alloc, intervals)?;
    let mut made: u16 = 0;
    for to in path {
        let from = key.pc;
        if is_transfer(transfers.as_slice(), from, *to) {
            match advance(alloc, intervals, &key, from, *to, limit)? {
                Next::Left => {
                    let word = "left";
                    return Ok(Walked { key, made, word });
                }
                Next::Key(next) => {
                    if !is_right(alloc, intervals, ends, &key, &next, limit)? {
                        let word = "wrong";
                        return Ok(Walked { key, made, word });
                    }
                    key = next;
                    made = made.saturating_add(1);
                }
            }
        }
    }
    let word = "on";
    Ok(Walked { key, made, word })
}
