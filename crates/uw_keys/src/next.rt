// What a transfer makes of a key.
ghost use Rattle.std.specs.Prelude.{◌≡◌, ◌≤◌, IfOk, IfSome, IfNone, Some};
ghost use Rattle.std.specs.declared.cmp.Ordering.TheVariants.{Less};
ghost use Rattle.uw_keys.specs.Intervals.{Cover};
ghost use Rattle.uw_keys.specs.Keys.{IsKeyOf, AreWithin, counter_after};
ghost use Rattle.uw_keys.specs.Next.{IsNext, IfKey};
ghost use Rattle.uw_keys.specs.Order.{key_order};

use crate::interval::Interval;
use crate::intervals::Intervals;
use crate::key::Key;
use jv_list::{List, Mem};
use std::alloc::Global;

/// What a transfer leads to: a key, or out of the bounds.
#[derive(Debug, Drop)]
pub enum Next {
    Key(Key),
    Left,
}

/// What a transfer between two pcs makes of the key at the first of them, where a frame may go back to each target `unwind`
/// times. The transfer is one of those that the intervals were made of.
pub fn advance(
    alloc: Global,
    intervals: &Intervals,
    key: &Key,
    from: u16,
    to: u16,
    unwind: u8,
) -> Mem<Next>
    requires key { IsKeyOf intervals.now key.now }
    requires from { key.now.pc ≡ from }
    requires within { AreWithin (λ _. unwind) intervals.now key.now.counters }
    requires transfer { Cover intervals.now from to }
    ensures next { IfOk result (IsNext (λ _. unwind) intervals.now key.now to) }
    ensures of { IfOk result (λ next. IfKey next (IsKeyOf intervals.now)) }
    ensures rises { IfOk result (λ next. IfKey next (λ new. key_order (λ _. unwind) intervals.now key.now new ≡ Less)) }
{
    let mut counters = List::new(alloc);
    let held = key.counters.as_slice();
    for (place, interval) in intervals.as_slice().iter().enumerate() {
        match moved(interval, held[place], from, to, unwind) {
            Some(count) => counters.add(count)?,
            None => return Ok(Next::Left),
        }
    }
    Ok(Next::Key(Key { pc: to, counters }))
}

/// What a transfer makes of the counter of an interval, unless that is above the limit.
fn moved(interval: &Interval, counter: u8, from: u16, to: u16, limit: u8) -> Option<u8>
    requires { counter ≤ limit }
    ensures found { IfSome result (λ count. (count ≡ counter_after from to interval.now counter) × (count ≤ limit)) }
    ensures none { IfNone result (counter_after from to interval.now counter ≤ limit → ⊥) }
{
    if !interval.contains(to) {
        Some(0)
    } else if interval.target != to || from < to {
        Some(counter)
    } else if counter < limit {
        Some(counter + 1)
    } else {
        None
    }
}
