// The order of keys.
ghost use Rattle.std.specs.Prelude.{◌≡◌, ℕ, ◌≤◌};
ghost use Rattle.std.specs.Ordering.{nat_cmp};
ghost use Rattle.uw_keys.specs.Keys.{IsKeyOf, AreWithin};
ghost use Rattle.uw_keys.specs.Order.{key_order, phase};
ghost use Rattle.uw_keys.specs.Calls.Phases.{number_of, IsWithin};

use crate::interval::Interval;
use crate::intervals::Intervals;
use crate::key::Key;
use std::cmp::Ordering;

/// How far a pc is in an interval: before it or in one of its rounds, or behind it.
#[derive(Clone, Copy)]
enum Phase {
    Round(u8),
    Behind,
}

/// The order in which frames are unwound: the first interval in which the keys are at different phases decides, and then the
/// pc. It is the same for all limits that no counter of the two keys is above.
pub fn compare(intervals: &Intervals, a: &Key, b: &Key) -> Ordering
    requires a { IsKeyOf intervals.now a.now }
    requires b { IsKeyOf intervals.now b.now }
    ensures order { (limit : ℕ → ℕ) → AreWithin limit intervals.now a.now.counters → AreWithin limit intervals.now b.now.counters → result ≡ key_order limit intervals.now a.now b.now }
{
    let first = a.counters.as_slice();
    let second = b.counters.as_slice();
    for (place, interval) in intervals.as_slice().iter().enumerate() {
        let order = compare_at(interval, a.pc, first[place], b.pc, second[place]);
        if order != Ordering::Equal {
            return order;
        }
    }
    a.pc.cmp(&b.pc)
}

/// The order of the phases in which two pcs with a counter each are in an interval.
fn compare_at(interval: &Interval, a_pc: u16, a_counter: u8, b_pc: u16, b_counter: u8) -> Ordering
    ensures { (limit : ℕ) → a_counter ≤ limit → b_counter ≤ limit → result ≡ nat_cmp (phase limit interval.now a_pc a_counter) (phase limit interval.now b_pc b_counter) }
{
    compare_phases(
        phase_at(interval, a_pc, a_counter),
        phase_at(interval, b_pc, b_counter),
    )
}

fn phase_at(interval: &Interval, pc: u16, counter: u8) -> Phase
    ensures value { (limit : ℕ) → number_of limit result ≡ phase limit interval.now pc counter }
    ensures within { (limit : ℕ) → counter ≤ limit → IsWithin limit result }
{
    if pc < interval.target {
        Phase::Round(0)
    } else if pc <= interval.end {
        Phase::Round(counter)
    } else {
        Phase::Behind
    }
}

/// What is behind the interval is greater than each round.
fn compare_phases(first: Phase, second: Phase) -> Ordering
    ensures { (limit : ℕ) → IsWithin limit first → IsWithin limit second → result ≡ nat_cmp (number_of limit first) (number_of limit second) }
{
    match (first, second) {
        (Phase::Round(m), Phase::Round(n)) => m.cmp(&n),
        (Phase::Round(_), Phase::Behind) => Ordering::Less,
        (Phase::Behind, Phase::Round(_)) => Ordering::Greater,
        (Phase::Behind, Phase::Behind) => Ordering::Equal,
    }
}
