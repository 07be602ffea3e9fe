// The intervals of backward transfers, found from the last target to the first.
ghost use Rattle.std.specs.Prelude.{◌≡◌, ◌↔◌, IfOk, OnOk, IsTrue, map, reverse};
ghost use Rattle.std.specs.List.{filter};
ghost use Rattle.std.specs.List.Sorted.{IsSorted};
ghost use Rattle.uw_keys.specs.Calls.Backward.{goes_back, turned, pair_order, BeginsAt, Reaches, Takes, Found};

use crate::interval::Interval;
use jv_list::{List, Mem};
use std::alloc::Global;

/// The transfers that go back, each as its target and its source.
pub fn backward_pairs(alloc: Global, transfers: &[(u16, u16)]) -> Mem<Vec<(u16, u16)>>
    ensures { IfOk result (λ pairs. pairs.items ≡ map turned (filter goes_back transfers.now)) }
{
    transfers
        .iter()
        .filter(|(source, target)| target <= source)
        .map(|(source, target)| (*target, *source))
        .collect(alloc)
}

/// The intervals of targets with a source each, where the pairs ascend.
pub fn nested(alloc: Global, mut pairs: Vec<(u16, u16)>) -> Mem<List<Interval>>
    requires { IsSorted pair_order pairs.items }
    ensures { IfOk result (Found pairs.items) }
{
    let mut found = List::new(alloc);
    let mut outer = List::new(alloc);
    while let Some((target, source)) = pairs.pop() {
        take_in(&mut found, &mut outer, target, source)?;
    }
    found.reverse();
    Ok(found)
}

/// Puts the interval of a target and a source of it at the end of those found, unless the last has this target. The outer
/// intervals are those found that are in no other.
fn take_in(
    found: &mut List<Interval>,
    outer: &mut List<Interval>,
    target: u16,
    source: u16,
) -> Mem<()>
    ensures { OnOk result (Takes (reverse found.old) (reverse outer.old) target source (reverse found.new) (reverse outer.new)) }
{
    if is_last(found, target) {
        return Ok(());
    }
    let end = reach(outer, source);
    let interval = Interval { target, end };
    outer.add(interval)?;
    found.add(interval)
}

/// Whether the last interval has a target.
fn is_last(found: &List<Interval>, target: u16) -> bool
    ensures { IsTrue result ↔ BeginsAt (reverse found.now) target }
{
    match found.last() {
        Some(last) => last.target == target,
        None => false,
    }
}

/// Takes out the intervals from the last on that are met before an end, which moves to theirs, and gives the end.
fn reach(outer: &mut List<Interval>, source: u16) -> u16
    ensures { Reaches (reverse outer.old) source result (reverse outer.new) }
{
    let mut end = source;
    while let Some(last) = outer.last().copied() {
        if last.target > end {
            return end;
        }
        end = end.max(last.end);
        outer.pop();
    }
    end
}
