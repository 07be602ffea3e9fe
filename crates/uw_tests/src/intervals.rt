// The intervals of transfers.
use crate::graphs::{cell, drawn, is_row, numbers, pairs};
use crate::slow::slow_ends;
use jv_list::{List, Mem};
use std::alloc::Global;
use std::test::Fail;
use uw_keys::{Intervals, order_laws, transfer_laws};

// Each interval as its target and its end.
fn ends_of(alloc: Global, intervals: &Intervals) -> Mem<Vec<(u16, u16)>> {
    let mut ends = Vec::new(alloc);
    for interval in intervals.as_slice() {
        ends.push((interval.target, interval.end))?;
    }
    Ok(ends)
}

// Transfers, and their intervals: each a target and an end.
const WRITTEN: &str = "
    |
    0 1, 1 2, 2 5, 5 9 |
    // two loops, one in the other, as a compiler lays them out
    0 1, 1 2, 2 3, 3 4, 4 7, 4 26, 7 8, 8 9, 9 10, 10 11, 11 14, 11 20, 14 17, 17 9, 20 23, 23 2, 26 27 | 2 23, 9 17
    // a loop of one pc, at the least pc and at the greatest
    5 5 | 5 5
    0 0, 65535 65535 | 0 0, 65535 65535
    // from the greatest to the least
    65535 0 | 0 65535
    // one target, many sources, in any order and more than once
    7 3, 9 3, 4 3, 9 3, 7 3 | 3 9
    // one source, many targets
    9 3, 9 5, 9 1 | 1 9, 3 9, 5 9
    // loops that overlap: the first takes in the end of the second
    10 2, 15 8 | 2 15, 8 15
    // and of the third, which only the second meets
    10 2, 15 8, 20 12 | 2 20, 8 20, 12 20
    // a target at an end is in the interval, one behind it is not
    10 2, 15 10 | 2 15, 10 15
    10 2, 15 11 | 2 10, 11 15
    // a loop in a loop that the outer one does not widen
    20 2, 9 5 | 2 20, 5 9
    // two entries to one cycle: pcs 3 and 6 are met from 0, and lead to each other
    0 3, 0 6, 3 6, 6 3, 6 9 | 3 6
    // three loops of which each begins in the one before and ends behind it, sources first
    30 20, 21 10, 11 1 | 1 30, 10 30, 20 30
";

#[test]
fn written_transfers_have_their_intervals(rt: HostRuntime) -> Result<(), Fail> {
    let alloc = rt.alloc();
    for row in WRITTEN.lines() {
        if is_row(row) {
            let transfers = pairs(alloc, cell(row, 0))?;
            let wanted = pairs(alloc, cell(row, 1))?;
            let found = ends_of(alloc, &Intervals::of(alloc, &transfers)?)?;
            assert_eq!(rt; found.as_slice(), wanted.as_slice(), "{row}");
        }
    }
    Ok(())
}

// Pcs, transfers, and how many graphs of them are drawn.
const DRAWN: &str = "
    3 4 200
    6 6 400
    12 12 400
    40 20 200
    40 80 40
";

// Whether drawn transfers have the intervals of the slow definition.
fn agrees(alloc: Global, pcs: u16, count: u16, seed: u16) -> Mem<bool> {
    let transfers = drawn(alloc, pcs, count, u64::from(seed))?;
    let wanted = slow_ends(alloc, transfers.as_slice(), pcs)?;
    let found = ends_of(alloc, &Intervals::of(alloc, &transfers)?)?;
    Ok(found.as_slice() == wanted.as_slice())
}

// The first graph of a row whose intervals are others.
fn first_other(alloc: Global, row: &str) -> Mem<Option<u16>> {
    if let [pcs, count, graphs] = numbers(alloc, row)?.as_slice() {
        for seed in 0..*graphs {
            if !agrees(alloc, *pcs, *count, seed)? {
                return Ok(Some(seed));
            }
        }
    }
    Ok(None)
}

#[test]
fn drawn_transfers_have_the_intervals_of_the_definition(rt: HostRuntime) -> Result<(), Fail> {
    order_laws();
    transfer_laws();
    for row in DRAWN.lines() {
        assert_eq!(rt; first_other(rt.alloc(), row)?, None, "{row}");
    }
    Ok(())
}

// Transfers that go back, at each pc: to the pc itself, to the one before, or all the way to where the pcs are mirrored.
fn large(alloc: Global, kind: &str) -> Mem<List<(u16, u16)>> {
    let mut transfers = List::new(alloc);
    for pc in 0..=u16::MAX {
        let target = match kind {
            "itself" => pc,
            "the one before" => pc.saturating_sub(1),
            _ => pc.min(u16::MAX - pc),
        };
        transfers.add((pc, target))?;
    }
    Ok(transfers)
}

// Where each pc goes back to; how many intervals there are, the first and the last.
const LARGE: &str = "
    itself | 65536 | 0 0 | 65535 65535
    the one before | 65535 | 0 65535 | 65534 65535
    the mirrored one | 32768 | 0 65535 | 32767 32768
";

// How many pairs there are, the first and the last.
fn outline(alloc: Global, pairs: &[(u16, u16)]) -> Mem<String> {
    let (first, first_end) = pairs.first().copied().unwrap_or((0, 0));
    let (last, last_end) = pairs.last().copied().unwrap_or((0, 0));
    format!(in alloc; "{} | {first} {first_end} | {last} {last_end}", pairs.len())
}

#[test]
fn a_backward_transfer_at_each_pc_is_taken_in(rt: HostRuntime) -> Result<(), Fail> {
    let alloc = rt.alloc();
    for row in LARGE.lines() {
        if let Some((kind, wanted)) = row.split_once('|') {
            let transfers = large(alloc, kind.trim())?;
            let found = ends_of(alloc, &Intervals::of(alloc, &transfers)?)?;
            assert_eq!(rt;
                outline(alloc, found.as_slice())?.as_str(),
                wanted.trim(),
                "{row}"
            );
        }
    }
    Ok(())
}
