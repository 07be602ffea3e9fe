// Keys, and their order.
use crate::graphs::{below, cell, drawn, is_row, next_draw, numbers, pairs};
use crate::slow::{slow_ends, slow_phases};
use crate::walks::{Walked, walk};
use jv_list::{List, Mem};
use std::alloc::Global;
use std::cmp::Ordering;
use std::test::Fail;
use uw_keys::{Intervals, Key, compare};

// Two loops, one in the other, as a compiler lays them out: the outer one from 2 to 23, the inner one from 9 to 17.
const NESTED: &str =
    "0 1, 1 2, 2 3, 3 4, 4 7, 4 26, 7 8, 8 9, 9 10, 10 11, 11 14, 11 20, 14 17, 17 9, 20 23, 23 2, 26 27";

// A cycle of 3 and 6 that is entered at both, and left at 6.
const TWO_ENTRIES: &str = "0 3, 0 6, 3 6, 6 3, 6 9";

// A loop from 2 to 10 and one from 8 to 15, which overlap.
const OVERLAPPING: &str = "0 2, 2 8, 8 10, 10 2, 10 15, 15 8, 15 16";

// A loop of one pc.
const ALONE: &str = "0 5, 5 5, 5 6";

// The transfers; the pcs that a frame comes to after 0; how often it may go back to a target; how many transfers are made, the pc
// and the counters then, and whether it went on to the last or left.
const WALKED: &str = "
    nested | | 0 | 0 | 0 | 0 0 | on
    // the inner loop three times
    nested | 1 2 3 4 7 8 9 10 11 14 17 9 10 11 14 17 9 10 11 14 17 9 | 2 | 21 | 17 | 0 2 | left
    nested | 1 2 3 4 7 8 9 10 11 14 17 9 10 11 14 17 9 10 11 14 17 9 | 3 | 22 | 9 | 0 3 | on
    // behind it its counter is 0 again, and in the outer loop's second round too
    nested | 1 2 3 4 7 8 9 10 11 14 17 9 10 11 20 | 3 | 15 | 20 | 0 0 | on
    nested | 1 2 3 4 7 8 9 10 11 14 17 9 10 11 20 23 2 3 4 7 8 9 | 1 | 22 | 9 | 1 0 | on
    nested | 1 2 3 4 7 8 9 10 11 14 17 9 10 11 20 23 2 3 4 7 8 9 10 11 14 17 9 10 11 20 23 2 | 1 | 31 | 23 | 1 0 | left
    // out of both
    nested | 1 2 3 4 7 8 9 10 11 20 23 2 3 4 26 27 | 1 | 16 | 27 | 0 0 | on
    two entries | 3 6 3 6 3 6 9 | 2 | 7 | 9 | 0 | on
    two entries | 3 6 3 6 3 | 1 | 4 | 6 | 1 | left
    two entries | 6 3 6 3 6 | 2 | 5 | 6 | 2 | on
    // the interval of 2 holds that of 8, so a way back to 8 keeps the counter of 2, and a way back to 2 resets that of 8
    overlapping | 2 8 10 2 8 10 15 8 | 1 | 8 | 8 | 1 1 | on
    overlapping | 2 8 10 15 8 10 2 | 1 | 7 | 2 | 1 0 | on
    overlapping | 2 8 10 15 16 | 0 | 5 | 16 | 0 0 | on
    alone | 5 5 5 5 6 | 3 | 5 | 6 | 0 | on
    alone | 5 5 5 5 6 | 2 | 3 | 5 | 2 | left
    alone | 5 5 | 0 | 1 | 5 | 0 | left
";

fn named(alloc: Global, name: &str) -> Mem<List<(u16, u16)>> {
    match name {
        "nested" => pairs(alloc, NESTED),
        "two entries" => pairs(alloc, TWO_ENTRIES),
        "overlapping" => pairs(alloc, OVERLAPPING),
        _ => pairs(alloc, ALONE),
    }
}

// Where the walk of a row ended, in the form of the row.
fn outcome(alloc: Global, row: &str) -> Mem<String> {
    let transfers = named(alloc, cell(row, 0))?;
    let intervals = Intervals::of(alloc, &transfers)?;
    let ends = slow_ends(alloc, transfers.as_slice(), 30)?;
    let path = numbers(alloc, cell(row, 1))?;
    let limit = cell(row, 2).parse::<u8>().unwrap_or(0);
    let walked = walk(
        alloc,
        &intervals,
        &transfers,
        ends.as_slice(),
        path.as_slice(),
        limit,
    )?;
    told(alloc, &walked)
}

// A walk as the cells of a row.
fn told(alloc: Global, walked: &Walked) -> Mem<String> {
    let mut text = format!(in alloc; "{} | {} |", walked.made, walked.key.pc)?;
    for counter in &walked.key.counters {
        text = format!(in alloc; "{text} {counter}")?;
    }
    format!(in alloc; "{text} | {}", walked.word)
}

#[test]
fn written_walks_have_their_keys(rt: HostRuntime) -> Result<(), Fail> {
    for row in WALKED.lines() {
        if is_row(row) {
            let text = outcome(rt.alloc(), row)?;
            assert!(rt; row.ends_with(text.as_str()), "{row}: {text}");
        }
    }
    Ok(())
}

// Pcs, drawn.
fn drawn_path(alloc: Global, pcs: u16, count: u16, seed: u64) -> Mem<Vec<u16>> {
    let mut path = Vec::new(alloc);
    let mut state = seed;
    for _ in 0..count {
        state = next_draw(state);
        path.push(below(state, pcs))?;
    }
    Ok(path)
}

#[test]
fn a_counter_goes_up_to_the_greatest_limit(rt: HostRuntime) -> Result<(), Fail> {
    let alloc = rt.alloc();
    let transfers = pairs(alloc, "0 0")?;
    let intervals = Intervals::of(alloc, &transfers)?;
    let path = drawn_path(alloc, 1, 300, 0)?;
    let walked = walk(
        alloc,
        &intervals,
        &transfers,
        &[(0, 0)],
        path.as_slice(),
        255,
    )?;
    assert_eq!(rt; told(alloc, &walked)?.as_str(), "255 | 0 | 255 | left");
    Ok(())
}

// Pcs, transfers, the limit.
const DRAWN: &str = "
    3 5 2
    6 14 1
    6 14 3
    12 30 2
    20 60 4
";

// Two walks along drawn transfers: a word for what is wrong, or how they ended, and how many transfers were made.
fn walked_twice(
    alloc: Global,
    pcs: u16,
    count: u16,
    limit: u8,
    seed: u64,
) -> Mem<(&'static str, u16)> {
    let transfers = drawn(alloc, pcs, count, seed)?;
    let intervals = Intervals::of(alloc, &transfers)?;
    let ends = slow_ends(alloc, transfers.as_slice(), pcs)?;
    let first = drawn_path(alloc, pcs, 100, seed.wrapping_add(1000))?;
    let second = drawn_path(alloc, pcs, 60, seed.wrapping_add(2000))?;
    let a = walk(
        alloc,
        &intervals,
        &transfers,
        ends.as_slice(),
        first.as_slice(),
        limit,
    )?;
    let b = walk(
        alloc,
        &intervals,
        &transfers,
        ends.as_slice(),
        second.as_slice(),
        limit,
    )?;
    let there = slow_order(alloc, ends.as_slice(), &a.key, &b.key, limit)?;
    let back = slow_order(alloc, ends.as_slice(), &b.key, &a.key, limit)?;
    if compare(&intervals, &a.key, &b.key) != there || compare(&intervals, &b.key, &a.key) != back {
        return Ok(("other order", a.made));
    }
    Ok((if a.word == "wrong" { b.word } else { a.word }, a.made))
}

// The order of two keys by the slow definition.
fn slow_order(alloc: Global, ends: &[(u16, u16)], a: &Key, b: &Key, limit: u8) -> Mem<Ordering> {
    let here = slow_phases(alloc, ends, a.pc, a.counters.as_slice(), limit)?;
    let there = slow_phases(alloc, ends, b.pc, b.counters.as_slice(), limit)?;
    Ok(here.cmp(&there))
}

// Of sixty graphs of a row: how many walks left, and how many transfers were made; none where something is wrong.
fn sixty(alloc: Global, row: &str) -> Mem<Option<(u16, u16)>> {
    let mut left: u16 = 0;
    let mut made: u16 = 0;
    if let [pcs, count, limit] = numbers(alloc, row)?.as_slice() {
        for seed in 0..60 {
            let limit = u8::try_from(*limit).unwrap_or(0);
            let (word, count) = walked_twice(alloc, *pcs, *count, limit, seed)?;
            match word {
                "left" => left = left.saturating_add(1),
                "on" => {}
                _ => return Ok(None),
            }
            made = made.saturating_add(count);
        }
    }
    Ok(Some((left, made)))
}

#[test]
fn drawn_walks_rise_and_compare_as_the_definition_says(rt: HostRuntime) -> Result<(), Fail> {
    for row in DRAWN.lines() {
        if is_row(row) {
            let (left, made) = sixty(rt.alloc(), row)?.ok_or("wrong")?;
            assert!(rt; left > 0 && made > 100, "{row}: {left} left, {made} made");
        }
    }
    Ok(())
}
