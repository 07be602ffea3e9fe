// Transfers, written out or drawn.
use jv_list::{List, Mem};
use std::alloc::Global;

/// The rows of a table: its lines, but for blank ones and those of remarks.
pub(crate) fn is_row(line: &str) -> bool {
    !line.trim().is_empty() && !line.trim().starts_with("//")
}

/// A cell of a row, by its number.
pub(crate) fn cell(row: &str, number: usize) -> &str {
    match row.split('|').nth(number) {
        Some(text) => text.trim(),
        None => "",
    }
}

/// The numbers of a text.
pub(crate) fn numbers(alloc: Global, text: &str) -> Mem<Vec<u16>> {
    let mut numbers = Vec::new(alloc);
    for word in text.split_whitespace() {
        if let Ok(number) = word.parse::<u16>() {
            numbers.push(number)?;
        }
    }
    Ok(numbers)
}

/// Pairs of numbers, with commas between them.
pub(crate) fn pairs(alloc: Global, text: &str) -> Mem<List<(u16, u16)>> {
    let mut pairs = List::new(alloc);
    for part in text.split(',') {
        if let [first, second] = numbers(alloc, part)?.as_slice() {
            pairs.add((*first, *second))?;
        }
    }
    Ok(pairs)
}

/// The next number of a linear congruence.
pub(crate) fn next_draw(state: u64) -> u64 {
    state
        .wrapping_mul(6364136223846793005)
        .wrapping_add(1442695040888963407)
}

/// A number below a bound, of what was drawn.
pub(crate) fn below(state: u64, bound: u16) -> u16 {
    let bound = u64::from(bound.max(1));
    u16::try_from((state >> 33) % bound).unwrap_or(0)
}

/// Transfers between so many pcs, drawn.
pub(crate) fn drawn(alloc: Global, pcs: u16, count: u16, seed: u64) -> Mem<List<(u16, u16)>> {
    let mut pairs = List::new(alloc);
    let mut state = seed;
    for _ in 0..count {
        state = next_draw(state);
        let source = below(state, pcs);
        state = next_draw(state);
        pairs.add((source, below(state, pcs)))?;
    }
    Ok(pairs)
}
