// Slow definitions: the ends of targets as the least fixed point of their conditions, counters and phases target by target.
use jv_list::Mem;
use std::alloc::Global;

/// The farthest source of a backward transfer to a pc.
fn farthest(transfers: &[(u16, u16)], pc: u16) -> Option<u16> {
    let mut farthest = None;
    for (source, target) in transfers {
        if *target == pc && pc <= *source {
            farthest = Some((*source).max(farthest.unwrap_or(0)));
        }
    }
    farthest
}

/// The end of an interval, at least as far as those of the targets in it.
fn widened(ends: &[(u16, u16)], target: u16, end: u16) -> u16 {
    let mut wide = end;
    for (inner, last) in ends {
        if target <= *inner && *inner <= end {
            wide = wide.max(*last);
        }
    }
    wide
}

/// Each target of pcs below a bound with its end, ascending.
pub(crate) fn slow_ends(alloc: Global, transfers: &[(u16, u16)], pcs: u16) -> Mem<Vec<(u16, u16)>> {
    let mut ends = Vec::new(alloc);
    for pc in 0..pcs {
        if let Some(source) = farthest(transfers, pc) {
            ends.push((pc, source))?;
        }
    }
    // each round but the last moves an end to another source
    for _ in 0..transfers.len().saturating_mul(usize::from(pcs)) {
        let mut wider = Vec::new(alloc);
        for (target, end) in &ends {
            wider.push((*target, widened(ends.as_slice(), *target, *end)))?;
        }
        if wider.as_slice() == ends.as_slice() {
            return Ok(ends);
        }
        ends = wider;
    }
    Ok(ends)
}

/// The counters after a transfer.
pub(crate) fn slow_counters(
    alloc: Global,
    ends: &[(u16, u16)],
    counters: &[u8],
    from: u16,
    to: u16,
) -> Mem<Vec<u8>> {
    let mut after = Vec::new(alloc);
    for ((target, end), counter) in ends.iter().zip(counters) {
        let mut count = *counter;
        if *target == to && to <= from {
            count = count.saturating_add(1);
        }
        if to < *target || *end < to {
            count = 0;
        }
        after.push(count)?;
    }
    Ok(after)
}

/// The phases of a pc with its counters for a limit, and then the pc.
pub(crate) fn slow_phases(
    alloc: Global,
    ends: &[(u16, u16)],
    pc: u16,
    counters: &[u8],
    limit: u8,
) -> Mem<Vec<u16>> {
    let mut phases = Vec::new(alloc);
    for ((target, end), counter) in ends.iter().zip(counters) {
        phases.push(if pc < *target {
            0
        } else if *end < pc {
            u16::from(limit) + 1
        } else {
            u16::from(*counter)
        })?;
    }
    phases.push(pc)?;
    Ok(phases)
}
