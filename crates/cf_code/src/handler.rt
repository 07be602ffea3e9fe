// The pairs with the handlers of an exception table.
ghost use Rattle.std.specs.Prelude.{◌≡◌, ◌≤◌, ◌<◌, ◌⊎◌, ℕ, length, Some, OnOk, Contains};
ghost use Rattle.std.specs.List.Sorted.{IsSorted};
ghost use Rattle.std.specs.Ordering.{nat_cmp};
ghost use Rattle.cf_code.specs.Steps.Ways.{Adds, IsInRange, IsHandled, IsHeldToo, IsCountBelow};

use crate::transfer::Row;
use jv_base::Mem;
use std::alloc::Global;

/// Puts the pair of each pc with the handler of each row that holds it at the end. The rows of one handler are gone over in
/// the order of their starts, and what one of them holds is left out of the next, so no pair is put twice.
pub(crate) fn put_handlers(
    alloc: Global,
    out: &mut Vec<(u16, u16)>,
    starts: &[u16],
    rows: &[Row],
) -> Mem<()>
    requires { IsSorted nat_cmp starts.now }
    ensures { OnOk result (Adds out.old.items out.new.items (IsHandled starts.now rows.now)) }
{
    let mut sorted = Vec::new(alloc);
    sorted.extend_from_slice(rows)?;
    sorted.sort_unstable_by_key(|row| (row.handler, row.start));
    let mut last = None;
    for row in sorted.as_slice() {
        put_range(out, starts, unheld(last, *row), row.end, row.handler)?;
        last = Some(furthest(last, *row));
    }
    Ok(())
}

/// The first pc from the start of a row on that the row before it does not hold too, with the same handler.
fn unheld(last: Option<Row>, row: Row) -> u16
    ensures from { row.start ≤ result }
    ensures held { (pc : ℕ) → row.start ≤ pc → pc < result → IsHeldToo last row pc }
{
    match last {
        Some(other)
            if other.handler == row.handler && other.start <= row.start && row.start < other.end =>
            other.end,
        _ => row.start,
    }
}

/// The row that reaches further, of two with one handler; else the second.
fn furthest(last: Option<Row>, row: Row) -> Row
    ensures { (last ≡ Some result) ⊎ (result ≡ row) }
{
    match last {
        Some(other) if other.handler == row.handler && row.end < other.end => other,
        _ => row,
    }
}

/// Puts the pair of each pc from one on, and below another, with a handler at the end.
fn put_range(
    out: &mut Vec<(u16, u16)>,
    starts: &[u16],
    from: u16,
    end: u16,
    handler: u16,
) -> Mem<()>
    requires { IsSorted nat_cmp starts.now }
    ensures { OnOk result (Adds out.old.items out.new.items (IsInRange starts.now from end handler)) }
{
    let (below, _) = starts.split_at(count_below(starts, end));
    let first = count_below(starts, from).min(below.len());
    let (_, range) = below.split_at(first);
    for start in range {
        out.push((*start, handler))?;
    }
    Ok(())
}

/// How many pcs are below another. They are sorted.
fn count_below(starts: &[u16], pc: u16) -> usize
    requires { IsSorted nat_cmp starts.now }
    ensures count { IsCountBelow starts.now pc result }
    ensures within { result ≤ length starts.now }
{
    starts.partition_point(|start| *start < pc)
}
