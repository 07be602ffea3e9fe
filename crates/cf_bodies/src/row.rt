// The rows of an exception table, against the code that they are of (JVM Specification SE 8, 4.7.3).
ghost use Rattle.std.specs.Prelude.{◌≡◌, ◌↔◌, ◌+◌, ◌^◌, ◌<◌, List as list_of, IsTrue, IfOk, Contains, length};
ghost use Rattle.std.specs.List.{flat_map};
ghost use Rattle.std.specs.List.Sorted.{IsSorted};
ghost use Rattle.std.specs.Ordering.{nat_cmp};
ghost use Rattle.cf_code.specs.Decoding.{IsLaid, pcs, IsCode};
ghost use Rattle.cf_pool.specs.declared.entry.PoolEntry.{PoolEntry};
ghost use Rattle.cf_structure.specs.Spelled.{row_text};
ghost use Rattle.cf_bodies.specs.Rows.{IsRowOf};
ghost use Rattle.cf_bodies.specs.Checks.{rows_checks};
ghost use Rattle.cf_bodies.specs.Calls.Tells.{Tells};

use crate::fault::fault_at;
use cf_code::{Placed, one_code};
use cf_pool::What;
use cf_structure::{ClassFault, Row};
use jv_base::Mem;
use std::alloc::Global;

/// The bytes of a row.
const ROW_SIZE: u64 = 8;

/// The pcs of instructions, which rise where these stand one behind the other.
fn pcs_of(alloc: Global, code: &[Placed]) -> Mem<Vec<u16>>
    requires { IsLaid 0 code.now }
    ensures value { IfOk result (λ found. found.items ≡ pcs code.now) }
    ensures sorted { IfOk result (λ found. IsSorted nat_cmp found.items) }
{
    let mut found = Vec::with_capacity(alloc, code.len())?;
    for placed in code {
        found.push(placed.pc)?;
    }
    Ok(found)
}

fn is_start(starts: &[u16], pc: u16) -> bool
    requires { IsSorted nat_cmp starts.now }
    ensures { IsTrue result ↔ Contains starts.now pc }
{
    starts.binary_search(&pc).is_ok()
}

/// Whether a row is one of the code that has instructions at these pcs, and so many bytes.
fn is_row_of(starts: &[u16], size: usize, row: &Row) -> bool
    requires { IsSorted nat_cmp starts.now }
    ensures { IsTrue result ↔ IsRowOf starts.now size row.now }
{
    row.start < row.end
        && is_start(starts, row.start)
        && is_start(starts, row.handler)
        && (is_start(starts, row.end) || usize::from(row.end) == size)
}

/// The rows of the code that has these bytes.
pub(crate) fn judge_rows(
    alloc: Global,
    code: &[Placed],
    bytes: &[u8],
    start: u64,
    rows: &[Row],
) -> Result<(), ClassFault>
    requires short { length bytes.now < 2 ^ 16 }
    requires code { IsCode bytes.now code.now }
    requires fits { start + length (flat_map row_text rows.now) < 2 ^ 64 }
    ensures { (pool : list_of PoolEntry) → Tells pool (rows_checks bytes.now start rows.now) (λ _. Unit {0}) result }
{
    one_code();
    let starts = pcs_of(alloc, code)?;
    let mut place = start;
    for row in rows {
        if !is_row_of(starts.as_slice(), bytes.len(), row) {
            return Err(fault_at(place, 0, What::BadTarget));
        }
        place += ROW_SIZE;
    }
    Ok(())
}
