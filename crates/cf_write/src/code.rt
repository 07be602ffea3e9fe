// The content of a Code attribute (JVM Specification SE 8, 4.7.3).
ghost use Rattle.std.specs.Prelude.{◌≡◌, ◌++◌, IfOk, OnOk};
ghost use Rattle.std.specs.List.{flat_map};
ghost use Rattle.cf_structure.specs.Spelled.{counted_text};
ghost use Rattle.cf_code.specs.Code.{AllFit};
ghost use Rattle.cf_write.specs.Calls.Texts.{row_text, skipped_text, code_front, code_text};

use crate::number::{put_count, put_sized, put_two};
use cf_class::{Code, Skipped};
use cf_code::{Row, encode};
use jv_base::{List, Mem};
use std::alloc::Global;

/// Puts a row of an exception table at the end.
fn put_row(out: &mut List<u8>, row: Row) -> Mem<()>
    ensures { OnOk result (out.new ≡ out.old ++ row_text row) }
{
    put_two(out, row.start)?;
    put_two(out, row.end)?;
    put_two(out, row.handler)?;
    put_two(out, row.catch_type)
}

fn put_row_list(out: &mut List<u8>, rows: &[Row]) -> Mem<()>
    ensures { OnOk result (out.new ≡ out.old ++ flat_map row_text rows.now) }
{
    for row in rows {
        put_row(out, *row)?;
    }
    Ok(())
}

/// Puts an exception table at the end, behind how many rows it has.
fn put_rows(out: &mut List<u8>, rows: &[Row]) -> Mem<()>
    ensures { OnOk result (out.new ≡ out.old ++ counted_text row_text rows.now) }
{
    put_count(out, rows.len())?;
    put_row_list(out, rows)
}

/// Puts an attribute of a Code at the end.
fn put_skipped(out: &mut List<u8>, attribute: &Skipped) -> Mem<()>
    ensures { OnOk result (out.new ≡ out.old ++ skipped_text attribute.now) }
{
    put_two(out, attribute.name.index)?;
    put_sized(out, attribute.content.as_slice())
}

fn put_skipped_list(out: &mut List<u8>, attributes: &[Skipped]) -> Mem<()>
    ensures { OnOk result (out.new ≡ out.old ++ flat_map skipped_text attributes.now) }
{
    for attribute in attributes {
        put_skipped(out, attribute)?;
    }
    Ok(())
}

/// Puts the attributes of a Code at the end, behind how many there are.
fn put_skippeds(out: &mut List<u8>, attributes: &[Skipped]) -> Mem<()>
    ensures { OnOk result (out.new ≡ out.old ++ counted_text skipped_text attributes.now) }
{
    put_count(out, attributes.len())?;
    put_skipped_list(out, attributes)
}

/// Puts what stands before the exception table at the end: what a frame takes, and the instructions behind their length.
fn put_front(alloc: Global, out: &mut List<u8>, code: &Code) -> Mem<()>
    requires { AllFit code.now.code }
    ensures { OnOk result (out.new ≡ out.old ++ code_front code.now) }
{
    let bytes = encode(alloc, &code.code)?;
    put_two(out, code.max_stack)?;
    put_two(out, code.max_locals)?;
    put_sized(out, bytes.as_slice())
}

/// The content of a Code attribute.
pub(crate) fn code_bytes(alloc: Global, code: &Code) -> Mem<List<u8>>
    requires { AllFit code.now.code }
    ensures { IfOk result (λ bytes. bytes ≡ code_text code.now) }
{
    let mut out = List::new(alloc);
    put_front(alloc, &mut out, code)?;
    put_rows(&mut out, code.rows.as_slice())?;
    put_skippeds(&mut out, code.attributes.as_slice())?;
    Ok(out)
}
