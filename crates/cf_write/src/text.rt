// Texts in modified UTF-8 (JVM Specification SE 8, 4.4.7).
ghost use Rattle.std.specs.Prelude.{◌≡◌, ◌++◌, OnOk};
ghost use Rattle.cf_pool.specs.ModifiedUtf8.{encoded_unit, encoded_units};
ghost use Rattle.cf_pool.specs.Spelling.{text_spelling};

use crate::number::put_count;
use jv_base::{List, Mem};
use std::alloc::Global;

/// Puts the one, two or three bytes of a unit at the end.
#[tactic(auto, unfolding(cf_pool::specs::ModifiedUtf8::encoded_unit))]
fn put_unit(out: &mut List<u8>, unit: u16) -> Mem<()>
    ensures { OnOk result (out.new ≡ out.old ++ encoded_unit unit) }
{
    match unit {
        0x01..=0x7f => out.extend(&[unit as u8]),
        0..=0x7ff => out.extend(&[(0xc0 + unit / 64) as u8, (0x80 + unit % 64) as u8]),
        _ => out.extend(&[
            (0xe0 + unit / 4096) as u8,
            (0x80 + unit / 64 % 64) as u8,
            (0x80 + unit % 64) as u8,
        ]),
    }
}

/// Puts the bytes of units at the end, one unit after the other.
fn put_units(out: &mut List<u8>, units: &[u16]) -> Mem<()>
    ensures { OnOk result (out.new ≡ out.old ++ encoded_units units.now) }
{
    for unit in units {
        put_unit(out, *unit)?;
    }
    Ok(())
}

/// Puts the text of units at the end, behind its length in bytes.
pub(crate) fn put_text(alloc: Global, out: &mut List<u8>, units: &[u16]) -> Mem<()>
    ensures { OnOk result (out.new ≡ out.old ++ text_spelling units.now) }
{
    let mut text = List::new(alloc);
    put_units(&mut text, units)?;
    put_count(out, text.length())?;
    out.extend(text.as_slice())
}
