// Numbers, their most significant byte first (JVM Specification SE 8, 4).
ghost use Rattle.std.specs.Prelude.{◌≡◌, ◌++◌, OnOk};
ghost use Rattle.cf_structure.specs.Spelled.{two, four, sized_text};

use jv_base::{List, Mem};

/// Puts a number of two bytes at the end.
pub(crate) fn put_two(out: &mut List<u8>, number: u16) -> Mem<()>
    ensures { OnOk result (out.new ≡ out.old ++ two number) }
{
    out.extend(&number.to_be_bytes())
}

/// Puts the lowest two bytes of a count at the end.
pub(crate) fn put_count(out: &mut List<u8>, count: usize) -> Mem<()>
    ensures { OnOk result (out.new ≡ out.old ++ two count) }
{
    out.extend(&[(count / 256 % 256) as u8, (count % 256) as u8])
}

/// Puts the lowest four bytes of a length at the end.
pub(crate) fn put_length(out: &mut List<u8>, length: usize) -> Mem<()>
    ensures { OnOk result (out.new ≡ out.old ++ four length) }
{
    out.extend(&[
        (length / 16777216 % 256) as u8,
        (length / 65536 % 256) as u8,
        (length / 256 % 256) as u8,
        (length % 256) as u8,
    ])
}

/// Puts bytes behind their length at the end.
pub(crate) fn put_sized(out: &mut List<u8>, content: &[u8]) -> Mem<()>
    ensures { OnOk result (out.new ≡ out.old ++ sized_text content.now) }
{
    put_length(out, content.len())?;
    out.extend(content)
}
