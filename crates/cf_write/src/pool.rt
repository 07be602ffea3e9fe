// The constant pool (JVM Specification SE 8, 4.1 and 4.4).
ghost use Rattle.std.specs.Prelude.{◌≡◌, ◌∷◌, ◌++◌, OnOk};
ghost use Rattle.std.specs.List.{flat_map};
ghost use Rattle.cf_pool.specs.Spelling.{two_bytes, pair_spelling, entry_text, pool_text};

use crate::number::{put_count, put_two};
use crate::text::put_text;
use cf_pool::PoolEntry;
use jv_base::{List, Mem};
use std::alloc::Global;

/// Puts a tag and a number of two bytes at the end.
fn put_index(out: &mut List<u8>, tag: u8, index: u16) -> Mem<()>
    ensures { OnOk result (out.new ≡ out.old ++ tag ∷ two_bytes index) }
{
    let [high, low] = index.to_be_bytes();
    out.extend(&[tag, high, low])
}

/// Puts a tag and two numbers of two bytes at the end.
fn put_pair(out: &mut List<u8>, tag: u8, first: u16, second: u16) -> Mem<()>
    ensures { OnOk result (out.new ≡ out.old ++ tag ∷ pair_spelling first second) }
{
    put_index(out, tag, first)?;
    put_two(out, second)
}

/// Puts a tag and the bytes of a number at the end.
fn put_number(out: &mut List<u8>, tag: u8, bytes: &[u8]) -> Mem<()>
    ensures { OnOk result (out.new ≡ out.old ++ tag ∷ bytes.now) }
{
    out.add(tag)?;
    out.extend(bytes)
}

/// Puts an entry behind its tag at the end. An index without an entry takes no bytes.
fn put_entry(alloc: Global, out: &mut List<u8>, entry: &PoolEntry) -> Mem<()>
    ensures { OnOk result (out.new ≡ out.old ++ entry_text entry.now) }
{
    match entry {
        PoolEntry::Utf8(units) => {
            out.add(1)?;
            put_text(alloc, out, units.as_slice())
        }
        PoolEntry::Integer(number) => put_number(out, 3, &number.to_be_bytes()),
        PoolEntry::Float(bits) => put_number(out, 4, &bits.to_be_bytes()),
        PoolEntry::Long(number) => put_number(out, 5, &number.to_be_bytes()),
        PoolEntry::Double(bits) => put_number(out, 6, &bits.to_be_bytes()),
        PoolEntry::Class(name) => put_index(out, 7, *name),
        PoolEntry::Str(text) => put_index(out, 8, *text),
        PoolEntry::Field(class, member) => put_pair(out, 9, *class, *member),
        PoolEntry::Method(class, member) => put_pair(out, 10, *class, *member),
        PoolEntry::InterfaceMethod(class, member) => put_pair(out, 11, *class, *member),
        PoolEntry::NameAndType(name, descriptor) => put_pair(out, 12, *name, *descriptor),
        PoolEntry::MethodHandle(kind, index) => {
            out.add(15)?;
            put_index(out, *kind, *index)
        }
        PoolEntry::MethodType(descriptor) => put_index(out, 16, *descriptor),
        PoolEntry::InvokeDynamic(method, member) => put_pair(out, 18, *method, *member),
        PoolEntry::Unusable => Ok(()),
    }
}

/// Puts entries at the end, one after the other.
fn put_entries(alloc: Global, out: &mut List<u8>, entries: &[PoolEntry]) -> Mem<()>
    ensures { OnOk result (out.new ≡ out.old ++ flat_map entry_text entries.now) }
{
    for entry in entries {
        put_entry(alloc, out, entry)?;
    }
    Ok(())
}

/// Puts a pool at the end: how many indices it has, and its entries.
pub(crate) fn put_pool(alloc: Global, out: &mut List<u8>, entries: &[PoolEntry]) -> Mem<()>
    ensures { OnOk result (out.new ≡ out.old ++ pool_text entries.now) }
{
    put_count(out, entries.len())?;
    put_entries(alloc, out, entries)
}
