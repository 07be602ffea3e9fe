// The reader of the constant pool (JVM Specification SE 8, 4.1 and 4.4).
ghost use Rattle.std.specs.Prelude.{◌≡◌, ℕ, ◌<◌, ◌≤◌, List as list_of, ◌++◌, length, IfOk, IfErr, IfSome, IfNone, OnOk};
ghost use Rattle.cf_pool.specs.declared.entry.PoolEntry.{PoolEntry};
ghost use Rattle.cf_pool.specs.declared.tag.Tag.{Tag};
ghost use Rattle.cf_pool.specs.Tags.{tag_byte, indices};
ghost use Rattle.cf_pool.specs.Spelling.{entry_text};
ghost use Rattle.cf_pool.specs.Entries.{IsPoolEntry, slots};
ghost use Rattle.cf_pool.specs.ConstantPool.{IsPool, IsEntryFault, IsPoolFault, Names};
ghost use Rattle.cf_pool.specs.Calls.Contents.{ReadsEntries, IsFaultOfEntries};

use crate::content::entry_of;
use crate::entry::{Pool, PoolEntry};
use crate::fault::{PoolFault, What, fault_at};
use crate::tag::Tag;
use byteorder::{BigEndian, ByteOrder};
use jv_base::{List, Mem};
use std::alloc::Global;

/// Where the count of the pool stands, behind the magic number and the version (4.1).
const COUNT_PLACE: usize = 8;

/// Where the entries stand.
const ENTRIES_PLACE: usize = 10;

/// The tag that a byte is, if its entry finds room at the indices that are left.
fn tag_with_room(byte: u8, left: usize) -> Option<Tag>
    ensures found { IfSome result (λ t. (tag_byte t ≡ byte) × (indices t ≤ left)) }
    ensures none { IfNone result ((t : Tag) → tag_byte t ≡ byte → left < indices t) }
{
    let tag = Tag::of(byte)?;
    if tag.indices() > left {
        return None;
    }
    Some(tag)
}

/// The entry that the bytes begin with, where so many indices are left, and what follows it. The place of a fault is
/// counted from the tag.
fn read_entry(alloc: Global, left: usize, bytes: &[u8]) -> Result<(PoolEntry, &[u8]), PoolFault>
    ensures found { IfOk result (λ r. IsPoolEntry r.0 × (length (slots r.0) ≤ left) × (bytes.now ≡ entry_text r.0 ++ r.1.now)) }
    ensures fault { IfErr result (Names (λ f. IsEntryFault left bytes.now f.what f.place)) }
    ensures within { IfErr result (Names (λ f. f.place ≤ length bytes.now)) }
{
    let Some((byte, rest)) = bytes.split_first() else {
        return Err(fault_at(0, What::Truncated));
    };
    let Some(tag) = tag_with_room(*byte, left) else {
        return Err(fault_at(0, What::BadTag));
    };
    let size = tag.content_size(rest);
    if rest.len() < size {
        return Err(fault_at(bytes.len(), What::Truncated));
    }
    let (content, rest) = rest.split_at(size);
    let entry = entry_of(alloc, tag, content)?;
    Ok((entry, rest))
}

/// Puts an entry at the indices that it takes.
fn push_slots(pool: &mut List<PoolEntry>, entry: PoolEntry) -> Mem<()>
    ensures ok { OnOk result (pool.new ≡ pool.old ++ slots entry) }
{
    let is_wide = matches!(entry, PoolEntry::Long(_) | PoolEntry::Double(_));
    pool.add(entry)?;
    if is_wide {
        pool.add(PoolEntry::Unusable)?;
    }
    Ok(())
}

/// What stands at the indices of a pool with that count, and what follows its entries. The place of a fault is counted
/// from the first entry.
fn read_entries(
    alloc: Global,
    count: u16,
    bytes: &[u8],
) -> Result<(List<PoolEntry>, &[u8]), PoolFault>
    ensures found { IfOk result (λ r. ReadsEntries count bytes.now r.0 r.1.now) }
    ensures fault { IfErr result (Names (IsFaultOfEntries count bytes.now)) }
    ensures within { IfErr result (Names (λ f. f.place ≤ length bytes.now)) }
{
    let count = usize::from(count);
    let mut pool = List::new(alloc);
    if count == 0 {
        return Ok((pool, bytes));
    }
    push_slots(&mut pool, PoolEntry::Unusable)?;
    let mut rest = bytes;
    'entries: while pool.length() < count {
        let left = count - pool.length();
        match read_entry(alloc, left, rest) {
            Ok((entry, after)) => {
                push_slots(&mut pool, entry)?;
                rest = after;
            }
            Err(fault) => return Err(fault.later(bytes.len() - rest.len())),
        }
    }
    Ok((pool, rest))
}

/// The constant pool of a class file, whose count stands at place 8, and the place after it (4.1, 4.4). The bytes before
/// and behind it are not looked at. The first fault from the left is `Truncated` at the end of the bytes, `BadTag` at a
/// tag (also that of a Long or a Double without room for its second index), or `BadUtf8` at the first byte of the
/// first unit at fault in a text that is there in full.
pub fn read_pool(alloc: Global, bytes: &[u8]) -> Result<(Pool, u64), PoolFault>
    ensures found { IfOk result (λ r. IsPool bytes.now r.0.entries r.1) }
    ensures fault { IfErr result (Names (IsPoolFault bytes.now)) }
    ensures inside { IfOk result (λ r. r.1 ≤ length bytes.now) }
    ensures outside { IfErr result (Names (λ _. (pool : list_of PoolEntry) (place : ℕ) → IsPool bytes.now pool place → ⊥)) }
{
    if bytes.len() < ENTRIES_PLACE {
        return Err(fault_at(bytes.len(), What::Truncated));
    }
    let (head, body) = bytes.split_at(ENTRIES_PLACE);
    let count = BigEndian::read_u16(&head[COUNT_PLACE..]);
    match read_entries(alloc, count, body) {
        Ok((entries, rest)) => Ok((Pool { entries }, (bytes.len() - rest.len()) as u64)),
        Err(fault) => Err(fault.later(ENTRIES_PLACE)),
    }
}
