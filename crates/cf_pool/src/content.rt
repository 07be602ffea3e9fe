// What stands behind the tag of an entry (JVM Specification SE 8, 4.4).
ghost use Rattle.std.specs.Prelude.{◌≡◌, ◌∷◌, length, drop, IfOk, IfErr};
ghost use Rattle.byteorder.specs.Endian.{big_number};
ghost use Rattle.cf_pool.specs.Tags.{tag_byte, content_size};
ghost use Rattle.cf_pool.specs.Spelling.{entry_text};
ghost use Rattle.cf_pool.specs.Entries.{IsPoolEntry};
ghost use Rattle.cf_pool.specs.ConstantPool.{Names};
ghost use Rattle.cf_pool.specs.Calls.Contents.{numbers_entry, IsFaultOfContent};

use crate::entry::PoolEntry;
use crate::fault::PoolFault;
use crate::tag::Tag;
use crate::units::units_of;
use byteorder::{BigEndian, ByteOrder};
use std::alloc::Global;

/// Where a text stands behind its tag and its length, counted from the tag.
const TEXT_PLACE: usize = 3;

/// The two numbers that four bytes are.
fn pair_of(content: &[u8]) -> (u16, u16)
    requires { length content.now ≡ 4 }
    ensures first { result.0 ≡ big_number 2 content.now }
    ensures second { result.1 ≡ big_number 2 (drop 2 content.now) }
{
    let first = BigEndian::read_u16(content);
    let second = BigEndian::read_u16(&content[2..]);
    (first, second)
}

/// The entry of a tag whose content is numbers alone, as that of any but a text.
fn numbers_entry(tag: Tag, content: &[u8]) -> Option<PoolEntry>
    requires { length content.now ≡ content_size tag content.now }
    ensures { result ≡ numbers_entry tag content.now }
{
    match tag {
        Tag::Utf8 => None,
        Tag::Integer => Some(PoolEntry::Integer(BigEndian::read_i32(content))),
        Tag::Float => Some(PoolEntry::Float(BigEndian::read_u32(content))),
        Tag::Long => Some(PoolEntry::Long(BigEndian::read_i64(content))),
        Tag::Double => Some(PoolEntry::Double(BigEndian::read_u64(content))),
        Tag::Class => Some(PoolEntry::Class(BigEndian::read_u16(content))),
        Tag::Str => Some(PoolEntry::Str(BigEndian::read_u16(content))),
        Tag::MethodType => Some(PoolEntry::MethodType(BigEndian::read_u16(content))),
        Tag::MethodHandle => {
            let index = BigEndian::read_u16(&content[1..]);
            Some(PoolEntry::MethodHandle(content[0], index))
        }
        Tag::Field => {
            let (class, name_and_type) = pair_of(content);
            Some(PoolEntry::Field(class, name_and_type))
        }
        Tag::Method => {
            let (class, name_and_type) = pair_of(content);
            Some(PoolEntry::Method(class, name_and_type))
        }
        Tag::InterfaceMethod => {
            let (class, name_and_type) = pair_of(content);
            Some(PoolEntry::InterfaceMethod(class, name_and_type))
        }
        Tag::NameAndType => {
            let (name, descriptor) = pair_of(content);
            Some(PoolEntry::NameAndType(name, descriptor))
        }
        Tag::InvokeDynamic => {
            let (bootstrap, name_and_type) = pair_of(content);
            Some(PoolEntry::InvokeDynamic(bootstrap, name_and_type))
        }
    }
}

/// The text behind its length.
fn text_entry(alloc: Global, content: &[u8]) -> Result<PoolEntry, PoolFault>
    requires { length content.now ≡ content_size Tag.Utf8 content.now }
    ensures found { IfOk result (λ e. IsPoolEntry e × (entry_text e ≡ tag_byte Tag.Utf8 ∷ content.now)) }
    ensures fault { IfErr result (Names (IsFaultOfContent content.now)) }
{
    match units_of(alloc, &content[TEXT_PLACE - 1..]) {
        Ok(units) => Ok(PoolEntry::Utf8(units)),
        Err(fault) => Err(fault.later(TEXT_PLACE)),
    }
}

/// The entry with that tag and this content. The place of a fault is counted from the tag.
pub(crate) fn entry_of(alloc: Global, tag: Tag, content: &[u8]) -> Result<PoolEntry, PoolFault>
    requires { length content.now ≡ content_size tag content.now }
    ensures found { IfOk result (λ e. IsPoolEntry e × (entry_text e ≡ tag_byte tag ∷ content.now)) }
    ensures fault { IfErr result (Names (λ f. (tag ≡ Tag.Utf8) × IsFaultOfContent content.now f)) }
{
    match numbers_entry(tag, content) {
        Some(entry) => Ok(entry),
        None => text_entry(alloc, content),
    }
}
