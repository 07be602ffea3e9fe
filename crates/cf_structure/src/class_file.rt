// A class file as a whole (JVM Specification SE 8, 4.1).
ghost use Rattle.std.specs.Prelude.{◌≡◌, ◌++◌, map, IfOk, IfErr};
ghost use Rattle.std.specs.Int.{w16};
ghost use Rattle.cf_structure.specs.Structure.{at_end, number_at, many_at, counted_at, class_at, magic_at, is_major, version_at};
ghost use Rattle.cf_structure.specs.Raw.{RawFile};
ghost use Rattle.cf_structure.specs.Spelled.{file_text, FitsFile};
ghost use Rattle.cf_structure.specs.ClassFile.{IsStructure, IsStructureFault, Names};
ghost use Rattle.cf_structure.specs.Views.{member_of, attribute_of, class_of, file_of};
ghost use Rattle.cf_structure.specs.Calls.Views.{Gives};

use crate::attribute::{AttributePart, Holder, read_attributes};
use crate::cursor::{u16_at, u32_at};
use crate::fault::{AT_END, ClassFault, Cut, Stop};
use crate::laws::one_structure;
use crate::member::{MemberPart, read_members};
use cf_pool::{Pool, PoolEntry, What, read_pool};
use jv_base::List;
use std::alloc::Global;

const MAGIC: u32 = 0xcafe_babe;

const FIRST_MAJOR: u16 = 45;

const LAST_MAJOR: u16 = 52;

/// The version of a class file.
#[derive(Clone, Copy, Debug, PartialEq, Eq)]
pub struct Version {
    pub minor: u16,
    pub major: u16,
}

/// What stands behind the constant pool, by indices into it.
#[derive(Debug, Drop)]
pub struct ClassPart<'a> {
    pub flags: u16,
    pub this_class: u16,
    pub super_class: u16,
    pub interfaces: List<u16>,
    pub fields: List<MemberPart<'a>>,
    pub methods: List<MemberPart<'a>>,
    pub attributes: List<AttributePart<'a>>,
}

/// The structure of a class file.
#[derive(Debug, Drop)]
pub struct Structure<'a> {
    pub version: Version,
    pub pool: Pool,
    pub class: ClassPart<'a>,
}

/// What follows the magic number.
#[tactic(auto, unfolding(crate::specs::Structure::magic_at))]
fn behind_magic(bytes: &[u8]) -> Result<&[u8], Stop>
    ensures { Gives (λ x. x.now) result (magic_at bytes.now) }
{
    let (magic, rest) = u32_at(bytes, AT_END)?;
    if magic != MAGIC {
        return Err(Stop::At(Cut {
            left: bytes.len(),
            what: What::BadMagic,
        }));
    }
    Ok(rest)
}

#[tactic(auto, unfolding(crate::specs::Structure::is_major))]
fn is_major(major: u16) -> bool
    ensures { result ≡ is_major major }
{
    FIRST_MAJOR <= major && major <= LAST_MAJOR
}

/// The magic number and the version.
#[tactic(auto, unfolding(crate::specs::Structure::version_at))]
fn read_version(bytes: &[u8]) -> Result<(Version, &[u8]), Stop>
    ensures { Gives (λ x. (x.0, x.1.now)) result (version_at bytes.now) }
{
    let version = behind_magic(bytes)?;
    let (minor, behind_minor) = u16_at(version, AT_END)?;
    let (major, rest) = u16_at(behind_minor, AT_END)?;
    if !is_major(major) {
        return Err(Stop::At(Cut {
            left: behind_minor.len(),
            what: What::BadVersion,
        }));
    }
    Ok((Version { minor, major }, rest))
}

fn read_index_list(alloc: Global, count: u16, bytes: &[u8]) -> Result<(List<u16>, &[u8]), Stop>
    ensures { Gives (λ x. (x.0, x.1.now)) result (many_at (number_at at_end w16) count bytes.now) }
{
    let mut indices = List::new(alloc);
    let mut rest = bytes;
    for _ in 0..count {
        let (index, after) = u16_at(rest, AT_END)?;
        indices.add(index)?;
        rest = after;
    }
    Ok((indices, rest))
}

/// The indices of the interfaces behind their count.
#[tactic(auto, unfolding(crate::specs::Structure::counted_at))]
fn read_interfaces(alloc: Global, bytes: &[u8]) -> Result<(List<u16>, &[u8]), Stop>
    ensures { Gives (λ x. (x.0, x.1.now)) result (counted_at at_end (number_at at_end w16) bytes.now) }
{
    let (count, rest) = u16_at(bytes, AT_END)?;
    read_index_list(alloc, count, rest)
}

/// What stands behind the pool, which is all of these bytes.
#[tactic(auto, unfolding(crate::specs::Structure::class_at))]
fn read_class_part<'a>(
    alloc: Global,
    pool: &[PoolEntry],
    bytes: &'a [u8],
) -> Result<ClassPart<'a>, Stop>
    ensures { Gives class_of result (class_at pool.now bytes.now) }
{
    let (flags, rest) = u16_at(bytes, AT_END)?;
    let (this_class, rest) = u16_at(rest, AT_END)?;
    let (super_class, rest) = u16_at(rest, AT_END)?;
    let (interfaces, rest) = read_interfaces(alloc, rest)?;
    let (fields, rest) = read_members(alloc, Holder::InField, pool, rest)?;
    let (methods, rest) = read_members(alloc, Holder::InMethod, pool, rest)?;
    let (attributes, rest) = read_attributes(alloc, Holder::InClass, pool, rest)?;
    if !rest.is_empty() {
        return Err(Stop::At(Cut {
            left: rest.len(),
            what: What::Extra,
        }));
    }
    Ok(ClassPart {
        flags,
        this_class,
        super_class,
        interfaces,
        fields,
        methods,
        attributes,
    })
}

/// The structure of a class file. The first fault from the left is `Truncated` at the end of the bytes, `BadMagic` or
/// `BadVersion`, one of the pool, `BadLength` at the length field of an attribute or of a code, or `Extra` at the end of the
/// structure.
pub fn read_structure(alloc: Global, bytes: &[u8]) -> Result<Structure<'_>, ClassFault>
    ensures found { IfOk result (λ s. IsStructure bytes.now (file_of s)) }
    ensures spelled { IfOk result (λ s. FitsFile (file_of s) × (bytes.now ≡ file_text (file_of s))) }
    ensures fault { IfErr result (Names (IsStructureFault bytes.now)) }
    ensures outside { IfErr result (Names (λ _. (file : RawFile) → IsStructure bytes.now file → ⊥)) }
{
    one_structure();
    let version = match read_version(bytes) {
        Ok((version, _)) => version,
        Err(stop) => return Err(stop.in_file(bytes)),
    };
    let (pool, place) = read_pool(alloc, bytes)?;
    let (_, rest) = bytes.split_at(place as usize);
    let class = match read_class_part(alloc, pool.entries.as_slice(), rest) {
        Ok(class) => class,
        Err(stop) => return Err(stop.in_file(bytes)),
    };
    Ok(Structure {
        version,
        pool,
        class,
    })
}
