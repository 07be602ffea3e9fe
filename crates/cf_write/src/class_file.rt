// A class file as bytes (JVM Specification SE 8, 4.1).
ghost use Rattle.std.specs.Prelude.{◌≡◌, ◌++◌, IfOk, OnOk};
ghost use Rattle.std.specs.List.{flat_map};
ghost use Rattle.cf_structure.specs.Spelled.{counted_text};
ghost use Rattle.cf_class.specs.Content.{IsClass, HasFile};
ghost use Rattle.cf_write.specs.Written.{IsEachFile};
ghost use Rattle.cf_write.specs.Calls.Texts.{named_text, names_text, version_text, members_text, file_text, CodesFit};

use crate::attribute::put_attributes;
use crate::member::put_members;
use crate::number::{put_count, put_two};
use crate::pool::put_pool;
use cf_class::{ClassFile, Named};
use cf_structure::spelled;
use jv_base::{List, Mem};
use std::alloc::Global;

/// Puts the magic number and the version at the end.
fn put_version(out: &mut List<u8>, class: &ClassFile) -> Mem<()>
    ensures { OnOk result (out.new ≡ out.old ++ version_text class.now) }
{
    out.extend(&[0xca, 0xfe, 0xba, 0xbe])?;
    put_two(out, class.minor)?;
    put_two(out, class.major)
}

fn put_index_list(out: &mut List<u8>, names: &[Named]) -> Mem<()>
    ensures { OnOk result (out.new ≡ out.old ++ flat_map named_text names.now) }
{
    for name in names {
        put_two(out, name.index)?;
    }
    Ok(())
}

/// Puts indices at the end, behind how many there are.
fn put_indices(out: &mut List<u8>, names: &[Named]) -> Mem<()>
    ensures { OnOk result (out.new ≡ out.old ++ counted_text named_text names.now) }
{
    put_count(out, names.len())?;
    put_index_list(out, names)
}

/// Puts the flags, the class, the class above it and the interfaces at the end.
fn put_names(out: &mut List<u8>, class: &ClassFile) -> Mem<()>
    ensures { OnOk result (out.new ≡ out.old ++ names_text class.now) }
{
    put_two(out, class.flags)?;
    put_two(out, class.this_class.index)?;
    put_two(out, class.super_class.index)?;
    put_indices(out, class.interfaces.as_slice())
}

/// Puts the fields, the methods and the attributes at the end.
fn put_parts(alloc: Global, out: &mut List<u8>, class: &ClassFile) -> Mem<()>
    requires { CodesFit class.now }
    ensures { OnOk result (out.new ≡ out.old ++ members_text class.now) }
{
    put_members(alloc, out, class.fields.as_slice())?;
    put_members(alloc, out, class.methods.as_slice())?;
    put_attributes(alloc, out, class.attributes.as_slice())
}

/// The bytes of a class file, part by part.
fn class_bytes(alloc: Global, class: &ClassFile) -> Mem<List<u8>>
    requires { CodesFit class.now }
    ensures { IfOk result (λ bytes. bytes ≡ file_text class.now) }
{
    let mut out = List::new(alloc);
    put_version(&mut out, class)?;
    put_pool(alloc, &mut out, class.pool.entries.as_slice())?;
    put_names(&mut out, class)?;
    put_parts(alloc, &mut out, class)?;
    Ok(out)
}

/// The bytes of a class file. Some file has to have this class, as that of each class that `read_class` gives. The bytes are that
/// file, so what was read is written as it was, and what is written is read again as this class.
pub fn write_class(alloc: Global, class: &ClassFile) -> Mem<List<u8>>
    requires { HasFile class.now }
    ensures class { IfOk result (λ written. IsClass written class.now) }
    ensures bytes { IfOk result (λ written. IsEachFile written class.now) }
{
    spelled();
    let written = class_bytes(alloc, class)?;
    Ok(written)
}
