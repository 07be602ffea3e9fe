// What stands at an index of the constant pool (JVM Specification SE 8, 4.4).
ghost use Rattle.std.specs.Prelude.{◌≡◌, option_copied, IfOk};
ghost use Rattle.bd_scan.specs.Pool.{units_at, name_at, class_at, name_and_type_at, member_at, field_at};
ghost use Rattle.bd_scan.specs.Pool.{method_at};

use cf_judge::name_of_units;
use cf_pool::PoolEntry;
use jv_base::{FieldId, Mem, MethodId, Name};
use std::alloc::Global;

/// The units of the text at an index (4.4.7).
pub(crate) fn units_at(pool: &[PoolEntry], index: u16) -> Option<&[u16]>
    ensures { option_copied result ≡ units_at pool.now index }
{
    match pool.get(usize::from(index)) {
        Some(PoolEntry::Utf8(units)) => Some(units.as_slice()),
        _ => None,
    }
}

fn name_at(alloc: Global, pool: &[PoolEntry], index: u16) -> Mem<Option<Name>>
    ensures { IfOk result (λ o. o ≡ name_at pool.now index) }
{
    match units_at(pool, index) {
        Some(units) => name_of_units(alloc, units),
        None => Ok(None),
    }
}

/// The name of the class at an index (4.4.1).
pub(crate) fn class_at(alloc: Global, pool: &[PoolEntry], index: u16) -> Mem<Option<Name>>
    ensures { IfOk result (λ o. o ≡ class_at pool.now index) }
{
    match pool.get(usize::from(index)) {
        Some(PoolEntry::Class(name)) => name_at(alloc, pool, *name),
        _ => Ok(None),
    }
}

/// The name and the descriptor at an index (4.4.6).
fn name_and_type_at(alloc: Global, pool: &[PoolEntry], index: u16) -> Mem<Option<(Name, Name)>>
    ensures { IfOk result (λ o. o ≡ name_and_type_at pool.now index) }
{
    let Some(PoolEntry::NameAndType(name, desc)) = pool.get(usize::from(index)) else {
        return Ok(None);
    };
    let Some(name) = name_at(alloc, pool, *name)? else {
        return Ok(None);
    };
    let Some(desc) = name_at(alloc, pool, *desc)? else {
        return Ok(None);
    };
    Ok(Some((name, desc)))
}

/// A member by the index of its class and that of its name and type (4.4.2).
fn member_at(
    alloc: Global,
    pool: &[PoolEntry],
    class: u16,
    name_and_type: u16,
) -> Mem<Option<MethodId>>
    ensures { IfOk result (λ o. o ≡ member_at pool.now class name_and_type) }
{
    let Some(class) = class_at(alloc, pool, class)? else {
        return Ok(None);
    };
    let Some((name, desc)) = name_and_type_at(alloc, pool, name_and_type)? else {
        return Ok(None);
    };
    Ok(Some(MethodId { class, name, desc }))
}

/// The field at an index (4.4.2).
pub fn field_at(alloc: Global, pool: &[PoolEntry], index: u16) -> Mem<Option<FieldId>>
    ensures { IfOk result (λ o. o ≡ field_at pool.now index) }
{
    let Some(PoolEntry::Field(class, name_and_type)) = pool.get(usize::from(index)) else {
        return Ok(None);
    };
    let Some(member) = member_at(alloc, pool, *class, *name_and_type)? else {
        return Ok(None);
    };
    let MethodId { class, name, desc } = member;
    Ok(Some(FieldId { class, name, desc }))
}

/// The method at an index, and whether it is one of an interface (4.4.2).
pub fn method_at(alloc: Global, pool: &[PoolEntry], index: u16) -> Mem<Option<(MethodId, bool)>>
    ensures { IfOk result (λ o. o ≡ method_at pool.now index) }
{
    let (class, name_and_type, interface) = match pool.get(usize::from(index)) {
        Some(PoolEntry::Method(class, name_and_type)) => (*class, *name_and_type, false),
        Some(PoolEntry::InterfaceMethod(class, name_and_type)) => (*class, *name_and_type, true),
        _ => return Ok(None),
    };
    match member_at(alloc, pool, class, name_and_type)? {
        Some(member) => Ok(Some((member, interface))),
        None => Ok(None),
    }
}
