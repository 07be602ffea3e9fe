// The constant pool (JVM Specification SE 8, 4.4).
ghost use Rattle.std.specs.Prelude.{◌≡◌, IfOk};

use crate::copied::{PartCopy, copied};
use cf_pool::{Pool, PoolEntry};
use jv_base::{List, Mem};
use std::alloc::Global;

impl PartCopy for PoolEntry {
    fn copy(&self, alloc: Global) -> Mem<PoolEntry> {
        Ok(match self {
            PoolEntry::Utf8(units) => PoolEntry::Utf8(List::copied(alloc, units.as_slice())?),
            PoolEntry::Integer(number) => PoolEntry::Integer(*number),
            PoolEntry::Float(bits) => PoolEntry::Float(*bits),
            PoolEntry::Long(number) => PoolEntry::Long(*number),
            PoolEntry::Double(bits) => PoolEntry::Double(*bits),
            PoolEntry::Class(name) => PoolEntry::Class(*name),
            PoolEntry::Str(text) => PoolEntry::Str(*text),
            PoolEntry::Field(class, member) => PoolEntry::Field(*class, *member),
            PoolEntry::Method(class, member) => PoolEntry::Method(*class, *member),
            PoolEntry::InterfaceMethod(class, member) => {
                PoolEntry::InterfaceMethod(*class, *member)
            }
            PoolEntry::NameAndType(name, descriptor) => PoolEntry::NameAndType(*name, *descriptor),
            PoolEntry::MethodHandle(kind, index) => PoolEntry::MethodHandle(*kind, *index),
            PoolEntry::MethodType(descriptor) => PoolEntry::MethodType(*descriptor),
            PoolEntry::InvokeDynamic(method, member) => PoolEntry::InvokeDynamic(*method, *member),
            PoolEntry::Unusable => PoolEntry::Unusable,
        })
    }
}

pub(crate) fn copy_pool(alloc: Global, pool: &Pool) -> Mem<Pool>
    ensures { IfOk result (λ copy. copy ≡ pool.now) }
{
    Ok(Pool {
        entries: copied(alloc, pool.entries.as_slice())?,
    })
}
