// A class file as a value (JVM Specification SE 8, 4.1).
ghost use Rattle.std.specs.Prelude.{◌≡◌, IfOk};

use crate::copied::{PartCopy, copied};
use crate::pool::copy_pool;
use cf_class::ClassFile;
use jv_base::Mem;
use std::alloc::Global;

/// A copy of a class file, which equals it in each of its parts.
pub fn copy_class(alloc: Global, class: &ClassFile) -> Mem<ClassFile>
    ensures { IfOk result (λ copy. copy ≡ class.now) }
{
    Ok(ClassFile {
        minor: class.minor,
        major: class.major,
        pool: copy_pool(alloc, &class.pool)?,
        flags: class.flags,
        this_class: class.this_class.copy(alloc)?,
        super_class: class.super_class.copy(alloc)?,
        interfaces: copied(alloc, class.interfaces.as_slice())?,
        fields: copied(alloc, class.fields.as_slice())?,
        methods: copied(alloc, class.methods.as_slice())?,
        attributes: copied(alloc, class.attributes.as_slice())?,
    })
}
