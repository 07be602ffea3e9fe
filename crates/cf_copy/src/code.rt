// The content of a Code attribute (JVM Specification SE 8, 4.7.3).
ghost use Rattle.std.specs.Prelude.{◌≡◌, IfOk};

use crate::copied::{PartCopy, copied};
use cf_class::{Code, Skipped};
use jv_base::{List, Mem};
use std::alloc::Global;

impl PartCopy for Skipped {
    fn copy(&self, alloc: Global) -> Mem<Skipped> {
        Ok(Skipped {
            name: self.name.copy(alloc)?,
            content: List::copied(alloc, self.content.as_slice())?,
        })
    }
}

pub(crate) fn copy_code(alloc: Global, code: &Code) -> Mem<Code>
    ensures { IfOk result (λ copy. copy ≡ code.now) }
{
    Ok(Code {
        max_stack: code.max_stack,
        max_locals: code.max_locals,
        code: copied(alloc, code.code.as_slice())?,
        rows: List::copied(alloc, code.rows.as_slice())?,
        attributes: copied(alloc, code.attributes.as_slice())?,
    })
}
