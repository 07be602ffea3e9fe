// Fields and methods (JVM Specification SE 8, 4.5 and 4.6).
use crate::copied::{PartCopy, copied};
use cf_class::Member;
use jv_base::Mem;
use std::alloc::Global;

impl PartCopy for Member {
    fn copy(&self, alloc: Global) -> Mem<Member> {
        Ok(Member {
            flags: self.flags,
            name: self.name.copy(alloc)?,
            desc: self.desc.copy(alloc)?,
            attributes: copied(alloc, self.attributes.as_slice())?,
        })
    }
}
