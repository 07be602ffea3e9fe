// An index with the name that it stands for.
use crate::copied::PartCopy;
use cf_class::Named;
use jv_base::Mem;
use std::alloc::Global;

impl PartCopy for Named {
    fn copy(&self, alloc: Global) -> Mem<Named> {
        Ok(Named {
            index: self.index,
            name: self.name.copy(alloc)?,
        })
    }
}
