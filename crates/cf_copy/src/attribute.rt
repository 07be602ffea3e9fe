// Attributes (JVM Specification SE 8, 4.7).
ghost use Rattle.std.specs.Prelude.{◌≡◌, IfOk};

use crate::code::copy_code;
use crate::copied::PartCopy;
use cf_class::{Attribute, Body};
use jv_base::{List, Mem};
use std::alloc::Global;

fn copy_body(alloc: Global, body: &Body) -> Mem<Body>
    ensures { IfOk result (λ copy. copy ≡ body.now) }
{
    Ok(match body {
        Body::Constant(index) => Body::Constant(*index),
        Body::Code(code) => Body::Code(copy_code(alloc, code)?),
        Body::Skipped(content) => Body::Skipped(List::copied(alloc, content.as_slice())?),
    })
}

impl PartCopy for Attribute {
    fn copy(&self, alloc: Global) -> Mem<Attribute> {
        Ok(Attribute {
            name: self.name.copy(alloc)?,
            body: copy_body(alloc, &self.body)?,
        })
    }
}
