// Which field a reference means (JVM Specification SE 8, 5.4.3.2).
ghost use Rattle.std.specs.Prelude.{IfOk, IfErr};
ghost use Rattle.hi_tree.specs.Fields.{IsField, IsFieldFault};

use crate::fault::TreeFault;
use crate::known::{Above, Up};
use crate::sought::Sought;
use crate::table::Classes;
use crate::walk::{Walked, climb_from};
use jv_base::{FieldId, Name};
use std::alloc::Global;

impl Classes {
    /// The field that a reference means, under the class that declares it.
    pub fn field(&self, alloc: Global, at: &FieldId) -> Result<FieldId, TreeFault>
        ensures found { IfOk result (IsField self.now at.now) }
        ensures fault { IfErr result (IsFieldFault self.now at.now) }
    {
        let walked = climb_from(
            alloc,
            self,
            Above::Named(&at.class),
            Up::Supertypes,
            Sought::Field(at),
        )?;
        match walked {
            Walked::Clean(_) => Err(TreeFault::NoSuch),
            Walked::Found(class) => Ok(FieldId {
                class: Name::from_text(alloc, class.text())?,
                name: at.name.copy(alloc)?,
                desc: at.desc.copy(alloc)?,
            }),
        }
    }
}
