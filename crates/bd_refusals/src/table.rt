// The table without unsuited class files.
ghost use Rattle.std.specs.Prelude.{◌≡◌, ◌∷◌, [], ◌++◌, ◌↔◌, IfOk, IsTrue, None, OnOk};
ghost use Rattle.hi_tree.specs.Classes.{class_in};
ghost use Rattle.bd_refusals.specs.Suited.{IsSuited, AreSuitedOf};
ghost use Rattle.bd_refusals.specs.Calls.Tables.{HasSuited, PutsSuited};

use crate::circular::is_circular;
use crate::suited::has_unsuited;
use cf_class::ClassFile;
use cf_copy::copy_class;
use hi_tree::Classes;
use jv_base::{Mem, Name};
use std::alloc::{AllocError, Global};

// Whether a class file has no unsuited supertype, and is not its own.
fn is_suited(alloc: Global, classes: &Classes, class: &ClassFile) -> Mem<bool>
    ensures { IfOk result (λ yes. IsTrue yes ↔ IsSuited classes.now class.now) }
{
    if has_unsuited(classes, class) {
        return Ok(false);
    }
    Ok(!is_circular(alloc, classes, &class.this_class.name)?)
}

// Puts the copy of a class file in.
fn put_copy(alloc: Global, class: &ClassFile, table: &mut Classes) -> Mem<()>
    requires { class_in table.old class.now.this_class.name ≡ None }
    ensures { OnOk result (table.new ≡ table.old ++ class.now ∷ []) }
{
    let copy = copy_class(alloc, class)?;
    match table.add(alloc, copy) {
        Ok(()) => Ok(()),
        Err(_) => Err(AllocError),
    }
}

// Puts the copy of the class file of a name in, where it is suited.
fn put_suited(alloc: Global, classes: &Classes, name: &Name, table: &mut Classes) -> Mem<()>
    requires { HasSuited classes.now table.old }
    ensures { OnOk result (PutsSuited classes.now name.now table.old table.new) }
{
    if let Some(_there) = table.find(name) {
        return Ok(());
    }
    let Some(class) = classes.find(name) else {
        return Ok(());
    };
    if is_suited(alloc, classes, class)? {
        put_copy(alloc, class, table)?;
    }
    Ok(())
}

/// The table of the class files of some names that have no unsuited supertype and are not their own supertypes. Of the
/// others nothing is copied.
pub fn suited_classes(alloc: Global, classes: &Classes, names: &[Name]) -> Mem<Classes>
    ensures { IfOk result (AreSuitedOf classes.now names.now) }
{
    let mut table = Classes::new(alloc);
    'names: for name in names {
        put_suited(alloc, classes, name, &mut table)?;
    }
    Ok(table)
}
