// What the hierarchy tells, where it tells something: the rules do not ask why it tells nothing.
ghost use Rattle.std.specs.Prelude.{IfOk};
ghost use Rattle.hi_tree.specs.Fields.{IsField};
ghost use Rattle.hi_tree.specs.Resolution.{IsResolved};
ghost use Rattle.hi_tree.specs.Selection.{IsSelected};
ghost use Rattle.hi_tree.specs.Special.{IsSpecial};
ghost use Rattle.bd_core.specs.Calls.Adds.{Tells, IsToldBy};

use hi_tree::{Classes, TreeFault, fault_laws, method_laws};
use jv_base::{FieldId, Mem, MethodId, Name};
use std::alloc::{AllocError, Global};

// What is told, if anything is.
fn told<T: Drop>(answer: Result<T, TreeFault>) -> Mem<Option<T>>
    ensures { IfOk result (IsToldBy answer) }
{
    match answer {
        Ok(value) => Ok(Some(value)),
        Err(TreeFault::NoMemory) => Err(AllocError),
        Err(_) => Ok(None),
    }
}

/// The method that a reference means.
pub(crate) fn resolved(
    alloc: Global,
    classes: &Classes,
    at: &MethodId,
    interface: bool,
) -> Mem<Option<MethodId>>
    ensures { IfOk result (λ o. Tells o (IsResolved classes.now interface at.now)) }
{
    method_laws();
    fault_laws();
    told(classes.resolve(alloc, at, interface))
}

/// The method that an invokespecial in a method of a class calls.
pub(crate) fn special(
    alloc: Global,
    classes: &Classes,
    caller: &Name,
    at: &MethodId,
    interface: bool,
) -> Mem<Option<MethodId>>
    ensures { IfOk result (λ o. Tells o (IsSpecial classes.now caller.now interface at.now)) }
{
    method_laws();
    fault_laws();
    told(classes.special(alloc, caller, at, interface))
}

/// The method that a call of a resolved one selects in a class.
pub(crate) fn selected(
    alloc: Global,
    classes: &Classes,
    class: &Name,
    resolved: &MethodId,
) -> Mem<Option<MethodId>>
    ensures { IfOk result (λ o. Tells o (IsSelected classes.now class.now resolved.now)) }
{
    method_laws();
    fault_laws();
    told(classes.select(alloc, class, resolved))
}

/// The field that a reference means.
pub(crate) fn field(alloc: Global, classes: &Classes, at: &FieldId) -> Mem<Option<FieldId>>
    ensures { IfOk result (λ o. Tells o (IsField classes.now at.now)) }
{
    method_laws();
    fault_laws();
    told(classes.field(alloc, at))
}
