// What the entry gives.
ghost use Rattle.std.specs.Prelude.{◌≡◌, ◌↔◌, ℕ, List as list_of, IfNone, IfSome, IsTrue, OnOk, Some, option_copied};
ghost use Rattle.jv_base.specs.Descriptor.{object};
ghost use Rattle.jv_base.specs.Types.{field_of, method_of};
ghost use Rattle.hi_tree.specs.Inputs.{class_type};
ghost use Rattle.bd_core.specs.Given.{HasReceiver};
ghost use Rattle.bd_core.specs.Rules.{FromEntry};
ghost use Rattle.bd_core.specs.Calls.Adds.{Adds, Each};
ghost use Rattle.bd_core.specs.Calls.Entry.{array_of, CanHave, IsRootGift, IsElementGift, IsOfDesc, IsDescribedGift, IsReceiverGift, IsObjectGift, OfInput, IsInputGift};
ghost use Rattle.bd_core.specs.Loads.{given};

use crate::job::Job;
use crate::loaded::Loaded;
use crate::member::Member;
use crate::put::put;
use cf_class::member_in;
use hi_inputs::{input_types, is_made};
use hi_tree::{Classes, has_flag};
use jv_base::{Desc, List, Mem, MethodId, Name, TextFault, Ty, one_form, read_descriptor};
use lib_rows::Builtin;
use std::alloc::{AllocError, Global};

const STATIC: u16 = 0x0008;

// The entry itself, and that its class may be initialised.
fn put_root(alloc: Global, entry: &MethodId, out: &mut List<Member>) -> Mem<()>
    ensures { OnOk result (Adds (IsRootGift entry.now) out.old out.new) }
{
    put(out, Member::Method(entry.copy(alloc)?))?;
    put(out, Member::Initialised(entry.class.copy(alloc)?))
}

// The elements of an array.
fn elements_of(ty: &Ty) -> Option<&Ty>
    ensures array { IfSome result (λ elements. field_of ty.now ≡ array_of (field_of elements.now)) }
    ensures none { IfNone result ((field_of ty.now).dimensions ≡ 0) }
{
    match ty {
        Ty::Array(elements) => Some(elements.get()),
        Ty::Class(_)
        | Ty::Boolean
        | Ty::Byte
        | Ty::Char
        | Ty::Short
        | Ty::Int
        | Ty::Long
        | Ty::Float
        | Ty::Double => None,
    }
}

// The class that a type is.
fn class_of(ty: &Ty) -> Option<&Name>
    ensures { (name : list_of ℕ) → (option_copied result ≡ Some name) ↔ (field_of ty.now ≡ class_type name) }
{
    match ty {
        Ty::Class(name) => Some(name),
        Ty::Array(_)
        | Ty::Boolean
        | Ty::Byte
        | Ty::Char
        | Ty::Short
        | Ty::Int
        | Ty::Long
        | Ty::Float
        | Ty::Double => None,
    }
}

// The class of a type, or of the elements of an array in the end.
fn element_class(ty: &Ty) -> Option<&Name>
    ensures { (name : list_of ℕ) → (option_copied result ≡ Some name) ↔ ((field_of ty.now).element ≡ object name) }
{
    match elements_of(ty) {
        Some(elements) => element_class(elements),
        None => class_of(ty),
    }
}

// The class of a type is known.
fn put_element(alloc: Global, ty: &Ty, out: &mut List<Member>) -> Mem<()>
    ensures { OnOk result (Adds (IsElementGift (field_of ty.now)) out.old out.new) }
{
    match element_class(ty) {
        Some(name) => put(out, Member::Known(name.copy(alloc)?)),
        None => Ok(()),
    }
}

fn put_elements(alloc: Global, types: &[Ty], out: &mut List<Member>) -> Mem<()>
    ensures { OnOk result (Adds (Each types.now (λ ty. IsElementGift (field_of ty))) out.old out.new) }
{
    'types: for ty in types {
        put_element(alloc, ty, out)?;
    }
    Ok(())
}

// The classes of the parameters and of the result are known.
fn put_desc(alloc: Global, desc: &Desc, out: &mut List<Member>) -> Mem<()>
    ensures { OnOk result (Adds (IsOfDesc (method_of desc.now)) out.old out.new) }
{
    put_elements(alloc, desc.params.as_slice(), out)?;
    match &desc.result {
        Some(ty) => put_element(alloc, ty, out),
        None => Ok(()),
    }
}

// The classes of a descriptor are known, where it is one.
fn put_described(alloc: Global, desc: &Name, out: &mut List<Member>) -> Mem<()>
    ensures { OnOk result (Adds (IsDescribedGift desc.now) out.old out.new) }
{
    one_form();
    match read_descriptor(alloc, desc) {
        Ok(desc) => put_desc(alloc, &desc, out),
        Err(TextFault::NoMemory) => Err(AllocError),
        Err(TextFault::Bad(_)) => Ok(()),
    }
}

// Whether a method is there, and is called with a receiver.
fn has_receiver(classes: &Classes, method: &MethodId) -> bool
    ensures { IsTrue result ↔ HasReceiver classes.now method.now }
{
    let Some(class) = classes.read(&method.class) else {
        return false;
    };
    match member_in(class.methods.as_slice(), &method.name, &method.desc) {
        Some(found) => !has_flag(found.flags, STATIC),
        None => false,
    }
}

fn put_receiver(alloc: Global, loaded: &Loaded, entry: &MethodId, out: &mut List<Member>) -> Mem<()>
    ensures { OnOk result (Adds (IsReceiverGift (given loaded.now).classes entry.now) out.old out.new) }
{
    if has_receiver(loaded.classes(), entry) {
        put(out, Member::Made(entry.class.copy(alloc)?))?;
    }
    Ok(())
}

// Whether inputs can have objects of a class.
fn can_have(classes: &Classes, name: &Name) -> bool
    ensures { IsTrue result ↔ CanHave classes.now name.now }
{
    is_made(classes, name)
        || name.as_str() == Builtin::Object.name()
        || name.as_str() == Builtin::String.name()
}

// An object of a class is made, and its class may be initialised.
fn put_object_of(alloc: Global, loaded: &Loaded, name: &Name, out: &mut List<Member>) -> Mem<()>
    ensures { OnOk result (Adds (IsObjectGift (given loaded.now).classes name.now) out.old out.new) }
{
    if can_have(loaded.classes(), name) {
        put(out, Member::Made(name.copy(alloc)?))?;
        put(out, Member::Initialised(name.copy(alloc)?))?;
    }
    Ok(())
}

fn put_object(alloc: Global, loaded: &Loaded, ty: &Ty, out: &mut List<Member>) -> Mem<()>
    ensures { OnOk result (Adds (OfInput (given loaded.now).classes (field_of ty.now)) out.old out.new) }
{
    match class_of(ty) {
        Some(name) => put_object_of(alloc, loaded, name, out),
        None => Ok(()),
    }
}

// What the types of inputs give: their classes are known, and there are objects of them.
fn put_objects(alloc: Global, loaded: &Loaded, types: &[Ty], out: &mut List<Member>) -> Mem<()>
    ensures { OnOk result (Adds (Each types.now (λ ty. OfInput (given loaded.now).classes (field_of ty))) out.old out.new) }
{
    'types: for ty in types {
        put_object(alloc, loaded, ty, out)?;
    }
    Ok(())
}

fn put_inputs(alloc: Global, loaded: &Loaded, job: &Job, out: &mut List<Member>) -> Mem<()>
    ensures { OnOk result (Adds (IsInputGift (given loaded.now).classes job.now) out.old out.new) }
{
    let types = input_types(alloc, loaded.classes(), &job.entry, job.depth)?;
    put_elements(alloc, types.as_slice(), out)?;
    put_objects(alloc, loaded, types.as_slice(), out)
}

/// All that the entry gives.
pub(crate) fn put_entry(
    alloc: Global,
    loaded: &Loaded,
    job: &Job,
    out: &mut List<Member>,
) -> Mem<()>
    ensures { OnOk result (Adds (FromEntry job.now (given loaded.now)) out.old out.new) }
{
    put_root(alloc, &job.entry, out)?;
    put_described(alloc, &job.entry.desc, out)?;
    put_receiver(alloc, loaded, &job.entry, out)?;
    put_inputs(alloc, loaded, job, out)
}
