// What a fact of a method gives.
ghost use Rattle.std.specs.Prelude.{◌≡◌, ◌↔◌, ℕ, IfOk, IsTrue, OnOk, option_copied};
ghost use Rattle.jv_base.specs.declared.method.MethodId.{MethodId as method_id};
ghost use Rattle.bd_scan.specs.declared.fact.Fact.TheVariants as facts;
ghost use Rattle.bd_core.specs.Given.{HasText, constant_in, is_text_at};
ghost use Rattle.bd_core.specs.Rules.{FromFact};
ghost use Rattle.bd_core.specs.Calls.Adds.{Adds, Each, OfSome};
ghost use Rattle.bd_core.specs.Calls.Gives.{IsConstantGift, IsStreamGift, IsReadGift, IsAccessGift, IsUseGift, IsFieldGift, IsReachedGift, FromFacts};
ghost use Rattle.bd_core.specs.Loads.{given};

use crate::answered::{field, resolved, special};
use crate::by_member::put_builtin;
use crate::loaded::Loaded;
use crate::member::Member;
use crate::put::{put, put_declarer, put_target};
use bd_scan::Fact;
use cf_class::{Attribute, Body, ClassFile, member_in};
use cf_code::FieldUse;
use cf_pool::PoolEntry;
use hi_tree::Classes;
use jv_base::{FieldId, List, Mem, MethodId};
use lib_rows::Builtin;
use std::alloc::Global;

fn put_special(
    alloc: Global,
    loaded: &Loaded,
    caller: &MethodId,
    at: &MethodId,
    interface: bool,
    out: &mut List<Member>,
) -> Mem<()>
    ensures { OnOk result ((pc : ℕ) → Adds (FromFact (given loaded.now) caller.now (facts.Special pc at.now interface)) out.old out.new) }
{
    let target = special(alloc, loaded.classes(), &caller.class, at, interface)?;
    put_target(out, target)?;
    put_declarer(out, resolved(alloc, loaded.classes(), at, interface)?)
}

// The method that a static call reaches, and that its class may be initialised.
fn put_reached(alloc: Global, target: Option<MethodId>, out: &mut List<Member>) -> Mem<()>
    ensures { OnOk result (Adds (OfSome target IsReachedGift) out.old out.new) }
{
    match target {
        Some(method) => {
            put(out, Member::Initialised(method.class.copy(alloc)?))?;
            put(out, Member::Method(method))
        }
        None => Ok(()),
    }
}

fn put_static(
    alloc: Global,
    loaded: &Loaded,
    at: &MethodId,
    interface: bool,
    out: &mut List<Member>,
) -> Mem<()>
    ensures { OnOk result ((pc : ℕ) (m : method_id) → Adds (FromFact (given loaded.now) m (facts.Static pc at.now interface)) out.old out.new) }
{
    let target = resolved(alloc, loaded.classes(), at, interface)?;
    put_reached(alloc, target, out)
}

fn put_virtual(
    alloc: Global,
    loaded: &Loaded,
    at: &MethodId,
    interface: bool,
    out: &mut List<Member>,
) -> Mem<()>
    ensures { OnOk result ((pc : ℕ) (m : method_id) → Adds (FromFact (given loaded.now) m (facts.Virtual pc at.now interface)) out.old out.new) }
{
    put(out, Member::Called(at.copy(alloc)?, interface))?;
    put_declarer(out, resolved(alloc, loaded.classes(), at, interface)?)
}

// The index of the first ConstantValue (JVM Specification SE 8, 4.7.2).
fn constant_in(attributes: &[Attribute]) -> Option<u16>
    ensures { result ≡ constant_in attributes.now }
{
    'attributes: for attribute in attributes {
        if let Body::Constant(index) = &attribute.body {
            return Some(*index);
        }
    }
    None
}

// Whether the constant of a field is a String.
fn is_text_at(class: &ClassFile, index: Option<u16>) -> bool
    ensures { result ≡ is_text_at class.now.pool.entries index }
{
    let Some(index) = index else {
        return false;
    };
    matches!(
        class.pool.entries.get(usize::from(index)),
        Some(PoolEntry::Str(_))
    )
}

fn has_text(classes: &Classes, field: &FieldId) -> bool
    ensures { IsTrue result ↔ HasText classes.now field.now }
{
    let Some(class) = classes.read(&field.class) else {
        return false;
    };
    match member_in(class.fields.as_slice(), &field.name, &field.desc) {
        Some(found) => is_text_at(class, constant_in(found.attributes.as_slice())),
        None => false,
    }
}

// The String that the read of a static field gives, where it has a constant.
fn put_constant(
    alloc: Global,
    loaded: &Loaded,
    declared: &FieldId,
    out: &mut List<Member>,
) -> Mem<()>
    ensures { OnOk result (Adds (IsConstantGift (given loaded.now) declared.now) out.old out.new) }
{
    if has_text(loaded.classes(), declared) {
        put_builtin(alloc, Builtin::String, out)?;
    }
    Ok(())
}

// The stream that the read of a field of System gives.
fn put_stream(alloc: Global, declared: &FieldId, out: &mut List<Member>) -> Mem<()>
    ensures { OnOk result (Adds (IsStreamGift declared.now) out.old out.new) }
{
    if declared.class.as_str() == Builtin::System.name() {
        put_builtin(alloc, Builtin::PrintStream, out)?;
    }
    Ok(())
}

// The object that the read of a static field gives.
fn put_read(alloc: Global, loaded: &Loaded, declared: &FieldId, out: &mut List<Member>) -> Mem<()>
    ensures { OnOk result (Adds (IsReadGift (given loaded.now) declared.now) out.old out.new) }
{
    put_constant(alloc, loaded, declared, out)?;
    put_stream(alloc, declared, out)
}

fn put_access(
    alloc: Global,
    loaded: &Loaded,
    access: FieldUse,
    declared: &FieldId,
    out: &mut List<Member>,
) -> Mem<()>
    ensures { OnOk result (Adds (IsAccessGift (given loaded.now) access declared.now) out.old out.new) }
{
    match access {
        FieldUse::GetStatic => put_read(alloc, loaded, declared, out),
        FieldUse::PutStatic | FieldUse::Get | FieldUse::Put => Ok(()),
    }
}

// The class that the use of a static field may initialise.
fn put_use(alloc: Global, access: FieldUse, declared: &FieldId, out: &mut List<Member>) -> Mem<()>
    ensures { OnOk result (Adds (IsUseGift access declared.now) out.old out.new) }
{
    match access {
        FieldUse::GetStatic | FieldUse::PutStatic => {
            put(out, Member::Initialised(declared.class.copy(alloc)?))
        }
        FieldUse::Get | FieldUse::Put => Ok(()),
    }
}

// What the use of a field gives, where there is one.
fn put_used(
    alloc: Global,
    loaded: &Loaded,
    access: FieldUse,
    declared: Option<FieldId>,
    out: &mut List<Member>,
) -> Mem<()>
    ensures { OnOk result (Adds (OfSome declared (IsFieldGift (given loaded.now) access)) out.old out.new) }
{
    match declared {
        Some(field) => {
            put_use(alloc, access, &field, out)?;
            put_access(alloc, loaded, access, &field, out)?;
            put(out, Member::Known(field.class))
        }
        None => Ok(()),
    }
}

fn put_field(
    alloc: Global,
    loaded: &Loaded,
    at: &FieldId,
    access: FieldUse,
    out: &mut List<Member>,
) -> Mem<()>
    ensures { OnOk result ((pc : ℕ) (m : method_id) → Adds (FromFact (given loaded.now) m (facts.Reads pc at.now access)) out.old out.new) }
{
    let declared = field(alloc, loaded.classes(), at)?;
    put_used(alloc, loaded, access, declared, out)
}

// All that a fact of a method gives.
fn put_fact(
    alloc: Global,
    loaded: &Loaded,
    method: &MethodId,
    fact: &Fact,
    out: &mut List<Member>,
) -> Mem<()>
    ensures { OnOk result (Adds (FromFact (given loaded.now) method.now fact.now) out.old out.new) }
{
    match fact {
        Fact::New(_, class) => put(out, Member::Made(class.copy(alloc)?)),
        Fact::Raises(class) => put(out, Member::Made(class.copy(alloc)?)),
        Fact::Literal(class) => put(out, Member::Made(class.copy(alloc)?)),
        Fact::Names(class) => put(out, Member::Known(class.copy(alloc)?)),
        Fact::Init(class) => put(out, Member::Initialised(class.copy(alloc)?)),
        Fact::Special(_, at, interface) => put_special(alloc, loaded, method, at, *interface, out),
        Fact::Static(_, at, interface) => put_static(alloc, loaded, at, *interface, out),
        Fact::Virtual(_, at, interface) => put_virtual(alloc, loaded, at, *interface, out),
        Fact::Reads(_, at, access) => put_field(alloc, loaded, at, *access, out),
        Fact::Refuse(_, _) => Ok(()),
    }
}

fn put_each(
    alloc: Global,
    loaded: &Loaded,
    method: &MethodId,
    facts: &[Fact],
    out: &mut List<Member>,
) -> Mem<()>
    ensures { OnOk result (Adds (Each facts.now (FromFact (given loaded.now) method.now)) out.old out.new) }
{
    'facts: for fact in facts {
        put_fact(alloc, loaded, method, fact, out)?;
    }
    Ok(())
}

/// All that the facts of a method give, where they were given.
pub(crate) fn put_facts(
    alloc: Global,
    loaded: &Loaded,
    method: &MethodId,
    out: &mut List<Member>,
) -> Mem<()>
    ensures { OnOk result (Adds (FromFacts (given loaded.now) method.now) out.old out.new) }
{
    match loaded.facts(method) {
        Some(facts) => put_each(alloc, loaded, method, facts.as_slice(), out),
        None => Ok(()),
    }
}
