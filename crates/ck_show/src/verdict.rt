// What is told of a method.
ghost use Rattle.std.specs.Prelude.{◌≡◌, IsTrue, IsFalse, IfOk, is_none};
ghost use Rattle.std.specs.List.{AllZip};
ghost use Rattle.ck_shapes.specs.Methods.{HasNoShapes};
ghost use Rattle.ck_show.specs.Verdicts.{is_refusal, is_outside, code_of, HasShapes, IsVerdict, IsTold};

use bd_scan::{Fact, scan};
use cf_class::{ClassFile, Member, code_in, member_in};
use ck_shapes::{ShapeFault, check_shapes};
use jv_base::{List, Mem, MethodId};
use std::alloc::{AllocError, Global};

/// Whether a method has shapes.
#[derive(Clone, Copy, Debug, PartialEq, Eq)]
pub enum Verdict {
    NoCode,
    /// It uses what is not supported.
    Outside,
    Shapes,
    NoShapes,
}

/// A method, and what is told of it.
#[derive(Debug, Drop)]
pub struct Told {
    pub method: MethodId,
    pub verdict: Verdict,
}

fn is_refusal(fact: &Fact) -> bool
    ensures { result ≡ is_refusal fact.now }
{
    matches!(fact, Fact::Refuse(_, _))
}

// Whether a method uses what is not supported.
fn is_outside(alloc: Global, class: &ClassFile, method: &MethodId) -> Mem<bool>
    ensures { IfOk result (λ is. is ≡ is_outside class.now method.now) }
{
    let facts = scan(alloc, class, method)?;
    Ok(facts.as_slice().iter().any(is_refusal))
}

fn lacks_code(class: &ClassFile, method: &MethodId) -> bool
    ensures { result ≡ is_none (code_of class.now method.now) }
{
    match member_in(class.methods.as_slice(), &method.name, &method.desc) {
        Some(member) => code_in(member.attributes.as_slice()).is_none(),
        None => true,
    }
}

fn has_shapes(alloc: Global, class: &ClassFile, method: &MethodId) -> Mem<bool>
    ensures yes { IfOk result (λ has. IsTrue has → HasShapes class.now method.now) }
    ensures no { IfOk result (λ has. IsFalse has → HasNoShapes class.now method.now) }
{
    match check_shapes(alloc, class, method) {
        Ok(_) => Ok(true),
        Err(ShapeFault::BadCode) => Ok(false),
        Err(ShapeFault::NoMemory) => Err(AllocError),
    }
}

fn verdict_of(alloc: Global, class: &ClassFile, method: &MethodId) -> Mem<Verdict>
    ensures { IfOk result (IsVerdict class.now method.now) }
{
    if lacks_code(class, method) {
        Ok(Verdict::NoCode)
    } else if is_outside(alloc, class, method)? {
        Ok(Verdict::Outside)
    } else if has_shapes(alloc, class, method)? {
        Ok(Verdict::Shapes)
    } else {
        Ok(Verdict::NoShapes)
    }
}

fn told_of(alloc: Global, class: &ClassFile, member: &Member) -> Mem<Told>
    ensures { IfOk result (IsTold class.now member.now) }
{
    let method = MethodId {
        class: class.this_class.name.copy(alloc)?,
        name: member.name.name.copy(alloc)?,
        desc: member.desc.name.copy(alloc)?,
    };
    let verdict = verdict_of(alloc, class, &method)?;
    Ok(Told { method, verdict })
}

/// What is told of methods of a class, in their order.
pub fn all_told(alloc: Global, class: &ClassFile, members: &[Member]) -> Mem<List<Told>>
    ensures { IfOk result (λ told. AllZip (IsTold class.now) members.now told) }
{
    let mut told = List::with_capacity(alloc, members.len())?;
    for member in members {
        told.add(told_of(alloc, class, member)?)?;
    }
    Ok(told)
}
