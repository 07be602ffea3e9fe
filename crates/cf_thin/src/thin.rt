// The thin method of a class file.
ghost use Rattle.std.specs.Prelude.{◌≡◌, codes, List as list_of, ℕ, IfOk, IfSome, IfNone, IsTrue, ◌↔◌, ◌≢◌, MatchOption};
ghost use Rattle.std.specs.List.{AllByRecursion};
ghost use Rattle.cf_class.specs.declared.code.Code.{Code as code_type};
ghost use Rattle.cf_class.specs.declared.member.Member.{Member as member_type};
ghost use Rattle.cf_thin.specs.Thin.{IsThinClass, IsPlainStatic, IsCodeOfEntry, HasThinCode, Thin};

use crate::descriptor::int_signature;
use crate::instr::{ThinInstr, places_of_code};
use crate::thin_code::is_thin_code;
use cf_class::{ClassFile, Code, Member, code_in, member_in};
use jv_base::{List, Mem, MethodId, Name};
use std::alloc::Global;

const STATIC: u16 = 0x0008;

const NATIVE: u16 = 0x0100;

const ABSTRACT: u16 = 0x0400;

/// A thin method: its code, with a place for each of its bytes, where an instruction stands at its opcode with how many
/// bytes it has; and how many locals a frame of it has.
#[derive(Debug, Drop)]
pub struct ThinMethod {
    pub code: List<Option<(ThinInstr, u16)>>,
    pub max_locals: u16,
}

/// Whether a method initializes its class or interface (JVM Specification SE 8, 2.9).
fn is_initializer(method: &Member) -> bool
    ensures { IsTrue result ↔ (method.now.name.name ≡ codes "<clinit>") }
{
    method.name.name.as_str() == "<clinit>"
}

fn lacks_initializer(methods: &[Member]) -> bool
    ensures { IsTrue result ↔ AllByRecursion (λ (m : member_type). m.name.name ≢ codes "<clinit>") methods.now }
{
    for method in methods {
        if is_initializer(method) {
            return false;
        }
    }
    true
}

fn is_thin_class(class: &ClassFile, name: &Name) -> bool
    ensures { IsTrue result ↔ IsThinClass class.now name.now }
{
    class.this_class.name.equals(name)
        && class.super_class.name.as_str() == "java/lang/Object"
        && class.interfaces.is_empty()
        && lacks_initializer(class.methods.as_slice())
}

fn is_plain_static(access: u16) -> bool
    ensures { IsTrue result ↔ IsPlainStatic access }
{
    access & STATIC != 0 && access & NATIVE == 0 && access & ABSTRACT == 0
}

/// The code of the entry's method, where it may be thin.
fn code_of_entry<'c>(class: &'c ClassFile, entry: &MethodId) -> Option<&'c Code>
    ensures { MatchOption result ((code : code_type) → IsCodeOfEntry class.now entry.now code → ⊥) (λ code. IsCodeOfEntry class.now entry.now code.now) }
{
    if !is_thin_class(class, &entry.class) {
        return None;
    }
    let method = member_in(class.methods.as_slice(), &entry.name, &entry.desc)?;
    if !is_plain_static(method.flags) {
        return None;
    }
    let code = code_in(method.attributes.as_slice())?;
    if code.rows.is_empty() {
        Some(code)
    } else {
        None
    }
}

/// The thin method that code is, of a method with this descriptor.
fn thin_method(alloc: Global, desc: &Name, code: &Code) -> Mem<Option<ThinMethod>>
    ensures found { IfOk result (λ o. IfSome o (λ m. HasThinCode desc.now code.now m)) }
    ensures none { IfOk result (λ o. IfNone o ((m : ThinMethod) → HasThinCode desc.now code.now m → ⊥)) }
{
    let Some(signature) = int_signature(desc.as_str().as_bytes(), code.max_locals) else {
        return Ok(None);
    };
    let places = places_of_code(alloc, code.code.as_slice())?;
    if places.length() > 65535 {
        return Ok(None);
    }
    if !is_thin_code(
        alloc,
        places.as_slice(),
        signature.params,
        signature.gives_int,
        code.max_stack,
        code.max_locals,
    )? {
        return Ok(None);
    }
    Ok(Some(ThinMethod {
        code: places,
        max_locals: code.max_locals,
    }))
}

/// The thin method that a class file has under the entry's class, name and descriptor.
pub fn read_thin(alloc: Global, class: &ClassFile, entry: &MethodId) -> Mem<Option<ThinMethod>>
    ensures found { IfOk result (λ o. IfSome o (λ m. Thin class.now entry.now m)) }
    ensures none { IfOk result (λ o. IfNone o ((m : ThinMethod) → Thin class.now entry.now m → ⊥)) }
{
    match code_of_entry(class, entry) {
        Some(code) => thin_method(alloc, &entry.desc, code),
        None => Ok(None),
    }
}
