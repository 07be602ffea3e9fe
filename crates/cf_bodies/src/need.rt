// What an instruction needs: an entry of the constant pool, or the code of an element type (JVM Specification SE 8, 4.9.1).
ghost use Rattle.std.specs.Prelude.{◌≡◌, ◌↔◌, IsTrue};
ghost use Rattle.cf_judge.specs.Texts.{AreTexts};
ghost use Rattle.cf_bodies.specs.Needs.{constant_need, array_need, call_need, object_need, need, IsOfKind, HasKind, IsMet};

use cf_code::{Array, Call, Constant, Instr, Object};
use cf_judge::{Text, Wanted, plain_class_decided, wrong_index};
use cf_pool::PoolEntry;

/// Which entries of the constant pool an instruction can name.
#[derive(Clone, Copy, Debug, PartialEq, Eq)]
pub enum PoolKind {
    /// A constant of one word: what ldc and ldc_w push.
    OneWord,
    /// A Long or a Double: what ldc2_w pushes.
    TwoWords,
    Field,
    /// A method of a class.
    Method,
    /// A method of a class or of an interface.
    AnyMethod,
    InterfaceMethod,
    /// The call site of an invokedynamic.
    CallSite,
    /// A class or an array.
    Class,
    /// A class that is no array.
    PlainClass,
}

/// What an instruction needs.
#[derive(Clone, Copy, Debug, PartialEq, Eq)]
pub enum Need {
    Nothing,
    /// An entry at an index of the constant pool.
    Pooled(PoolKind, u16),
    /// The code of an element type of arrays.
    ElementType(u8),
}

fn constant_need(constant: Constant) -> Need
    ensures { result ≡ constant_need constant }
{
    match constant {
        Constant::Ldc(index) => Need::Pooled(PoolKind::OneWord, u16::from(index)),
        Constant::LdcW(index) => Need::Pooled(PoolKind::OneWord, index),
        Constant::Ldc2W(index) => Need::Pooled(PoolKind::TwoWords, index),
        _ => Need::Nothing,
    }
}

fn array_need(array: Array) -> Need
    ensures { result ≡ array_need array }
{
    match array {
        Array::New(code) => Need::ElementType(code),
        Array::NewOf(index) | Array::NewMany(index, _) => Need::Pooled(PoolKind::Class, index),
        _ => Need::Nothing,
    }
}

fn call_need(call: Call) -> Need
    ensures { result ≡ call_need call }
{
    match call {
        Call::Virtual(index) => Need::Pooled(PoolKind::Method, index),
        Call::Special(index) | Call::Static(index) => Need::Pooled(PoolKind::AnyMethod, index),
        Call::Interface(index, _, _) => Need::Pooled(PoolKind::InterfaceMethod, index),
        Call::Dynamic(index, _) => Need::Pooled(PoolKind::CallSite, index),
    }
}

fn object_need(object: Object) -> Need
    ensures { result ≡ object_need object }
{
    match object {
        Object::New(index) => Need::Pooled(PoolKind::PlainClass, index),
        Object::CheckCast(index) | Object::InstanceOf(index) => {
            Need::Pooled(PoolKind::Class, index)
        }
        _ => Need::Nothing,
    }
}

/// What an instruction needs.
pub fn need_of(instr: &Instr) -> Need
    ensures { result ≡ need instr.now }
{
    match instr {
        Instr::Constant(constant) => constant_need(*constant),
        Instr::Array(array) => array_need(*array),
        Instr::Field(field) => Need::Pooled(PoolKind::Field, field.index),
        Instr::Call(call) => call_need(*call),
        Instr::Object(object) => object_need(*object),
        _ => Need::Nothing,
    }
}

fn is_one_word(entry: &PoolEntry) -> bool
    ensures { IsTrue result ↔ IsOfKind PoolKind.OneWord entry.now }
{
    match entry {
        PoolEntry::Integer(_) | PoolEntry::Float(_) | PoolEntry::Class(_) | PoolEntry::Str(_) => {
            true
        }
        PoolEntry::MethodHandle(_, _) | PoolEntry::MethodType(_) => true,
        _ => false,
    }
}

/// Whether an entry is of a kind, but for the question whether a class is an array.
fn is_of_kind(entry: &PoolEntry, kind: PoolKind) -> bool
    ensures { IsTrue result ↔ IsOfKind kind entry.now }
{
    match kind {
        PoolKind::OneWord => is_one_word(entry),
        PoolKind::TwoWords => matches!(entry, PoolEntry::Long(_) | PoolEntry::Double(_)),
        PoolKind::Field => matches!(entry, PoolEntry::Field(_, _)),
        PoolKind::Method => matches!(entry, PoolEntry::Method(_, _)),
        PoolKind::AnyMethod => matches!(
            entry,
            PoolEntry::Method(_, _) | PoolEntry::InterfaceMethod(_, _)
        ),
        PoolKind::InterfaceMethod => matches!(entry, PoolEntry::InterfaceMethod(_, _)),
        PoolKind::CallSite => matches!(entry, PoolEntry::InvokeDynamic(_, _)),
        PoolKind::Class | PoolKind::PlainClass => matches!(entry, PoolEntry::Class(_)),
    }
}

/// Whether an entry of that kind stands at the index. The texts are those of the pool.
fn has_kind(pool: &[PoolEntry], texts: &[Option<Text>], kind: PoolKind, index: u16) -> bool
    requires { AreTexts pool.now texts.now }
    ensures { IsTrue result ↔ HasKind pool.now kind index }
{
    plain_class_decided();
    match (kind, pool.get(usize::from(index))) {
        (PoolKind::PlainClass, _) => {
            wrong_index(pool, texts, Wanted::PlainClass, index).is_none()
        }
        (_, Some(entry)) => is_of_kind(entry, kind),
        (_, None) => false,
    }
}

/// Whether there is what is needed: an entry of its kind at the index, the code of an element type (6.5, newarray). The texts
/// are those of the pool.
pub fn is_met(pool: &[PoolEntry], texts: &[Option<Text>], need: Need) -> bool
    requires { AreTexts pool.now texts.now }
    ensures { IsTrue result ↔ IsMet pool.now need }
{
    match need {
        Need::Nothing => true,
        Need::Pooled(kind, index) => has_kind(pool, texts, kind, index),
        Need::ElementType(code) => 4 <= code && code <= 11,
    }
}
