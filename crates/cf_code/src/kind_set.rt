// Which faults an instruction can raise.
ghost use Rattle.std.specs.Prelude.{◌≡◌, ◌↔◌, true, IfOk, Contains};
ghost use Rattle.jv_base.specs.declared.method.Kind.{Kind};
ghost use Rattle.cf_code.specs.Kinds.{mask, has, kinds_of, number_raises, array_raises, field_raises, call_raises, object_raises, raises};

use crate::array::{Array, Element};
use crate::call::Call;
use crate::field::FieldUse;
use crate::instr::Instr;
use crate::number::{ArithOp, Num, Number};
use crate::object::Object;
use jv_base::{Kind, List, Mem};
use std::alloc::Global;

const NULL: u8 = 1;

const ZERO: u8 = 2;

const BOUNDS: u8 = 4;

const NEG_SIZE: u8 = 8;

const STORE: u8 = 16;

const CAST: u8 = 32;

const STR_INDEX: u8 = 64;

const ASSERT: u8 = 128;

/// All kinds, in the order of the report.
const KINDS: [Kind; 8] = [
    Kind::Null,
    Kind::Zero,
    Kind::Bounds,
    Kind::NegSize,
    Kind::Store,
    Kind::Cast,
    Kind::StrIndex,
    Kind::Assert,
];

/// A set of kinds of faults, a bit for each.
#[derive(Clone, Copy, Debug, PartialEq, Eq)]
pub struct KindSet {
    bits: u8,
}

impl KindSet {
    pub fn contains(self, kind: Kind) -> bool
        ensures { result ≡ has self kind }
    {
        self.bits & bit_of(kind) > 0
    }

    /// The kinds of the set, each once, in the order of the report.
    pub fn to_list(self, alloc: Global) -> Mem<List<Kind>>
        ensures value { IfOk result (λ kinds. kinds ≡ kinds_of self) }
        ensures members { IfOk result (λ kinds. (kind : Kind) → Contains kinds kind ↔ (has self kind ≡ true)) }
    {
        let mut kinds = Vec::new(alloc);
        for kind in &KINDS {
            if self.contains(*kind) {
                kinds.push(*kind)?;
            }
        }
        Ok(List::from_vec(kinds))
    }
}

/// The bit of a kind.
fn bit_of(kind: Kind) -> u8
    ensures { result ≡ mask kind }
{
    match kind {
        Kind::Null => NULL,
        Kind::Zero => ZERO,
        Kind::Bounds => BOUNDS,
        Kind::NegSize => NEG_SIZE,
        Kind::Store => STORE,
        Kind::Cast => CAST,
        Kind::StrIndex => STR_INDEX,
        Kind::Assert => ASSERT,
    }
}

/// Which faults an instruction can raise by itself (JVM Specification SE 8, 6.5). The faults of a method that it calls
/// are not among them, also not those of a method of the library; and an instruction that is not judged, as on floats,
/// has none.
pub fn kinds(instr: &Instr) -> KindSet
    ensures { (kind : Kind) → has result kind ≡ raises instr.now kind }
{
    match instr {
        Instr::Number(number) => number_kinds(*number),
        Instr::Array(array) => array_kinds(*array),
        Instr::Field(field) => field_kinds(field.access),
        Instr::Call(call) => call_kinds(*call),
        Instr::Object(object) => object_kinds(*object),
        _ => KindSet { bits: 0 },
    }
}

/// The kinds of an instruction on numbers.
fn number_kinds(number: Number) -> KindSet
    ensures { (kind : Kind) → has result kind ≡ number_raises number kind }
{
    match number {
        Number::Arith(ArithOp::Div | ArithOp::Rem, Num::Int | Num::Long) => KindSet { bits: ZERO },
        _ => KindSet { bits: 0 },
    }
}

/// The kinds of an instruction on arrays.
fn array_kinds(array: Array) -> KindSet
    ensures { (kind : Kind) → has result kind ≡ array_raises array kind }
{
    match array {
        Array::Load(Element::Float | Element::Double)
        | Array::Store(Element::Float | Element::Double)
        | Array::NewMany(_, _) => KindSet { bits: 0 },
        Array::Load(_) => KindSet {
            bits: NULL | BOUNDS,
        },
        Array::Store(Element::Reference) => KindSet {
            bits: NULL | BOUNDS | STORE,
        },
        Array::Store(_) => KindSet {
            bits: NULL | BOUNDS,
        },
        Array::New(_) | Array::NewOf(_) => KindSet { bits: NEG_SIZE },
        Array::Length => KindSet { bits: NULL },
    }
}

/// The kinds of an instruction on fields.
fn field_kinds(access: FieldUse) -> KindSet
    ensures { (kind : Kind) → has result kind ≡ field_raises access kind }
{
    match access {
        FieldUse::Get | FieldUse::Put => KindSet { bits: NULL },
        FieldUse::GetStatic | FieldUse::PutStatic => KindSet { bits: 0 },
    }
}

/// The kinds of a call.
fn call_kinds(call: Call) -> KindSet
    ensures { (kind : Kind) → has result kind ≡ call_raises call kind }
{
    match call {
        Call::Virtual(_) | Call::Special(_) | Call::Interface(_, _, _) => KindSet { bits: NULL },
        Call::Static(_) | Call::Dynamic(_, _) => KindSet { bits: 0 },
    }
}

/// The kinds of an instruction on objects.
fn object_kinds(object: Object) -> KindSet
    ensures { (kind : Kind) → has result kind ≡ object_raises object kind }
{
    match object {
        Object::Throw => KindSet {
            bits: NULL | ASSERT,
        },
        Object::CheckCast(_) => KindSet { bits: CAST },
        _ => KindSet { bits: 0 },
    }
}
