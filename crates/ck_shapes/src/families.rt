// What each instruction does to a shape (JVM Specification SE 8, 6.5, "Operand Stack"), by families. None for one that is
// not in the profile.
ghost use Rattle.std.specs.Prelude.{◌≡◌, ◌++◌, ◌∷◌, [], Some, IfOk, option_map};
ghost use Rattle.ck_shapes.specs.declared.effect.Effect.{Effect};
ghost use Rattle.ck_shapes.specs.Effects.{pushing, taking, constant_type, local_effect, array_effect, moving, stack_move};
ghost use Rattle.ck_shapes.specs.Effects.{arith_takes, conversion_effect, number_effect, jump_takes, return_takes};
ghost use Rattle.ck_shapes.specs.Effects.{use_effect, field_effect, receiver, called_signature, call_effect};
ghost use Rattle.ck_shapes.specs.Effects.{object_effect, instr_effect};

use crate::effect::{Effect, Move};
use crate::shape::ValueType;
use crate::signature::{Signature, field_type, read_signature};
use crate::types::{constant_type, element_type, index_of, num_type, whole_type, word_type};
use bd_scan::{field_at, method_at};
use cf_code::{
    ArithOp, Array, Call, Comparison, Conversion, Field, FieldUse, Instr, Jump, Local, Number,
    Object, Returned, StackMove, Word,
};
use cf_pool::PoolEntry;
use jv_list::{List, Mem};
use std::alloc::Global;

const INT: ValueType = ValueType::Int;

const LONG: ValueType = ValueType::Long;

const REFERENCE: ValueType = ValueType::Reference;

/// Values of some types are popped, and values of others pushed.
fn replaces(alloc: Global, takes: &[ValueType], leaves: &[ValueType]) -> Mem<Option<Effect>>
    ensures { IfOk result (λ o. o ≡ Some (Effect.Replaces takes.now leaves.now)) }
{
    let takes = List::copied(alloc, takes)?;
    let leaves = List::copied(alloc, leaves)?;
    Ok(Some(Effect::Replaces(takes, leaves)))
}

/// A value is pushed, if it has a type.
fn pushing(alloc: Global, of: Option<ValueType>) -> Mem<Option<Effect>>
    ensures { IfOk result (λ o. o ≡ pushing of) }
{
    match of {
        Some(of) => replaces(alloc, &[], &[of]),
        None => Ok(None),
    }
}

/// What an instruction on a local does.
fn local_effect(local: Local) -> Option<Effect>
    ensures { result ≡ local_effect local }
{
    match local {
        Local::Load(word, index) => Some(Effect::Loads(word_type(word)?, index_of(index))),
        Local::Store(word, index) => Some(Effect::Stores(word_type(word)?, index_of(index))),
        Local::Iinc(index, _) => Some(Effect::Increments(u16::from(index))),
        Local::IincWide(index, _) => Some(Effect::Increments(index)),
        Local::Ret(_) | Local::RetWide(_) => None,
    }
}

/// What an instruction on arrays does.
fn array_effect(alloc: Global, array: Array) -> Mem<Option<Effect>>
    ensures { IfOk result (λ o. o ≡ array_effect array) }
{
    match array {
        Array::Load(element) => match element_type(element) {
            Some(of) => replaces(alloc, &[REFERENCE, INT], &[of]),
            None => Ok(None),
        },
        Array::Store(element) => match element_type(element) {
            Some(of) => replaces(alloc, &[REFERENCE, INT, of], &[]),
            None => Ok(None),
        },
        Array::New(_) | Array::NewOf(_) => replaces(alloc, &[INT], &[REFERENCE]),
        Array::Length => replaces(alloc, &[REFERENCE], &[INT]),
        Array::NewMany(_, _) => Ok(None),
    }
}

/// A move: so many words on top, so many under them, and whether those of the top are put below and above these.
fn moving(top: u8, under: u8, puts_below: bool, puts_above: bool) -> Move
    ensures { result ≡ moving top under puts_below puts_above }
{
    Move {
        top,
        under,
        puts_below,
        puts_above,
    }
}

/// How the words on the stack are moved.
fn stack_move(of: StackMove) -> Move
    ensures { result ≡ stack_move of }
{
    match of {
        StackMove::Pop => moving(1, 0, false, false),
        StackMove::Pop2 => moving(2, 0, false, false),
        StackMove::Dup => moving(1, 0, true, true),
        StackMove::DupX1 => moving(1, 1, true, true),
        StackMove::DupX2 => moving(1, 2, true, true),
        StackMove::Dup2 => moving(2, 0, true, true),
        StackMove::Dup2X1 => moving(2, 1, true, true),
        StackMove::Dup2X2 => moving(2, 2, true, true),
        StackMove::Swap => moving(1, 1, true, false),
    }
}

/// What arithmetic does on numbers of a type: a negation takes one, the others two.
fn arith_effect(alloc: Global, op: ArithOp, of: ValueType) -> Mem<Option<Effect>>
    ensures { IfOk result (λ o. o ≡ Some (Effect.Replaces (arith_takes op of) (of ∷ []))) }
{
    match op {
        ArithOp::Neg => replaces(alloc, &[of], &[of]),
        _ => replaces(alloc, &[of, of], &[of]),
    }
}

/// What a conversion does.
fn conversion_effect(alloc: Global, of: Conversion) -> Mem<Option<Effect>>
    ensures { IfOk result (λ o. o ≡ conversion_effect of) }
{
    match of {
        Conversion::IntToLong => replaces(alloc, &[INT], &[LONG]),
        Conversion::LongToInt => replaces(alloc, &[LONG], &[INT]),
        Conversion::IntToByte | Conversion::IntToChar | Conversion::IntToShort => {
            replaces(alloc, &[INT], &[INT])
        }
        _ => Ok(None),
    }
}

/// What an instruction on numbers does.
fn number_effect(alloc: Global, number: Number) -> Mem<Option<Effect>>
    ensures { IfOk result (λ o. o ≡ number_effect number) }
{
    match number {
        Number::Arith(op, num) => match num_type(num) {
            Some(of) => arith_effect(alloc, op, of),
            None => Ok(None),
        },
        Number::Shift(_, whole) => {
            let of = whole_type(whole);
            replaces(alloc, &[of, INT], &[of])
        }
        Number::Bitwise(_, whole) => {
            let of = whole_type(whole);
            replaces(alloc, &[of, of], &[of])
        }
        Number::Convert(conversion) => conversion_effect(alloc, conversion),
        Number::Compare(Comparison::CompareLong) => replaces(alloc, &[LONG, LONG], &[INT]),
        Number::Compare(_) => Ok(None),
    }
}

/// What a jump does.
fn jump_effect(alloc: Global, jump: Jump) -> Mem<Option<Effect>>
    ensures { IfOk result (λ o. o ≡ taking (jump_takes jump)) }
{
    match jump {
        Jump::IfZero(_, _) => replaces(alloc, &[INT], &[]),
        Jump::IfInts(_, _) => replaces(alloc, &[INT, INT], &[]),
        Jump::IfReferences(_, _) => replaces(alloc, &[REFERENCE, REFERENCE], &[]),
        Jump::IfNull(_, _) => replaces(alloc, &[REFERENCE], &[]),
        Jump::Goto(_) | Jump::GotoW(_) => replaces(alloc, &[], &[]),
        Jump::Jsr(_) | Jump::JsrW(_) => Ok(None),
    }
}

/// What a return does in a method with this result.
fn return_effect(alloc: Global, of: Option<ValueType>, returned: Returned) -> Mem<Option<Effect>>
    ensures { IfOk result (λ o. o ≡ taking (return_takes of returned)) }
{
    match (of, returned) {
        (None, Returned::Nothing) => replaces(alloc, &[], &[]),
        (Some(ValueType::Int), Returned::Value(Word::Int)) => replaces(alloc, &[INT], &[]),
        (Some(ValueType::Long), Returned::Value(Word::Long)) => replaces(alloc, &[LONG], &[]),
        (Some(ValueType::Reference), Returned::Value(Word::Reference)) => {
            replaces(alloc, &[REFERENCE], &[])
        }
        _ => Ok(None),
    }
}

/// What a use of a field of a type does.
fn use_effect(alloc: Global, access: FieldUse, of: ValueType) -> Mem<Option<Effect>>
    ensures { IfOk result (λ o. o ≡ Some (use_effect access of)) }
{
    match access {
        FieldUse::GetStatic => replaces(alloc, &[], &[of]),
        FieldUse::PutStatic => replaces(alloc, &[of], &[]),
        FieldUse::Get => replaces(alloc, &[REFERENCE], &[of]),
        FieldUse::Put => replaces(alloc, &[REFERENCE, of], &[]),
    }
}

/// What an instruction on a field does.
fn field_effect(alloc: Global, pool: &[PoolEntry], field: Field) -> Mem<Option<Effect>>
    ensures { IfOk result (λ o. o ≡ field_effect pool.now field) }
{
    let Some(found) = field_at(alloc, pool, field.index)? else {
        return Ok(None);
    };
    match field_type(found.desc.as_str().as_bytes()) {
        Some(of) => use_effect(alloc, field.access, of),
        None => Ok(None),
    }
}

/// The types of the method that is called.
fn called_signature(alloc: Global, pool: &[PoolEntry], call: Call) -> Mem<Option<Signature>>
    ensures { IfOk result (λ o. o ≡ called_signature pool.now call) }
{
    let index = match call {
        Call::Virtual(index) | Call::Special(index) | Call::Static(index) => index,
        Call::Interface(index, _, _) => index,
        Call::Dynamic(_, _) => return Ok(None),
    };
    match method_at(alloc, pool, index)? {
        Some((method, _)) => read_signature(alloc, method.desc.as_str().as_bytes()),
        None => Ok(None),
    }
}

/// The object on which a method is called, and the parameters.
fn arguments(alloc: Global, call: Call, parameters: &[ValueType]) -> Mem<List<ValueType>>
    ensures { IfOk result (λ ts. ts ≡ receiver call ++ parameters.now) }
{
    let mut arguments = List::new(alloc);
    match call {
        Call::Static(_) => {}
        _ => arguments.add(REFERENCE)?,
    }
    arguments.extend(parameters)?;
    Ok(arguments)
}

/// What a call does.
fn call_effect(alloc: Global, pool: &[PoolEntry], call: Call) -> Mem<Option<Effect>>
    ensures { IfOk result (λ o. o ≡ call_effect pool.now call) }
{
    let Some(types) = called_signature(alloc, pool, call)? else {
        return Ok(None);
    };
    let takes = arguments(alloc, call, types.parameters.as_slice())?;
    match types.result {
        Some(of) => replaces(alloc, takes.as_slice(), &[of]),
        None => replaces(alloc, takes.as_slice(), &[]),
    }
}

/// What an instruction on an object does.
fn object_effect(alloc: Global, object: Object) -> Mem<Option<Effect>>
    ensures { IfOk result (λ o. o ≡ object_effect object) }
{
    match object {
        Object::New(_) => replaces(alloc, &[], &[REFERENCE]),
        Object::Throw => replaces(alloc, &[REFERENCE], &[]),
        Object::CheckCast(_) => replaces(alloc, &[REFERENCE], &[REFERENCE]),
        Object::InstanceOf(_) => replaces(alloc, &[REFERENCE], &[INT]),
        Object::MonitorEnter | Object::MonitorExit => Ok(None),
    }
}

/// What an instruction does to a shape, in a method with this result.
pub(crate) fn instr_effect(
    alloc: Global,
    pool: &[PoolEntry],
    of: Option<ValueType>,
    instr: &Instr,
) -> Mem<Option<Effect>>
    ensures { IfOk result (λ o. o ≡ instr_effect pool.now of instr.now) }
{
    match instr {
        Instr::Nop => replaces(alloc, &[], &[]),
        Instr::Constant(constant) => pushing(alloc, constant_type(pool, *constant)),
        Instr::Local(local) => Ok(local_effect(*local)),
        Instr::Array(array) => array_effect(alloc, *array),
        Instr::Stack(stack) => Ok(Some(Effect::Moves(stack_move(*stack)))),
        Instr::Number(number) => number_effect(alloc, *number),
        Instr::Jump(jump) => jump_effect(alloc, *jump),
        Instr::Table(_) | Instr::Lookup(_) => replaces(alloc, &[INT], &[]),
        Instr::Return(returned) => return_effect(alloc, of, *returned),
        Instr::Field(field) => field_effect(alloc, pool, *field),
        Instr::Call(call) => call_effect(alloc, pool, *call),
        Instr::Object(object) => object_effect(alloc, *object),
    }
}
