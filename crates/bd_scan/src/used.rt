// What an instruction makes, calls and uses by its operands, and what of these is not supported.
ghost use Rattle.std.specs.Prelude.{◌≡◌, ◌++◌, ◌∷◌, Some, slice_get, OnOk};
ghost use Rattle.lib_rows.specs.Classes.{class_name};
ghost use Rattle.lib_rows.specs.declared.class.Builtin.TheVariants.{String as string_class};
ghost use Rattle.bd_scan.specs.declared.fact.Fact.{Fact};
ghost use Rattle.bd_scan.specs.Facts.{float_if, is_long, refuses_literal, constant_facts, pushed_index};
ghost use Rattle.bd_scan.specs.Facts.{object_uses, field_uses, refuses_field, refuses_array, instr_uses};
ghost use Rattle.bd_scan.specs.Facts.{refuses_operand};
ghost use Rattle.bd_scan.specs.Facts.{call_index, call_fact, called, call_uses, refuses_method, refuses_call};
ghost use Rattle.bd_scan.specs.Pool.{units_at, field_at, method_at};

use crate::descriptor::has_float;
use crate::fact::{Fact, Why};
use crate::pool::{class_at, field_at, method_at, units_at};
use cf_code::{Array, Call, Constant, Field, Instr, Object, Placed};
use cf_pool::PoolEntry;
use jv_base::{List, Mem, MethodId, Name};
use lib_rows::Builtin;
use std::alloc::Global;

/// A string literal has at most so many units.
const LONGEST_LITERAL: usize = 1000;

/// The codes of float and double as elements of an array (JVM Specification SE 8, 6.5, newarray).
const FLOATS: u8 = 6;

const DOUBLES: u8 = 7;

/// Puts the refusal of a float or a double at the end, where there is one.
pub(crate) fn put_float(facts: &mut List<Fact>, pc: u16, float: bool) -> Mem<()>
    ensures { OnOk result (facts.new ≡ facts.old ++ float_if pc float) }
{
    if float {
        facts.add(Fact::Refuse(pc, Why::Float))
    } else {
        Ok(())
    }
}

/// The index of the constant that an instruction pushes.
fn pushed_index(constant: Constant) -> Option<u16>
    ensures { result ≡ pushed_index constant }
{
    match constant {
        Constant::Ldc(index) => Some(u16::from(index)),
        Constant::LdcW(index) | Constant::Ldc2W(index) => Some(index),
        _ => None,
    }
}

/// Whether the text at an index is too long for a literal.
fn is_long(pool: &[PoolEntry], index: u16) -> bool
    ensures { result ≡ is_long (units_at pool.now index) }
{
    match units_at(pool, index) {
        Some(units) => units.len() > LONGEST_LITERAL,
        None => false,
    }
}

/// Puts what a string is at the end.
fn put_string(alloc: Global, facts: &mut List<Fact>, pc: u16, long: bool) -> Mem<()>
    ensures { OnOk result (facts.new ≡ facts.old ++ Fact.Literal (class_name string_class) ∷ refuses_literal pc long) }
{
    facts.add(Fact::Literal(Name::from_text(alloc, Builtin::String.name())?))?;
    if long {
        facts.add(Fact::Refuse(pc, Why::Literal))
    } else {
        Ok(())
    }
}

/// Puts what a constant is that an instruction pushes at the end.
fn put_entry(
    alloc: Global,
    facts: &mut List<Fact>,
    pool: &[PoolEntry],
    pc: u16,
    entry: &PoolEntry,
) -> Mem<()>
    ensures { OnOk result (facts.new ≡ facts.old ++ constant_facts pool.now pc (Some entry.now)) }
{
    match entry {
        PoolEntry::Str(text) => put_string(alloc, facts, pc, is_long(pool, *text)),
        PoolEntry::Class(_) => {
            facts.add(Fact::Literal(Name::from_text(alloc, Builtin::Class.name())?))
        }
        PoolEntry::Float(_)
        | PoolEntry::Double(_)
        | PoolEntry::MethodHandle(_, _)
        | PoolEntry::MethodType(_) => facts.add(Fact::Refuse(pc, Why::Constant)),
        _ => Ok(()),
    }
}

/// Puts what the constant at an index is, which an instruction pushes, at the end.
fn put_constant(
    alloc: Global,
    facts: &mut List<Fact>,
    pool: &[PoolEntry],
    pc: u16,
    index: u16,
) -> Mem<()>
    ensures { OnOk result (facts.new ≡ facts.old
        ++ constant_facts pool.now pc (slice_get pool.now index)) }
{
    match pool.get(usize::from(index)) {
        Some(entry) => put_entry(alloc, facts, pool, pc, entry),
        None => Ok(()),
    }
}

/// Puts the field that an instruction uses at the end.
fn put_field(
    alloc: Global,
    facts: &mut List<Fact>,
    pool: &[PoolEntry],
    pc: u16,
    field: Field,
) -> Mem<()>
    ensures { OnOk result (facts.new ≡ facts.old ++ field_uses pool.now pc field
        ++ refuses_field pc (field_at pool.now field.index)) }
{
    let Some(id) = field_at(alloc, pool, field.index)? else {
        return Ok(());
    };
    let float = has_float(id.desc.as_str().as_bytes());
    facts.add(Fact::Reads(pc, id, field.access))?;
    put_float(facts, pc, float)
}

/// The index of the method that is called; invokedynamic names none.
fn call_index(call: Call) -> Option<u16>
    ensures { result ≡ call_index call }
{
    match call {
        Call::Virtual(index)
        | Call::Special(index)
        | Call::Static(index)
        | Call::Interface(index, _, _) => Some(index),
        Call::Dynamic(_, _) => None,
    }
}

fn call_fact(call: Call, pc: u16, method: MethodId, interface: bool) -> Fact
    ensures { result ≡ call_fact call pc method interface }
{
    match call {
        Call::Special(_) => Fact::Special(pc, method, interface),
        Call::Static(_) => Fact::Static(pc, method, interface),
        _ => Fact::Virtual(pc, method, interface),
    }
}

/// Puts the method that is called, which stands at the index, at the end.
fn put_method(
    alloc: Global,
    facts: &mut List<Fact>,
    pool: &[PoolEntry],
    pc: u16,
    call: Call,
    index: u16,
) -> Mem<()>
    ensures { OnOk result (facts.new ≡ facts.old ++ called (call_fact call pc) (method_at pool.now index)
        ++ refuses_method pc (method_at pool.now index)) }
{
    let Some((method, interface)) = method_at(alloc, pool, index)? else {
        return Ok(());
    };
    let float = has_float(method.desc.as_str().as_bytes());
    facts.add(call_fact(call, pc, method, interface))?;
    put_float(facts, pc, float)
}

/// Puts the method that is called at the end.
fn put_call(
    alloc: Global,
    facts: &mut List<Fact>,
    pool: &[PoolEntry],
    pc: u16,
    call: Call,
) -> Mem<()>
    ensures { OnOk result (facts.new ≡ facts.old ++ call_uses pool.now pc call ++ refuses_call pool.now pc call) }
{
    match call_index(call) {
        Some(index) => put_method(alloc, facts, pool, pc, call, index),
        None => Ok(()),
    }
}

/// Puts the object that is made at the end, and the class that is initialised.
fn put_object(
    alloc: Global,
    facts: &mut List<Fact>,
    pool: &[PoolEntry],
    pc: u16,
    object: Object,
) -> Mem<()>
    ensures { OnOk result (facts.new ≡ facts.old ++ object_uses pool.now pc object) }
{
    let Object::New(index) = object else {
        return Ok(());
    };
    let Some(class) = class_at(alloc, pool, index)? else {
        return Ok(());
    };
    facts.add(Fact::New(pc, class.copy(alloc)?))?;
    facts.add(Fact::Init(class))
}

/// Puts the refusal of an array of floats or doubles at the end.
fn put_array(facts: &mut List<Fact>, pc: u16, array: Array) -> Mem<()>
    ensures { OnOk result (facts.new ≡ facts.old ++ refuses_array pc array) }
{
    match array {
        Array::New(code) => put_float(facts, pc, code == FLOATS || code == DOUBLES),
        _ => Ok(()),
    }
}

/// Puts at the end what an instruction makes, calls and uses, and what of its operands is not supported.
pub(crate) fn put_operands(
    alloc: Global,
    facts: &mut List<Fact>,
    pool: &[PoolEntry],
    placed: &Placed,
) -> Mem<()>
    ensures { OnOk result (facts.new ≡ facts.old ++ instr_uses pool.now placed.now.pc placed.now.instr
        ++ refuses_operand pool.now placed.now.pc placed.now.instr) }
{
    let pc = placed.pc;
    match &placed.instr {
        Instr::Constant(constant) => match pushed_index(*constant) {
            Some(index) => put_constant(alloc, facts, pool, pc, index),
            None => Ok(()),
        },
        Instr::Array(array) => put_array(facts, pc, *array),
        Instr::Field(field) => put_field(alloc, facts, pool, pc, *field),
        Instr::Call(call) => put_call(alloc, facts, pool, pc, *call),
        Instr::Object(object) => put_object(alloc, facts, pool, pc, *object),
        _ => Ok(()),
    }
}
