// The choice of a row, and the call of it.
ghost use Rattle.std.specs.Prelude.{◌≡◌, IfOk, OnErr};
ghost use Rattle.vm_lib.specs.Called.{alone, of_int, with_int, with_long, with_reference, with_ints, of_one, of_two, of_three, planned, called};

use crate::builder::{
    append_boolean, append_char, append_int, append_text, builder_char_at, builder_length, init,
    init_text, to_string,
};
use crate::object::same_object;
use crate::plain::{assertion_status, object_init, print, takes_reference, takes_text, throwable};
use crate::plan::{Effect, Plan, carry_out};
use crate::string::{
    char_at, compare_to, concat, ends_with, equals, index_of, is_empty, length, of_boolean,
    of_char, of_int as text_of_int, starts_with, substring, tail,
};
use jv_base::{List, Mem, Value};
use lib_rows::LibMethod;
use std::alloc::Global;
use vm_world::{Heap, State};

fn alone(alloc: Global, row: LibMethod, heap: &Heap, bound: u8, object: Value) -> Mem<Plan>
    ensures { IfOk result (λ plan. plan ≡ alone row heap.now bound object) }
{
    let effect = match row {
        LibMethod::BuilderInit => return Ok(init(heap, alloc, object)),
        LibMethod::BuilderToString => return to_string(heap, alloc, bound, object),
        LibMethod::ObjectInit => object_init(heap, object),
        LibMethod::ThrowableInit | LibMethod::AssertionInit => {
            throwable(heap, object, Effect::Gives(None))
        }
        LibMethod::StringLength => length(heap, object),
        LibMethod::StringIsEmpty => is_empty(heap, object),
        LibMethod::BuilderLength => builder_length(heap, object),
        LibMethod::ClassDesiredAssertionStatus => assertion_status(heap, object),
        LibMethod::Println => print(heap, object, Effect::Gives(None)),
        _ => Effect::Stuck,
    };
    Ok(Plan::Has(effect))
}

fn of_int(alloc: Global, row: LibMethod, bound: u8, number: i32) -> Mem<Plan>
    ensures { IfOk result (λ plan. plan ≡ of_int row bound number) }
{
    match row {
        LibMethod::StringOfInt => text_of_int(alloc, bound, number),
        LibMethod::StringOfChar => of_char(alloc, bound, number),
        LibMethod::StringOfBoolean => of_boolean(alloc, bound, number),
        _ => Ok(Plan::Has(Effect::Stuck)),
    }
}

fn with_int(
    alloc: Global,
    row: LibMethod,
    heap: &Heap,
    bound: u8,
    object: Value,
    number: i32,
) -> Mem<Plan>
    ensures { IfOk result (λ plan. plan ≡ with_int row heap.now bound object number) }
{
    let effect = match row {
        LibMethod::StringTail => return tail(heap, alloc, bound, object, number),
        LibMethod::BuilderAppendChar => return append_char(heap, alloc, bound, object, number),
        LibMethod::BuilderAppendInt => return append_int(heap, alloc, bound, object, number),
        LibMethod::BuilderAppendBoolean => {
            return append_boolean(heap, alloc, bound, object, number);
        }
        LibMethod::StringCharAt => char_at(heap, object, number),
        LibMethod::StringIndexOf => index_of(heap, object, number),
        LibMethod::BuilderCharAt => builder_char_at(heap, object, number),
        LibMethod::AssertionInitBoolean
        | LibMethod::AssertionInitChar
        | LibMethod::AssertionInitInt => throwable(heap, object, Effect::Gives(None)),
        LibMethod::PrintBoolean
        | LibMethod::PrintChar
        | LibMethod::PrintInt
        | LibMethod::PrintlnBoolean
        | LibMethod::PrintlnChar
        | LibMethod::PrintlnInt => print(heap, object, Effect::Gives(None)),
        _ => Effect::Stuck,
    };
    Ok(Plan::Has(effect))
}

fn with_long(row: LibMethod, heap: &Heap, object: Value) -> Plan
    ensures { result ≡ with_long row heap.now object }
{
    Plan::Has(match row {
        LibMethod::AssertionInitLong => throwable(heap, object, Effect::Gives(None)),
        LibMethod::PrintLong | LibMethod::PrintlnLong => print(heap, object, Effect::Gives(None)),
        _ => Effect::Stuck,
    })
}

fn with_reference(
    alloc: Global,
    row: LibMethod,
    heap: &Heap,
    bound: u8,
    object: Value,
    other: Value,
) -> Mem<Plan>
    ensures { IfOk result (λ plan. plan ≡ with_reference row heap.now bound object other) }
{
    let effect = match row {
        LibMethod::StringConcat => return concat(heap, alloc, bound, object, other),
        LibMethod::BuilderInitText => return init_text(heap, alloc, bound, object, other),
        LibMethod::BuilderAppendText => return append_text(heap, alloc, bound, object, other),
        LibMethod::ObjectEquals => same_object(object, other),
        LibMethod::StringEquals => equals(heap, object, other),
        LibMethod::StringStartsWith => starts_with(heap, object, other),
        LibMethod::StringEndsWith => ends_with(heap, object, other),
        LibMethod::StringCompareTo => compare_to(heap, object, other),
        LibMethod::ThrowableInitText => throwable(heap, object, takes_text(heap, other)),
        LibMethod::AssertionInitObject => throwable(heap, object, takes_reference(other)),
        LibMethod::PrintText | LibMethod::PrintlnText => {
            print(heap, object, takes_text(heap, other))
        }
        _ => Effect::Stuck,
    };
    Ok(Plan::Has(effect))
}

fn of_one(alloc: Global, row: LibMethod, heap: &Heap, bound: u8, value: Value) -> Mem<Plan>
    ensures { IfOk result (λ plan. plan ≡ of_one row heap.now bound value) }
{
    match value {
        Value::Int(number) => of_int(alloc, row, bound, number),
        Value::Long(_) => Ok(Plan::Has(Effect::Stuck)),
        Value::Ref(_) => alone(alloc, row, heap, bound, value),
    }
}

fn of_two(
    alloc: Global,
    row: LibMethod,
    heap: &Heap,
    bound: u8,
    object: Value,
    value: Value,
) -> Mem<Plan>
    ensures { IfOk result (λ plan. plan ≡ of_two row heap.now bound object value) }
{
    match value {
        Value::Int(number) => with_int(alloc, row, heap, bound, object, number),
        Value::Long(_) => Ok(with_long(row, heap, object)),
        Value::Ref(_) => with_reference(alloc, row, heap, bound, object, value),
    }
}

fn with_ints(
    alloc: Global,
    row: LibMethod,
    heap: &Heap,
    bound: u8,
    object: Value,
    numbers: (i32, i32),
) -> Mem<Plan>
    ensures { IfOk result (λ plan. plan ≡ with_ints row heap.now bound object numbers.0 numbers.1) }
{
    match row {
        LibMethod::StringSubstring => substring(heap, alloc, bound, object, numbers.0, numbers.1),
        _ => Ok(Plan::Has(Effect::Stuck)),
    }
}

fn planned(alloc: Global, row: LibMethod, heap: &Heap, bound: u8, args: &[Value]) -> Mem<Plan>
    ensures { IfOk result (λ plan. plan ≡ planned row heap.now bound args.now) }
{
    match args {
        [value] => of_one(alloc, row, heap, bound, *value),
        [object, value] => of_two(alloc, row, heap, bound, *object, *value),
        [object, Value::Int(from), Value::Int(to)] => {
            with_ints(alloc, row, heap, bound, *object, (*from, *to))
        }
        _ => Ok(Plan::Has(Effect::Stuck)),
    }
}

/// The call of a row. The receiver is the first of the arguments; arguments that do not suit the row are
/// `Stuck`. For want of memory the state stays.
pub fn call(
    alloc: Global,
    row: LibMethod,
    state: &mut State,
    args: &List<Value>,
    string: u8,
) -> Mem<Effect>
    ensures ok { IfOk result (λ effect. (effect, state.new) ≡ called row state.old args.now string) }
    ensures unchanged { OnErr result (state.new ≡ state.old) }
{
    let plan = planned(alloc, row, &state.heap, string, args.as_slice())?;
    carry_out(&mut state.heap, plan)
}
