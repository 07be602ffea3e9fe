// Rows of java.lang.StringBuilder.
ghost use Rattle.std.specs.Prelude.{◌≡◌, IfOk, codes};
ghost use Rattle.vm_lib.specs.Plans.{filled};
ghost use Rattle.vm_lib.specs.BuilderRows.{init_row, init_text_row, appended, append_row, append_text_or_null, append_text_row, append_char_row, append_int_row, append_boolean_row, to_string_row, builder_length_row, builder_char_row};

use crate::operand::{builder_of, string_of};
use crate::plan::{Effect, Plan, filled, made};
use crate::string::unit_at;
use crate::value::{boolean_text, char_text, gives_length, place_of};
use jv_base::{Mem, Value};
use st_text::Text;
use std::alloc::Global;
use vm_world::Heap;

/// `<init>:()V`
pub fn init(heap: &Heap, alloc: Global, builder: Value) -> Plan
    ensures { result ≡ init_row heap.now builder }
{
    match builder_of(heap, builder) {
        Ok((number, _)) => Plan::Puts(number, Text::new(alloc), None),
        Err(effect) => Plan::Has(effect),
    }
}

/// `<init>:(Ljava/lang/String;)V`
pub fn init_text(heap: &Heap, alloc: Global, bound: u8, builder: Value, text: Value) -> Mem<Plan>
    ensures { IfOk result (λ plan. plan ≡ init_text_row heap.now bound builder text) }
{
    match builder_of(heap, builder) {
        Ok((number, _)) => match string_of(heap, text) {
            Ok(text) => Ok(filled(number, text.copy(alloc)?, None, bound)),
            Err(effect) => Ok(Plan::Has(effect)),
        },
        Err(effect) => Ok(Plan::Has(effect)),
    }
}

/// The builder with a text behind its content; it gives itself.
fn appended(alloc: Global, bound: u8, builder: Value, found: (u64, &Text), text: &Text) -> Mem<Plan>
    ensures { IfOk result (λ plan. plan ≡ appended bound builder (found.entry.0, found.entry.1.now) text.now) }
{
    let (number, content) = found;
    if u64::from(content.length()) + u64::from(text.length()) > u64::from(bound) {
        return Ok(Plan::Has(Effect::Left));
    }
    Ok(Plan::Puts(number, content.concat(alloc, text)?, Some(builder)))
}

fn append(heap: &Heap, alloc: Global, bound: u8, builder: Value, text: &Text) -> Mem<Plan>
    ensures { IfOk result (λ plan. plan ≡ append_row heap.now bound builder text.now) }
{
    match builder_of(heap, builder) {
        Ok(found) => appended(alloc, bound, builder, found, text),
        Err(effect) => Ok(Plan::Has(effect)),
    }
}

fn null_text(alloc: Global) -> Mem<Text>
    ensures { IfOk result (λ text. text ≡ codes "null") }
{
    Text::of_units(alloc, &[110, 117, 108, 108])
}

fn append_text_or_null(
    heap: &Heap,
    alloc: Global,
    bound: u8,
    builder: Value,
    found: (u64, &Text),
    text: Value,
) -> Mem<Plan>
    ensures { IfOk result (λ plan. plan ≡ append_text_or_null heap.now bound builder (found.entry.0, found.entry.1.now) text) }
{
    if let Value::Ref(None) = text {
        let null = null_text(alloc)?;
        return appended(alloc, bound, builder, found, &null);
    }
    match string_of(heap, text) {
        Ok(text) => appended(alloc, bound, builder, found, text),
        Err(effect) => Ok(Plan::Has(effect)),
    }
}

/// `append:(Ljava/lang/String;)Ljava/lang/StringBuilder;`
pub fn append_text(heap: &Heap, alloc: Global, bound: u8, builder: Value, text: Value) -> Mem<Plan>
    ensures { IfOk result (λ plan. plan ≡ append_text_row heap.now bound builder text) }
{
    match builder_of(heap, builder) {
        Ok(found) => append_text_or_null(heap, alloc, bound, builder, found, text),
        Err(effect) => Ok(Plan::Has(effect)),
    }
}

/// `append:(C)Ljava/lang/StringBuilder;`
pub fn append_char(heap: &Heap, alloc: Global, bound: u8, builder: Value, number: i32) -> Mem<Plan>
    ensures { IfOk result (λ plan. plan ≡ append_char_row heap.now bound builder number) }
{
    let text = char_text(alloc, number)?;
    append(heap, alloc, bound, builder, &text)
}

/// `append:(I)Ljava/lang/StringBuilder;`
pub fn append_int(heap: &Heap, alloc: Global, bound: u8, builder: Value, number: i32) -> Mem<Plan>
    ensures { IfOk result (λ plan. plan ≡ append_int_row heap.now bound builder number) }
{
    let text = Text::decimal(alloc, number)?;
    append(heap, alloc, bound, builder, &text)
}

/// `append:(Z)Ljava/lang/StringBuilder;`
pub fn append_boolean(
    heap: &Heap,
    alloc: Global,
    bound: u8,
    builder: Value,
    number: i32,
) -> Mem<Plan>
    ensures { IfOk result (λ plan. plan ≡ append_boolean_row heap.now bound builder number) }
{
    let text = boolean_text(alloc, number)?;
    append(heap, alloc, bound, builder, &text)
}

/// `toString:()Ljava/lang/String;`
pub fn to_string(heap: &Heap, alloc: Global, bound: u8, builder: Value) -> Mem<Plan>
    ensures { IfOk result (λ plan. plan ≡ to_string_row heap.now bound builder) }
{
    match builder_of(heap, builder) {
        Ok((_, content)) => Ok(made(content.copy(alloc)?, bound)),
        Err(effect) => Ok(Plan::Has(effect)),
    }
}

/// `length:()I`
pub fn builder_length(heap: &Heap, builder: Value) -> Effect
    ensures { result ≡ builder_length_row heap.now builder }
{
    match builder_of(heap, builder) {
        Ok((_, content)) => gives_length(content.length()),
        Err(effect) => effect,
    }
}

/// `charAt:(I)C`
pub fn builder_char_at(heap: &Heap, builder: Value, index: i32) -> Effect
    ensures { result ≡ builder_char_row heap.now builder index }
{
    match builder_of(heap, builder) {
        Ok((_, content)) => unit_at(content, place_of(index)),
        Err(effect) => effect,
    }
}
