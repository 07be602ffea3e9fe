// Rows of java.lang.String.
ghost use Rattle.std.specs.Prelude.{◌≡◌, ◌==◌, ◌++◌, IfOk};
ghost use Rattle.std.specs.List.{starts_with, ends_with};
ghost use Rattle.vm_lib.specs.Plans.{made};
ghost use Rattle.vm_lib.specs.Values.{place_of};
ghost use Rattle.vm_lib.specs.StringRows.{length_row, is_empty_row, unit_at, char_at_row, compare_row, is_same, equals_row, starts_row, ends_row, place_of_unit, index_row, concat_row, part_of, substring_row, tail_row, int_row, char_row, boolean_row};
ghost use Rattle.vm_lib.specs.Operands.{string_of};

use crate::operand::string_of;
use crate::plan::{Effect, Plan, made};
use crate::value::{
    boolean_text, char_text, gives_int, gives_length, gives_test, place_of, unit_of,
};
use jv_base::{Kind, Mem, Value};
use st_text::Text;
use std::alloc::Global;
use vm_world::Heap;

/// `length:()I`
pub fn length(heap: &Heap, text: Value) -> Effect
    ensures { result ≡ length_row heap.now text }
{
    match string_of(heap, text) {
        Ok(text) => gives_length(text.length()),
        Err(effect) => effect,
    }
}

/// `isEmpty:()Z`
pub fn is_empty(heap: &Heap, text: Value) -> Effect
    ensures { result ≡ is_empty_row heap.now text }
{
    match string_of(heap, text) {
        Ok(text) => gives_test(text.length() == 0),
        Err(effect) => effect,
    }
}

/// The unit at a place below the length; else strindex is raised.
pub(crate) fn unit_at(text: &Text, place: Option<u32>) -> Effect
    ensures { result ≡ unit_at text.now place }
{
    match place {
        Some(place) => {
            if place < text.length() {
                gives_int(i32::from(text.unit(place)))
            } else {
                Effect::Raises(Kind::StrIndex)
            }
        }
        None => Effect::Raises(Kind::StrIndex),
    }
}

/// `charAt:(I)C`
pub fn char_at(heap: &Heap, text: Value, index: i32) -> Effect
    ensures { result ≡ char_at_row heap.now text index }
{
    match string_of(heap, text) {
        Ok(text) => unit_at(text, place_of(index)),
        Err(effect) => effect,
    }
}

/// `compareTo:(String)I`
pub fn compare_to(heap: &Heap, text: Value, other: Value) -> Effect
    ensures { result ≡ compare_row heap.now text other }
{
    match string_of(heap, text) {
        Ok(text) => match string_of(heap, other) {
            Ok(other) => gives_int(text.compare(other)),
            Err(effect) => effect,
        },
        Err(effect) => effect,
    }
}

fn is_same(heap: &Heap, text: &Text, other: Value) -> bool
    ensures { result ≡ is_same text.now (string_of heap.now other) }
{
    match string_of(heap, other) {
        Ok(other) => text.units() == other.units(),
        Err(_) => false,
    }
}

/// `equals:(Object)Z`
pub fn equals(heap: &Heap, text: Value, other: Value) -> Effect
    ensures { result ≡ equals_row heap.now text other }
{
    match string_of(heap, text) {
        Ok(text) => gives_test(is_same(heap, text, other)),
        Err(effect) => effect,
    }
}

fn begins(text: &Text, front: &Text) -> bool
    ensures { result ≡ starts_with (λ x y. x == y) text.now front.now }
{
    text.units().starts_with(front.units())
}

fn ends(text: &Text, back: &Text) -> bool
    ensures { result ≡ ends_with (λ x y. x == y) text.now back.now }
{
    text.units().ends_with(back.units())
}

/// `startsWith:(String)Z`
pub fn starts_with(heap: &Heap, text: Value, other: Value) -> Effect
    ensures { result ≡ starts_row heap.now text other }
{
    match string_of(heap, text) {
        Ok(text) => match string_of(heap, other) {
            Ok(other) => gives_test(begins(text, other)),
            Err(effect) => effect,
        },
        Err(effect) => effect,
    }
}

/// `endsWith:(String)Z`
pub fn ends_with(heap: &Heap, text: Value, other: Value) -> Effect
    ensures { result ≡ ends_row heap.now text other }
{
    match string_of(heap, text) {
        Ok(text) => match string_of(heap, other) {
            Ok(other) => gives_test(ends(text, other)),
            Err(effect) => effect,
        },
        Err(effect) => effect,
    }
}

fn place_of_unit(text: &Text, unit: Option<u16>) -> Effect
    ensures { result ≡ place_of_unit text.now unit }
{
    match unit {
        Some(unit) => match text.index_of(unit) {
            Some(place) => gives_length(place),
            None => gives_int(-1),
        },
        None => Effect::Stuck,
    }
}

/// `indexOf:(I)I`
pub fn index_of(heap: &Heap, text: Value, unit: i32) -> Effect
    ensures { result ≡ index_row heap.now text unit }
{
    match string_of(heap, text) {
        Ok(text) => place_of_unit(text, unit_of(unit)),
        Err(effect) => effect,
    }
}

fn joined(alloc: Global, bound: u8, a: &Text, b: &Text) -> Mem<Plan>
    ensures { IfOk result (λ plan. plan ≡ made bound (a.now ++ b.now)) }
{
    if u64::from(a.length()) + u64::from(b.length()) > u64::from(bound) {
        return Ok(Plan::Has(Effect::Left));
    }
    Ok(Plan::Makes(a.concat(alloc, b)?))
}

/// `concat:(String)Ljava/lang/String;`
pub fn concat(heap: &Heap, alloc: Global, bound: u8, text: Value, other: Value) -> Mem<Plan>
    ensures { IfOk result (λ plan. plan ≡ concat_row heap.now bound text other) }
{
    match string_of(heap, text) {
        Ok(text) => match string_of(heap, other) {
            Ok(other) => joined(alloc, bound, text, other),
            Err(effect) => Ok(Plan::Has(effect)),
        },
        Err(effect) => Ok(Plan::Has(effect)),
    }
}

fn part_of(alloc: Global, bound: u8, text: &Text, from: Option<u32>, to: Option<u32>) -> Mem<Plan>
    ensures { IfOk result (λ plan. plan ≡ part_of bound text.now from to) }
{
    let (Some(from), Some(to)) = (from, to) else {
        return Ok(Plan::Has(Effect::Raises(Kind::StrIndex)));
    };
    if from <= to && to <= text.length() {
        Ok(made(text.part(alloc, from, to)?, bound))
    } else {
        Ok(Plan::Has(Effect::Raises(Kind::StrIndex)))
    }
}

/// `substring:(II)Ljava/lang/String;`
pub fn substring(
    heap: &Heap,
    alloc: Global,
    bound: u8,
    text: Value,
    from: i32,
    to: i32,
) -> Mem<Plan>
    ensures { IfOk result (λ plan. plan ≡ substring_row heap.now bound text from to) }
{
    match string_of(heap, text) {
        Ok(text) => part_of(alloc, bound, text, place_of(from), place_of(to)),
        Err(effect) => Ok(Plan::Has(effect)),
    }
}

/// `substring:(I)Ljava/lang/String;`
pub fn tail(heap: &Heap, alloc: Global, bound: u8, text: Value, from: i32) -> Mem<Plan>
    ensures { IfOk result (λ plan. plan ≡ tail_row heap.now bound text from) }
{
    match string_of(heap, text) {
        Ok(text) => part_of(alloc, bound, text, place_of(from), Some(text.length())),
        Err(effect) => Ok(Plan::Has(effect)),
    }
}

/// `valueOf:(I)Ljava/lang/String;`
pub fn of_int(alloc: Global, bound: u8, number: i32) -> Mem<Plan>
    ensures { IfOk result (λ plan. plan ≡ int_row bound number) }
{
    Ok(made(Text::decimal(alloc, number)?, bound))
}

/// `valueOf:(C)Ljava/lang/String;`
pub fn of_char(alloc: Global, bound: u8, number: i32) -> Mem<Plan>
    ensures { IfOk result (λ plan. plan ≡ char_row bound number) }
{
    Ok(made(char_text(alloc, number)?, bound))
}

/// `valueOf:(Z)Ljava/lang/String;`
pub fn of_boolean(alloc: Global, bound: u8, number: i32) -> Mem<Plan>
    ensures { IfOk result (λ plan. plan ≡ boolean_row bound number) }
{
    Ok(made(boolean_text(alloc, number)?, bound))
}
