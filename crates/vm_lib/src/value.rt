// Numbers as places and units of texts, and what rows give of them.
ghost use Rattle.std.specs.Prelude.{◌≡◌, IfOk, ◌∷◌, []};
ghost use Rattle.vm_lib.specs.Values.{place_of, unit_of, low_unit, boolean_text, gives_int, gives_test, gives_length};

use crate::plan::Effect;
use jv_base::{Mem, Value};
use st_text::Text;
use std::alloc::Global;

/// The number as a place, which is not negative.
pub(crate) fn place_of(number: i32) -> Option<u32>
    ensures { result ≡ place_of number }
{
    if number < 0 {
        None
    } else {
        Some(number as u32)
    }
}

/// The number as a unit, which is below 65536.
pub(crate) fn unit_of(number: i32) -> Option<u16>
    ensures { result ≡ unit_of number }
{
    if number < 0 || number > 65535 {
        None
    } else {
        Some(number as u16)
    }
}

pub(crate) fn gives_int(number: i32) -> Effect
    ensures { result ≡ gives_int number }
{
    Effect::Gives(Some(Value::Int(number)))
}

pub(crate) fn gives_test(answer: bool) -> Effect
    ensures { result ≡ gives_test answer }
{
    gives_int(if answer { 1 } else { 0 })
}

pub(crate) fn gives_length(length: u32) -> Effect
    ensures { result ≡ gives_length length }
{
    gives_int(length.cast_signed())
}

/// The text of the low 16 bits.
pub(crate) fn char_text(alloc: Global, number: i32) -> Mem<Text>
    ensures { IfOk result (λ text. text ≡ low_unit number ∷ []) }
{
    let unit = (number.cast_unsigned() % 0x1_0000) as u16;
    Text::of_units(alloc, &[unit])
}

/// `false` for 0, and else `true`.
pub(crate) fn boolean_text(alloc: Global, number: i32) -> Mem<Text>
    ensures { IfOk result (λ text. text ≡ boolean_text number) }
{
    if number.cast_unsigned() == 0 {
        Text::of_units(alloc, &[102, 97, 108, 115, 101])
    } else {
        Text::of_units(alloc, &[116, 114, 117, 101])
    }
}
