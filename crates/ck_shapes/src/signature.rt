// The types of values that descriptors tell (JVM Specification SE 8, 4.3).
ghost use Rattle.std.specs.Prelude.{◌≡◌, IfOk, [], false};
ghost use Rattle.ck_shapes.specs.Descriptors.{letter_type, field_type, result_type, ended_type, signed};
ghost use Rattle.ck_shapes.specs.Descriptors.{signature_within, signature};

use crate::shape::ValueType;
use jv_list::{List, Mem};
use std::alloc::Global;

/// The types of the parameters of a method, and that of its result, if it has one.
#[derive(Debug, Drop)]
pub struct Signature {
    pub parameters: List<ValueType>,
    pub result: Option<ValueType>,
}

/// The type of a value by the letter that its descriptor begins with. None for a float or a double.
fn letter_type(letter: u8) -> Option<ValueType>
    ensures { result ≡ letter_type letter }
{
    match letter {
        b'J' => Some(ValueType::Long),
        b'L' | b'[' => Some(ValueType::Reference),
        b'B' | b'C' | b'I' | b'S' | b'Z' => Some(ValueType::Int),
        _ => None,
    }
}

/// The type of a field, by its descriptor. None for a float or a double.
pub(crate) fn field_type(desc: &[u8]) -> Option<ValueType>
    ensures { result ≡ field_type desc.now }
{
    let [letter, ..] = desc else {
        return None;
    };
    letter_type(*letter)
}

/// The type of a result, or that there is none.
fn result_type(desc: &[u8]) -> Option<Option<ValueType>>
    ensures { result ≡ result_type desc.now }
{
    match desc {
        [b'V', ..] => Some(None),
        [letter, ..] => Some(Some(letter_type(*letter)?)),
        [] => None,
    }
}

/// The type that ends with a letter, behind `[` an array.
fn ended_type(in_array: bool, letter: u8) -> Option<ValueType>
    ensures { result ≡ ended_type in_array letter }
{
    if in_array {
        return Some(ValueType::Reference);
    }
    letter_type(letter)
}

/// The types with that of the result.
fn signed(parameters: List<ValueType>, ended: Option<Option<ValueType>>) -> Option<Signature>
    ensures { result ≡ signed parameters ended }
{
    Some(Signature {
        parameters,
        result: ended?,
    })
}

/// The types of the parameters and of the result, by the descriptor of a method behind its `(`.
fn signature_of(alloc: Global, desc: &[u8]) -> Mem<Option<Signature>>
    ensures { IfOk result (λ o. o ≡ signature_within [] false false desc.now) }
{
    let mut parameters = List::new(alloc);
    let mut in_name = false;
    let mut in_array = false;
    let mut rest = desc;
    while let [letter, after @ ..] = rest {
        if in_name {
            in_name = *letter != b';';
            in_array = false;
        } else if *letter == b')' {
            return Ok(signed(parameters, result_type(after)));
        } else if *letter == b'[' {
            in_array = true;
        } else {
            let Some(of) = ended_type(in_array, *letter) else {
                return Ok(None);
            };
            parameters.add(of)?;
            in_name = *letter == b'L';
            in_array = false;
        }
        rest = after;
    }
    Ok(None)
}

/// The types of the parameters and of the result of a method, by its descriptor. None where one is a float or a double.
pub(crate) fn read_signature(alloc: Global, desc: &[u8]) -> Mem<Option<Signature>>
    ensures { IfOk result (λ o. o ≡ signature desc.now) }
{
    match desc {
        [_, behind @ ..] => signature_of(alloc, behind),
        [] => Ok(None),
    }
}
