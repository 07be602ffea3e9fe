// The element types of arrays, and their values.
ghost use Rattle.std.specs.Prelude.{◌≡◌};
ghost use Rattle.std.specs.Option.{option_copied};
ghost use Rattle.cf_code.specs.Kinds.{is_judged};
ghost use Rattle.vm_object.specs.ElementTypes as specs;

use cf_code::Element;
use jv_base::{Name, Value};
use vm_frame::{int_to_byte, int_to_char, int_to_short};

/// The type of the elements of an array, as far as instructions tell it apart. No value is a float or a double.
#[derive(Clone, Copy, Debug, PartialEq, Eq)]
pub enum ElementType {
    Boolean,
    Byte,
    Char,
    Short,
    Int,
    Long,
    Reference,
}

fn type_of(first: u8) -> Option<ElementType>
    ensures { result ≡ specs.type_of first }
{
    match first {
        b'Z' => Some(ElementType::Boolean),
        b'B' => Some(ElementType::Byte),
        b'C' => Some(ElementType::Char),
        b'S' => Some(ElementType::Short),
        b'I' => Some(ElementType::Int),
        b'J' => Some(ElementType::Long),
        b'L' | b'[' => Some(ElementType::Reference),
        _ => None,
    }
}

/// The element type of a descriptor (JVM Specification SE 8, 4.3.2). None for floats and doubles.
pub fn element_type(descriptor: &Name) -> Option<ElementType>
    ensures { result ≡ specs.element_type descriptor.now }
{
    match descriptor.as_str().as_bytes().first() {
        Some(first) => type_of(*first),
        None => None,
    }
}

/// The descriptor of the type that a newarray names by its code (6.5, newarray).
pub fn type_text(code: u8) -> Option<&'static str>
    ensures { option_copied result ≡ specs.type_text code }
{
    match code {
        4 => Some("Z"),
        5 => Some("C"),
        6 => Some("F"),
        7 => Some("D"),
        8 => Some("B"),
        9 => Some("S"),
        10 => Some("I"),
        11 => Some("J"),
        _ => None,
    }
}

/// The value of each element of a new array (2.3 and 2.4).
pub fn default_value(element: ElementType) -> Value
    ensures { result ≡ specs.default_value element }
{
    match element {
        ElementType::Long => Value::Long(0),
        ElementType::Reference => Value::Ref(None),
        _ => Value::Int(0),
    }
}

/// Whether a load or a store of a name is supported: not those of floats and doubles.
pub(crate) fn is_judged(element: Element) -> bool
    ensures { result ≡ is_judged element }
{
    match element {
        Element::Float | Element::Double => false,
        _ => true,
    }
}

/// Whether a load or a store takes an array of an element type (6.5). baload and bastore take bytes and booleans.
pub fn takes(element: Element, held: ElementType) -> bool
    ensures { result ≡ specs.takes element held }
{
    match (element, held) {
        (Element::Int, ElementType::Int) => true,
        (Element::Long, ElementType::Long) => true,
        (Element::Reference, ElementType::Reference) => true,
        (Element::Byte, ElementType::Byte | ElementType::Boolean) => true,
        (Element::Char, ElementType::Char) => true,
        (Element::Short, ElementType::Short) => true,
        _ => false,
    }
}

/// Whether a value is of the type that a load gives and a store takes (6.5): a long, a reference, else an int.
pub fn holds(element: Element, value: Value) -> bool
    ensures { result ≡ specs.holds element value }
{
    match (element, value) {
        (Element::Long, Value::Long(_)) => true,
        (Element::Reference, Value::Ref(_)) => true,
        (Element::Int | Element::Byte | Element::Char | Element::Short, Value::Int(_)) => true,
        _ => false,
    }
}

fn narrowed_int(held: ElementType, number: i32) -> i32
    ensures { result ≡ specs.narrowed_int held number }
{
    match held {
        ElementType::Boolean => number.rem_euclid(2),
        ElementType::Byte => int_to_byte(number),
        ElementType::Char => int_to_char(number),
        ElementType::Short => int_to_short(number),
        _ => number,
    }
}

/// What an array keeps of a value (6.5, bastore, castore and sastore).
pub fn narrowed(held: ElementType, value: Value) -> Value
    ensures { result ≡ specs.narrowed held value }
{
    match value {
        Value::Int(number) => Value::Int(narrowed_int(held, number)),
        _ => value,
    }
}
