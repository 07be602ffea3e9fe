// Instructions on arrays.
ghost use Rattle.std.specs.Prelude.{◌≡◌, ◌++◌, ◌+◌, ◌<◌, ◌∷◌, [], Some, IfSome, OnOk};
ghost use Rattle.cf_code.specs.Arrays.{array_load_opcode, array_store_opcode, array_spelling, FitsArray};

use crate::table::opcode_table;
use jv_base::Mem;

/// What an array holds, as the loads and stores tell it apart. `Byte` is also for booleans.
#[derive(Clone, Copy, Debug, PartialEq, Eq)]
pub enum Element {
    Int,
    Long,
    Float,
    Double,
    Reference,
    Byte,
    Char,
    Short,
}

/// An instruction on arrays (JVM Specification SE 8, 6.5). `New` has the code of an element type, which is one of 4 to 11
/// in a class that the JVM takes; `NewOf` and `NewMany` have an index of the constant pool, `NewMany` also how many
/// dimensions are made.
#[derive(Clone, Copy, Debug, PartialEq, Eq)]
pub enum Array {
    Load(Element),
    Store(Element),
    New(u8),
    NewOf(u16),
    NewMany(u16, u8),
    Length,
}

/// The instruction that these bytes spell.
pub(crate) fn read_array(bytes: &[u8]) -> Option<Array>
    ensures found { IfSome result (λ a. (bytes.now ≡ array_spelling a) × FitsArray a) }
    ensures only { (a : Array) → FitsArray a → bytes.now ≡ array_spelling a → result ≡ Some a }
{
    match bytes {
        [188, code] => Some(Array::New(*code)),
        [189, high, low] => Some(Array::NewOf(u16::from_be_bytes([*high, *low]))),
        [190] => Some(Array::Length),
        [197, high, low, dimensions] => Some(Array::NewMany(
            u16::from_be_bytes([*high, *low]),
            *dimensions,
        )),
        [opcode] => read_element(*opcode),
        _ => None,
    }
}

/// The load or store of an opcode.
fn read_element(opcode: u8) -> Option<Array>
    ensures found { IfSome result (λ a. (opcode ∷ [] ≡ array_spelling a) × FitsArray a) }
    ensures load { (e : Element) → opcode ≡ array_load_opcode e → result ≡ Some (Array.Load e) }
    ensures store { (e : Element) → opcode ≡ array_store_opcode e → result ≡ Some (Array.Store e) }
{
    match opcode {
        46..=53 => Some(Array::Load(numbered_element(opcode - 46)?)),
        79..=86 => Some(Array::Store(numbered_element(opcode - 79)?)),
        _ => None,
    }
}

/// The element types in the order of the opcodes.
macro_rules! element_table {
    ($side:ident $known:expr) => {
        opcode_table!($side $known;
            0 => (Element::Int),
            1 => (Element::Long),
            2 => (Element::Float),
            3 => (Element::Double),
            4 => (Element::Reference),
            5 => (Element::Byte),
            6 => (Element::Char),
            7 => (Element::Short),
        )
    };
}

/// The element type at a place in the order of the opcodes.
fn numbered_element(number: u8) -> Option<Element>
    ensures load { IfSome result (λ e. array_load_opcode e ≡ 46 + number) }
    ensures store { IfSome result (λ e. array_store_opcode e ≡ 79 + number) }
    ensures only_load { (e : Element) → array_load_opcode e ≡ 46 + number → result ≡ Some e }
    ensures only_store { (e : Element) → array_store_opcode e ≡ 79 + number → result ≡ Some e }
{
    element_table!(read number)
}

/// Puts the bytes of the instruction at the end.
pub(crate) fn put_array(out: &mut Vec<u8>, array: Array) -> Mem<()>
    requires { FitsArray array }
    ensures { OnOk result (out.new.items ≡ out.old.items ++ array_spelling array) }
{
    match array {
        Array::Load(element) => out.extend_from_slice(&[46 + element_number(element)]),
        Array::Store(element) => out.extend_from_slice(&[79 + element_number(element)]),
        Array::New(code) => out.extend_from_slice(&[188, code]),
        Array::NewOf(index) => {
            let [high, low] = index.to_be_bytes();
            out.extend_from_slice(&[189, high, low])
        }
        Array::NewMany(index, dimensions) => {
            let [high, low] = index.to_be_bytes();
            out.extend_from_slice(&[197, high, low, dimensions])
        }
        Array::Length => out.extend_from_slice(&[190]),
    }
}

/// The place of an element type in the order of the opcodes.
fn element_number(element: Element) -> u8
    ensures load { array_load_opcode element ≡ 46 + result }
    ensures store { array_store_opcode element ≡ 79 + result }
    ensures within { result < 8 }
{
    element_table!(write element)
}
