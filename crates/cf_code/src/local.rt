// Instructions on local variables.
ghost use Rattle.std.specs.Prelude.{◌≡◌, ◌++◌, ◌<◌, ◌≤◌, ◌↔◌, IsTrue, Some, IfSome, OnOk};
ghost use Rattle.cf_code.specs.Locals.{load_spelling, store_spelling, local_spelling, FitsIndex, FitsLocal};
ghost use Rattle.cf_code.specs.Steps.Accesses.{word_number, based_spelling};

use crate::table::opcode_table;
use crate::word::Word;
use jv_base::Mem;

/// Where the opcodes of loads begin: one for each type, and then four short ones for each.
const LOADS: u8 = 21;

/// Where those of stores begin, which are laid out alike.
const STORES: u8 = 54;

/// An index of a local variable, in the form that it has in the code: the opcode's own (0 to 3), a byte, or two bytes
/// behind `wide`.
#[derive(Clone, Copy, Debug, PartialEq, Eq)]
pub enum LocalIndex {
    Short(u8),
    Byte(u8),
    Wide(u16),
}

/// An instruction on a local variable (JVM Specification SE 8, 6.5). The number of an `Iinc` is what is added.
#[derive(Clone, Copy, Debug, PartialEq, Eq)]
pub enum Local {
    Load(Word, LocalIndex),
    Store(Word, LocalIndex),
    Iinc(u8, i8),
    IincWide(u16, i16),
    Ret(u8),
    RetWide(u16),
}

/// Whether the index fits its form.
fn fits_index(index: LocalIndex) -> bool
    ensures { IsTrue result ↔ FitsIndex index }
{
    match index {
        LocalIndex::Short(n) => n <= 3,
        LocalIndex::Byte(_) | LocalIndex::Wide(_) => true,
    }
}

/// Whether the index of the local variable fits its form.
pub(crate) fn fits_local(local: Local) -> bool
    ensures { IsTrue result ↔ FitsLocal local }
{
    match local {
        Local::Load(_, index) | Local::Store(_, index) => fits_index(index),
        _ => true,
    }
}

/// The instruction that these bytes spell.
pub(crate) fn read_local(bytes: &[u8]) -> Option<Local>
    ensures found { IfSome result (λ l. (bytes.now ≡ local_spelling l) × FitsLocal l) }
    ensures only { (l : Local) → FitsLocal l → bytes.now ≡ local_spelling l → result ≡ Some l }
{
    match bytes {
        [132, index, by] => Some(Local::Iinc(*index, by.cast_signed())),
        [196, 132, high, low, by_high, by_low] => Some(Local::IincWide(
            u16::from_be_bytes([*high, *low]),
            i16::from_be_bytes([*by_high, *by_low]),
        )),
        [169, index] => Some(Local::Ret(*index)),
        [196, 169, high, low] => Some(Local::RetWide(u16::from_be_bytes([*high, *low]))),
        _ => read_load_or_store(bytes),
    }
}

/// The load or store that these bytes spell.
fn read_load_or_store(bytes: &[u8]) -> Option<Local>
    ensures found { IfSome result (λ l. (bytes.now ≡ local_spelling l) × FitsLocal l) }
    ensures load { (w : Word) (i : LocalIndex) → FitsIndex i → bytes.now ≡ load_spelling w i → result ≡ Some (Local.Load w i) }
    ensures store { (w : Word) (i : LocalIndex) → FitsIndex i → bytes.now ≡ store_spelling w i → result ≡ Some (Local.Store w i) }
{
    if let Some((word, index)) = read_access(LOADS, bytes) {
        return Some(Local::Load(word, index));
    }
    let (word, index) = read_access(STORES, bytes)?;
    Some(Local::Store(word, index))
}

/// The load or the store that these bytes spell, by where the opcodes begin.
fn read_access(base: u8, bytes: &[u8]) -> Option<(Word, LocalIndex)>
    requires { base ≤ 54 }
    ensures found { IfSome result (λ l. (bytes.now ≡ based_spelling base l.0 l.1) × FitsIndex l.1) }
    ensures only { (w : Word) (i : LocalIndex) → FitsIndex i → bytes.now ≡ based_spelling base w i → result ≡ Some (w, i) }
{
    match bytes {
        [opcode] => {
            let number = opcode.checked_sub(base + 5)?;
            Some((numbered_word(number / 4)?, LocalIndex::Short(number % 4)))
        }
        [opcode, index] => {
            let word = numbered_word(opcode.checked_sub(base)?)?;
            Some((word, LocalIndex::Byte(*index)))
        }
        [196, opcode, high, low] => {
            let word = numbered_word(opcode.checked_sub(base)?)?;
            Some((word, LocalIndex::Wide(u16::from_be_bytes([*high, *low]))))
        }
        _ => None,
    }
}

/// The types in the order of the opcodes.
macro_rules! word_table {
    ($side:ident $known:expr) => {
        opcode_table!($side $known;
            0 => (Word::Int),
            1 => (Word::Long),
            2 => (Word::Float),
            3 => (Word::Double),
            4 => (Word::Reference),
        )
    };
}

/// The type at a place in the order of the opcodes.
fn numbered_word(number: u8) -> Option<Word>
    ensures found { IfSome result (λ w. number ≡ word_number w) }
    ensures only { (w : Word) → number ≡ word_number w → result ≡ Some w }
{
    word_table!(read number)
}

/// The place of a type in the order of the opcodes.
fn word_number(word: Word) -> u8
    ensures value { result ≡ word_number word }
    ensures within { result < 5 }
{
    word_table!(write word)
}

/// Puts the bytes of the instruction at the end.
pub(crate) fn put_local(out: &mut Vec<u8>, local: Local) -> Mem<()>
    requires { FitsLocal local }
    ensures { OnOk result (out.new.items ≡ out.old.items ++ local_spelling local) }
{
    match local {
        Local::Load(word, index) => put_access(out, LOADS, word, index),
        Local::Store(word, index) => put_access(out, STORES, word, index),
        Local::Iinc(index, by) => out.extend_from_slice(&[132, index, by.cast_unsigned()]),
        Local::IincWide(index, by) => {
            let [high, low] = index.to_be_bytes();
            let [by_high, by_low] = by.to_be_bytes();
            out.extend_from_slice(&[196, 132, high, low, by_high, by_low])
        }
        Local::Ret(index) => out.extend_from_slice(&[169, index]),
        Local::RetWide(index) => {
            let [high, low] = index.to_be_bytes();
            out.extend_from_slice(&[196, 169, high, low])
        }
    }
}

/// Puts the bytes of a load or a store at the end, by where the opcodes begin.
fn put_access(out: &mut Vec<u8>, base: u8, word: Word, index: LocalIndex) -> Mem<()>
    requires fits { FitsIndex index }
    requires base { base ≤ 54 }
    ensures { OnOk result (out.new.items ≡ out.old.items ++ based_spelling base word index) }
{
    let number = word_number(word);
    match index {
        LocalIndex::Short(index) => out.extend_from_slice(&[base + 5 + 4 * number + index]),
        LocalIndex::Byte(index) => out.extend_from_slice(&[base + number, index]),
        LocalIndex::Wide(index) => {
            let [high, low] = index.to_be_bytes();
            out.extend_from_slice(&[196, base + number, high, low])
        }
    }
}
