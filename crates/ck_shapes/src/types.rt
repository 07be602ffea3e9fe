// The types of what instructions push, load, store and compute. A float or a double has none.
ghost use Rattle.std.specs.Prelude.{◌≡◌, slice_get};
ghost use Rattle.ck_shapes.specs.Effects.{entry_type, constant_type, word_type, index_of, element_type, num_type};
ghost use Rattle.ck_shapes.specs.Effects.{whole_type};

use crate::shape::ValueType;
use cf_code::{Constant, Element, LocalIndex, Num, Whole, Word};
use cf_pool::PoolEntry;

/// The type of the constant at an index, which ldc, ldc_w or ldc2_w pushes.
fn entry_type(pool: &[PoolEntry], index: u16) -> Option<ValueType>
    ensures { result ≡ entry_type (slice_get pool.now index) }
{
    match pool.get(usize::from(index)) {
        Some(PoolEntry::Integer(_)) => Some(ValueType::Int),
        Some(PoolEntry::Long(_)) => Some(ValueType::Long),
        Some(PoolEntry::Str(_) | PoolEntry::Class(_)) => Some(ValueType::Reference),
        _ => None,
    }
}

/// The type of a constant.
pub(crate) fn constant_type(pool: &[PoolEntry], constant: Constant) -> Option<ValueType>
    ensures { result ≡ constant_type pool.now constant }
{
    match constant {
        Constant::Null => Some(ValueType::Reference),
        Constant::Iconst(_) | Constant::Bipush(_) | Constant::Sipush(_) => Some(ValueType::Int),
        Constant::Lconst(_) => Some(ValueType::Long),
        Constant::Ldc(index) => entry_type(pool, u16::from(index)),
        Constant::LdcW(index) | Constant::Ldc2W(index) => entry_type(pool, index),
        Constant::Fconst(_) | Constant::Dconst(_) => None,
    }
}

/// The type of a local that is loaded or stored.
pub(crate) fn word_type(word: Word) -> Option<ValueType>
    ensures { result ≡ word_type word }
{
    match word {
        Word::Int => Some(ValueType::Int),
        Word::Long => Some(ValueType::Long),
        Word::Reference => Some(ValueType::Reference),
        Word::Float | Word::Double => None,
    }
}

/// The index of a local.
pub(crate) fn index_of(index: LocalIndex) -> u16
    ensures { result ≡ index_of index }
{
    match index {
        LocalIndex::Short(local) | LocalIndex::Byte(local) => u16::from(local),
        LocalIndex::Wide(local) => local,
    }
}

/// The type of an element of an array, where it is on the stack.
pub(crate) fn element_type(element: Element) -> Option<ValueType>
    ensures { result ≡ element_type element }
{
    match element {
        Element::Int | Element::Byte | Element::Char | Element::Short => Some(ValueType::Int),
        Element::Long => Some(ValueType::Long),
        Element::Reference => Some(ValueType::Reference),
        Element::Float | Element::Double => None,
    }
}

/// The type of a number.
pub(crate) fn num_type(num: Num) -> Option<ValueType>
    ensures { result ≡ num_type num }
{
    match num {
        Num::Int => Some(ValueType::Int),
        Num::Long => Some(ValueType::Long),
        Num::Float | Num::Double => None,
    }
}

/// The type of a whole number.
pub(crate) fn whole_type(whole: Whole) -> ValueType
    ensures { result ≡ whole_type whole }
{
    match whole {
        Whole::WholeInt => ValueType::Int,
        Whole::WholeLong => ValueType::Long,
    }
}
