// The types of values that stand for the types of descriptors.
ghost use Rattle.std.specs.Prelude.{◌≡◌};
ghost use Rattle.vm_step.specs.Words as specs;

use cf_code::Word;
use jv_base::{Ty, Value};

/// The type of the values that a type of a descriptor has (JVM Specification SE 8, 2.11.1).
pub fn word_of(ty: &Ty) -> Word
    ensures { result ≡ specs.word_of ty.now }
{
    match ty {
        Ty::Boolean | Ty::Byte | Ty::Char | Ty::Short | Ty::Int => Word::Int,
        Ty::Long => Word::Long,
        Ty::Float => Word::Float,
        Ty::Double => Word::Double,
        Ty::Class(_) | Ty::Array(_) => Word::Reference,
    }
}

/// Whether a value is of a type. No value is a float or a double.
pub fn has_word(word: Word, value: Value) -> bool
    ensures { result ≡ specs.has_word word value }
{
    matches!(
        (word, value),
        (Word::Int, Value::Int(_)) | (Word::Long, Value::Long(_)) | (Word::Reference, Value::Ref(_))
    )
}
