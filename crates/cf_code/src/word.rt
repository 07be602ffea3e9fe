// The types of values that locals, operands and results have.
ghost use Rattle.std.specs.Prelude.{◌≡◌, Some, IfSome};
ghost use Rattle.cf_code.specs.Returns.{return_opcode};

use crate::table::opcode_table;

/// A type of a value that a local holds and a method gives (JVM Specification SE 8, 2.11.1): an int stands for the
/// smaller types too.
#[derive(Clone, Copy, Debug, PartialEq, Eq)]
pub enum Word {
    Int,
    Long,
    Float,
    Double,
    Reference,
}

/// What a return gives to the caller.
#[derive(Clone, Copy, Debug, PartialEq, Eq)]
pub enum Returned {
    Nothing,
    Value(Word),
}

/// The opcodes of returns.
macro_rules! return_table {
    ($side:ident $known:expr) => {
        opcode_table!($side $known;
            172 => (Returned::Value(Word::Int)),
            173 => (Returned::Value(Word::Long)),
            174 => (Returned::Value(Word::Float)),
            175 => (Returned::Value(Word::Double)),
            176 => (Returned::Value(Word::Reference)),
            177 => (Returned::Nothing),
        )
    };
}

/// The return of an opcode.
pub(crate) fn read_return(opcode: u8) -> Option<Returned>
    ensures found { IfSome result (λ r. return_opcode r ≡ opcode) }
    ensures only { (r : Returned) → opcode ≡ return_opcode r → result ≡ Some r }
{
    return_table!(read opcode)
}

/// The opcode of a return.
pub(crate) fn return_byte(returned: Returned) -> u8
    ensures { result ≡ return_opcode returned }
{
    return_table!(write returned)
}
