// Instructions on numbers: arithmetic, shifts, bitwise operations, conversions and comparisons.
ghost use Rattle.std.specs.Prelude.{◌≡◌, Some, IfSome};
ghost use Rattle.cf_code.specs.Numbers.{arith_opcode, shift_opcode, bit_opcode, conversion_opcode, comparison_opcode, number_opcode};

use crate::table::opcode_table;

/// A type of numbers.
#[derive(Clone, Copy, Debug, PartialEq, Eq)]
pub enum Num {
    Int,
    Long,
    Float,
    Double,
}

/// A type of whole numbers.
#[derive(Clone, Copy, Debug, PartialEq, Eq)]
pub enum Whole {
    WholeInt,
    WholeLong,
}

/// An operation of arithmetic. `Neg` takes one number, the others two.
#[derive(Clone, Copy, Debug, PartialEq, Eq)]
pub enum ArithOp {
    Add,
    Sub,
    Mul,
    Div,
    Rem,
    Neg,
}

/// A shift: to the left, to the right with the sign, or to the right with zeros.
#[derive(Clone, Copy, Debug, PartialEq, Eq)]
pub enum ShiftOp {
    Left,
    Right,
    RightUnsigned,
}

/// An operation on each bit.
#[derive(Clone, Copy, Debug, PartialEq, Eq)]
pub enum BitOp {
    And,
    Or,
    Xor,
}

/// A conversion of a number to another type.
#[derive(Clone, Copy, Debug, PartialEq, Eq)]
pub enum Conversion {
    IntToLong,
    IntToFloat,
    IntToDouble,
    LongToInt,
    LongToFloat,
    LongToDouble,
    FloatToInt,
    FloatToLong,
    FloatToDouble,
    DoubleToInt,
    DoubleToLong,
    DoubleToFloat,
    IntToByte,
    IntToChar,
    IntToShort,
}

/// A comparison of two numbers, which gives an int. Of floats and doubles, where one is no number, `Less` gives -1 and
/// `Greater` gives 1.
#[derive(Clone, Copy, Debug, PartialEq, Eq)]
pub enum Comparison {
    CompareLong,
    CompareFloatLess,
    CompareFloatGreater,
    CompareDoubleLess,
    CompareDoubleGreater,
}

/// An instruction on numbers (JVM Specification SE 8, 2.11.3 and 2.11.4). It has no operand in the code.
#[derive(Clone, Copy, Debug, PartialEq, Eq)]
pub enum Number {
    Arith(ArithOp, Num),
    Shift(ShiftOp, Whole),
    Bitwise(BitOp, Whole),
    Convert(Conversion),
    Compare(Comparison),
}

/// The instruction on numbers of an opcode.
pub(crate) fn read_number(opcode: u8) -> Option<Number>
    ensures found { IfSome result (λ n. opcode ≡ number_opcode n) }
    ensures only { (n : Number) → opcode ≡ number_opcode n → result ≡ Some n }
{
    if let Some((op, num)) = read_arith(opcode) {
        return Some(Number::Arith(op, num));
    }
    if let Some((op, whole)) = read_shift(opcode) {
        return Some(Number::Shift(op, whole));
    }
    if let Some((op, whole)) = read_bitwise(opcode) {
        return Some(Number::Bitwise(op, whole));
    }
    if let Some(conversion) = read_conversion(opcode) {
        return Some(Number::Convert(conversion));
    }
    Some(Number::Compare(read_comparison(opcode)?))
}

/// The opcode of an instruction on numbers.
pub(crate) fn number_byte(number: Number) -> u8
    ensures { result ≡ number_opcode number }
{
    match number {
        Number::Arith(op, num) => arith_byte(op, num),
        Number::Shift(op, whole) => shift_byte(op, whole),
        Number::Bitwise(op, whole) => bit_byte(op, whole),
        Number::Convert(conversion) => conversion_byte(conversion),
        Number::Compare(comparison) => comparison_byte(comparison),
    }
}

/// The opcodes of arithmetic.
macro_rules! arith_table {
    ($side:ident $known:expr) => {
        opcode_table!($side $known;
            96 => (ArithOp::Add, Num::Int),
            97 => (ArithOp::Add, Num::Long),
            98 => (ArithOp::Add, Num::Float),
            99 => (ArithOp::Add, Num::Double),
            100 => (ArithOp::Sub, Num::Int),
            101 => (ArithOp::Sub, Num::Long),
            102 => (ArithOp::Sub, Num::Float),
            103 => (ArithOp::Sub, Num::Double),
            104 => (ArithOp::Mul, Num::Int),
            105 => (ArithOp::Mul, Num::Long),
            106 => (ArithOp::Mul, Num::Float),
            107 => (ArithOp::Mul, Num::Double),
            108 => (ArithOp::Div, Num::Int),
            109 => (ArithOp::Div, Num::Long),
            110 => (ArithOp::Div, Num::Float),
            111 => (ArithOp::Div, Num::Double),
            112 => (ArithOp::Rem, Num::Int),
            113 => (ArithOp::Rem, Num::Long),
            114 => (ArithOp::Rem, Num::Float),
            115 => (ArithOp::Rem, Num::Double),
            116 => (ArithOp::Neg, Num::Int),
            117 => (ArithOp::Neg, Num::Long),
            118 => (ArithOp::Neg, Num::Float),
            119 => (ArithOp::Neg, Num::Double),
        )
    };
}

/// The arithmetic of an opcode.
fn read_arith(opcode: u8) -> Option<(ArithOp, Num)>
    ensures found { IfSome result (λ r. opcode ≡ arith_opcode r.0 r.1) }
    ensures only { (o : ArithOp) (t : Num) → opcode ≡ arith_opcode o t → result ≡ Some (o, t) }
{
    arith_table!(read opcode)
}

/// Its opcode.
fn arith_byte(op: ArithOp, of: Num) -> u8
    ensures { result ≡ arith_opcode op of }
{
    arith_table!(write(op, of))
}

/// The opcodes of shifts.
macro_rules! shift_table {
    ($side:ident $known:expr) => {
        opcode_table!($side $known;
            120 => (ShiftOp::Left, Whole::WholeInt),
            121 => (ShiftOp::Left, Whole::WholeLong),
            122 => (ShiftOp::Right, Whole::WholeInt),
            123 => (ShiftOp::Right, Whole::WholeLong),
            124 => (ShiftOp::RightUnsigned, Whole::WholeInt),
            125 => (ShiftOp::RightUnsigned, Whole::WholeLong),
        )
    };
}

/// The shift of an opcode.
fn read_shift(opcode: u8) -> Option<(ShiftOp, Whole)>
    ensures found { IfSome result (λ r. opcode ≡ shift_opcode r.0 r.1) }
    ensures only { (o : ShiftOp) (t : Whole) → opcode ≡ shift_opcode o t → result ≡ Some (o, t) }
{
    shift_table!(read opcode)
}

/// Its opcode.
fn shift_byte(op: ShiftOp, of: Whole) -> u8
    ensures { result ≡ shift_opcode op of }
{
    shift_table!(write(op, of))
}

/// The opcodes of bitwise operations.
macro_rules! bit_table {
    ($side:ident $known:expr) => {
        opcode_table!($side $known;
            126 => (BitOp::And, Whole::WholeInt),
            127 => (BitOp::And, Whole::WholeLong),
            128 => (BitOp::Or, Whole::WholeInt),
            129 => (BitOp::Or, Whole::WholeLong),
            130 => (BitOp::Xor, Whole::WholeInt),
            131 => (BitOp::Xor, Whole::WholeLong),
        )
    };
}

/// The bitwise operation of an opcode.
fn read_bitwise(opcode: u8) -> Option<(BitOp, Whole)>
    ensures found { IfSome result (λ r. opcode ≡ bit_opcode r.0 r.1) }
    ensures only { (o : BitOp) (t : Whole) → opcode ≡ bit_opcode o t → result ≡ Some (o, t) }
{
    bit_table!(read opcode)
}

/// Its opcode.
fn bit_byte(op: BitOp, of: Whole) -> u8
    ensures { result ≡ bit_opcode op of }
{
    bit_table!(write(op, of))
}

/// The opcodes of conversions.
macro_rules! conversion_table {
    ($side:ident $known:expr) => {
        opcode_table!($side $known;
            133 => (Conversion::IntToLong),
            134 => (Conversion::IntToFloat),
            135 => (Conversion::IntToDouble),
            136 => (Conversion::LongToInt),
            137 => (Conversion::LongToFloat),
            138 => (Conversion::LongToDouble),
            139 => (Conversion::FloatToInt),
            140 => (Conversion::FloatToLong),
            141 => (Conversion::FloatToDouble),
            142 => (Conversion::DoubleToInt),
            143 => (Conversion::DoubleToLong),
            144 => (Conversion::DoubleToFloat),
            145 => (Conversion::IntToByte),
            146 => (Conversion::IntToChar),
            147 => (Conversion::IntToShort),
        )
    };
}

/// The conversion of an opcode.
fn read_conversion(opcode: u8) -> Option<Conversion>
    ensures found { IfSome result (λ r. opcode ≡ conversion_opcode r) }
    ensures only { (r : Conversion) → opcode ≡ conversion_opcode r → result ≡ Some r }
{
    conversion_table!(read opcode)
}

/// Its opcode.
fn conversion_byte(of: Conversion) -> u8
    ensures { result ≡ conversion_opcode of }
{
    conversion_table!(write of)
}

/// The opcodes of comparisons.
macro_rules! comparison_table {
    ($side:ident $known:expr) => {
        opcode_table!($side $known;
            148 => (Comparison::CompareLong),
            149 => (Comparison::CompareFloatLess),
            150 => (Comparison::CompareFloatGreater),
            151 => (Comparison::CompareDoubleLess),
            152 => (Comparison::CompareDoubleGreater),
        )
    };
}

/// The comparison of an opcode.
fn read_comparison(opcode: u8) -> Option<Comparison>
    ensures found { IfSome result (λ r. opcode ≡ comparison_opcode r) }
    ensures only { (r : Comparison) → opcode ≡ comparison_opcode r → result ≡ Some r }
{
    comparison_table!(read opcode)
}

/// Its opcode.
fn comparison_byte(of: Comparison) -> u8
    ensures { result ≡ comparison_opcode of }
{
    comparison_table!(write of)
}
