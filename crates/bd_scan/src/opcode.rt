// The opcodes that are not supported (JVM Specification SE 8, 6.5).
ghost use Rattle.std.specs.Prelude.{◌≡◌, ◌<◌, ◌+◌};
ghost use Rattle.cf_code.specs.Numbers.{arith_opcode};
ghost use Rattle.cf_code.specs.declared.number.Num.TheVariants.{Float, Double};
ghost use Rattle.bd_scan.specs.Opcodes.{constant_opcode, access_opcode, local_opcode, array_opcode, real_conversion};
ghost use Rattle.bd_scan.specs.Opcodes.{real_comparison, number_opcode, jump_opcode, return_opcode, object_opcode};
ghost use Rattle.bd_scan.specs.Opcodes.{unsupported_opcode};

use cf_code::{
    ArithOp, Array, Call, Comparison, Constant, Conversion, Element, Instr, Jump, Local,
    LocalIndex, Num, Number, Object, Returned, Word,
};

fn constant_opcode(constant: Constant) -> Option<u8>
    ensures { result ≡ constant_opcode constant }
{
    match constant {
        Constant::Fconst(value) => Some(11 + value.min(2)),
        Constant::Dconst(value) => Some(14 + value.min(1)),
        _ => None,
    }
}

/// The opcode of an access whose short forms begin at one opcode, and whose other forms have another.
fn access_opcode(first: u8, opcode: u8, index: LocalIndex) -> u8
    requires { first + 3 < 256 }
    ensures { result ≡ access_opcode first opcode index }
{
    match index {
        LocalIndex::Short(local) => first + local.min(3),
        LocalIndex::Byte(_) | LocalIndex::Wide(_) => opcode,
    }
}

fn local_opcode(local: Local) -> Option<u8>
    ensures { result ≡ local_opcode local }
{
    match local {
        Local::Load(Word::Float, index) => Some(access_opcode(34, 23, index)),
        Local::Load(Word::Double, index) => Some(access_opcode(38, 24, index)),
        Local::Store(Word::Float, index) => Some(access_opcode(67, 56, index)),
        Local::Store(Word::Double, index) => Some(access_opcode(71, 57, index)),
        Local::Ret(_) | Local::RetWide(_) => Some(169),
        _ => None,
    }
}

fn array_opcode(array: Array) -> Option<u8>
    ensures { result ≡ array_opcode array }
{
    match array {
        Array::Load(Element::Float) => Some(48),
        Array::Load(Element::Double) => Some(49),
        Array::Store(Element::Float) => Some(81),
        Array::Store(Element::Double) => Some(82),
        Array::NewMany(_, _) => Some(197),
        _ => None,
    }
}

fn float_opcode(op: ArithOp) -> u8
    ensures { result ≡ arith_opcode op Float }
{
    match op {
        ArithOp::Add => 98,
        ArithOp::Sub => 102,
        ArithOp::Mul => 106,
        ArithOp::Div => 110,
        ArithOp::Rem => 114,
        ArithOp::Neg => 118,
    }
}

fn double_opcode(op: ArithOp) -> u8
    ensures { result ≡ arith_opcode op Double }
{
    match op {
        ArithOp::Add => 99,
        ArithOp::Sub => 103,
        ArithOp::Mul => 107,
        ArithOp::Div => 111,
        ArithOp::Rem => 115,
        ArithOp::Neg => 119,
    }
}

fn conversion_opcode(conversion: Conversion) -> Option<u8>
    ensures { result ≡ real_conversion conversion }
{
    match conversion {
        Conversion::IntToFloat => Some(134),
        Conversion::IntToDouble => Some(135),
        Conversion::LongToFloat => Some(137),
        Conversion::LongToDouble => Some(138),
        Conversion::FloatToInt => Some(139),
        Conversion::FloatToLong => Some(140),
        Conversion::FloatToDouble => Some(141),
        Conversion::DoubleToInt => Some(142),
        Conversion::DoubleToLong => Some(143),
        Conversion::DoubleToFloat => Some(144),
        _ => None,
    }
}

fn comparison_opcode(comparison: Comparison) -> Option<u8>
    ensures { result ≡ real_comparison comparison }
{
    match comparison {
        Comparison::CompareLong => None,
        Comparison::CompareFloatLess => Some(149),
        Comparison::CompareFloatGreater => Some(150),
        Comparison::CompareDoubleLess => Some(151),
        Comparison::CompareDoubleGreater => Some(152),
    }
}

fn number_opcode(number: Number) -> Option<u8>
    ensures { result ≡ number_opcode number }
{
    match number {
        Number::Arith(op, Num::Float) => Some(float_opcode(op)),
        Number::Arith(op, Num::Double) => Some(double_opcode(op)),
        Number::Convert(conversion) => conversion_opcode(conversion),
        Number::Compare(comparison) => comparison_opcode(comparison),
        _ => None,
    }
}

fn jump_opcode(jump: Jump) -> Option<u8>
    ensures { result ≡ jump_opcode jump }
{
    match jump {
        Jump::Jsr(_) => Some(168),
        Jump::JsrW(_) => Some(201),
        _ => None,
    }
}

fn return_opcode(returned: Returned) -> Option<u8>
    ensures { result ≡ return_opcode returned }
{
    match returned {
        Returned::Value(Word::Float) => Some(174),
        Returned::Value(Word::Double) => Some(175),
        _ => None,
    }
}

fn object_opcode(object: Object) -> Option<u8>
    ensures { result ≡ object_opcode object }
{
    match object {
        Object::MonitorEnter => Some(194),
        Object::MonitorExit => Some(195),
        _ => None,
    }
}

/// The opcode of an instruction that is not supported.
pub(crate) fn unsupported_opcode(instr: &Instr) -> Option<u8>
    ensures { result ≡ unsupported_opcode instr.now }
{
    match instr {
        Instr::Constant(constant) => constant_opcode(*constant),
        Instr::Local(local) => local_opcode(*local),
        Instr::Array(array) => array_opcode(*array),
        Instr::Number(number) => number_opcode(*number),
        Instr::Jump(jump) => jump_opcode(*jump),
        Instr::Return(returned) => return_opcode(*returned),
        Instr::Call(Call::Dynamic(_, _)) => Some(186),
        Instr::Object(object) => object_opcode(*object),
        _ => None,
    }
}
