// Instructions that push a constant.
ghost use Rattle.std.specs.Prelude.{◌≡◌, ◌++◌, ◌↔◌, IsTrue, Some, IfSome, OnOk};
ghost use Rattle.cf_code.specs.Constants.{constant_spelling, FitsConstant};

use jv_base::Mem;

/// An instruction that pushes a constant (JVM Specification SE 8, 6.5). `Iconst` has -1 to 5, `Lconst` and `Dconst`
/// have 0 and 1, `Fconst` has 0 to 2. The number of an `Ldc` is an index of the constant pool.
#[derive(Clone, Copy, Debug, PartialEq, Eq)]
pub enum Constant {
    Null,
    Iconst(i8),
    Lconst(u8),
    Fconst(u8),
    Dconst(u8),
    Bipush(i8),
    Sipush(i16),
    Ldc(u8),
    LdcW(u16),
    Ldc2W(u16),
}

/// Whether the number of the constant fits its form.
pub(crate) fn fits_constant(constant: Constant) -> bool
    ensures { IsTrue result ↔ FitsConstant constant }
{
    match constant {
        Constant::Iconst(value) => -1 <= value && value <= 5,
        Constant::Lconst(value) | Constant::Dconst(value) => value <= 1,
        Constant::Fconst(value) => value <= 2,
        _ => true,
    }
}

/// The instruction that these bytes spell.
pub(crate) fn read_constant(bytes: &[u8]) -> Option<Constant>
    ensures found { IfSome result (λ c. (bytes.now ≡ constant_spelling c) × FitsConstant c) }
    ensures only { (c : Constant) → FitsConstant c → bytes.now ≡ constant_spelling c → result ≡ Some c }
{
    match bytes {
        [1] => Some(Constant::Null),
        [opcode @ 2..=8] => Some(Constant::Iconst(opcode.cast_signed() - 3)),
        [opcode @ 9..=10] => Some(Constant::Lconst(opcode - 9)),
        [opcode @ 11..=13] => Some(Constant::Fconst(opcode - 11)),
        [opcode @ 14..=15] => Some(Constant::Dconst(opcode - 14)),
        [16, value] => Some(Constant::Bipush(value.cast_signed())),
        [17, high, low] => Some(Constant::Sipush(i16::from_be_bytes([*high, *low]))),
        [18, index] => Some(Constant::Ldc(*index)),
        [19, high, low] => Some(Constant::LdcW(u16::from_be_bytes([*high, *low]))),
        [20, high, low] => Some(Constant::Ldc2W(u16::from_be_bytes([*high, *low]))),
        _ => None,
    }
}

/// Puts the bytes of the instruction at the end.
pub(crate) fn put_constant(out: &mut Vec<u8>, constant: Constant) -> Mem<()>
    requires { FitsConstant constant }
    ensures { OnOk result (out.new.items ≡ out.old.items ++ constant_spelling constant) }
{
    match constant {
        Constant::Null => out.extend_from_slice(&[1]),
        Constant::Iconst(value) => out.extend_from_slice(&[(value + 3).cast_unsigned()]),
        Constant::Lconst(value) => out.extend_from_slice(&[9 + value]),
        Constant::Fconst(value) => out.extend_from_slice(&[11 + value]),
        Constant::Dconst(value) => out.extend_from_slice(&[14 + value]),
        Constant::Bipush(value) => out.extend_from_slice(&[16, value.cast_unsigned()]),
        Constant::Sipush(value) => {
            let [high, low] = value.to_be_bytes();
            out.extend_from_slice(&[17, high, low])
        }
        Constant::Ldc(index) => out.extend_from_slice(&[18, index]),
        Constant::LdcW(index) => {
            let [high, low] = index.to_be_bytes();
            out.extend_from_slice(&[19, high, low])
        }
        Constant::Ldc2W(index) => {
            let [high, low] = index.to_be_bytes();
            out.extend_from_slice(&[20, high, low])
        }
    }
}
