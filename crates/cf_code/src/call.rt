// Instructions that call a method.
ghost use Rattle.std.specs.Prelude.{◌≡◌, ◌++◌, ◌∷◌, Some, IfSome, OnOk};
ghost use Rattle.cf_code.specs.Bytes.{two};
ghost use Rattle.cf_code.specs.Calls.{call_spelling, FitsCall};

use jv_base::Mem;

/// An instruction that calls a method, with its index of the constant pool (JVM Specification SE 8, 6.5). The last two
/// bytes of `Interface` are a count of words and a byte that is 0 in a class that the JVM takes, and those of `Dynamic`
/// are 0 there too.
#[derive(Clone, Copy, Debug, PartialEq, Eq)]
pub enum Call {
    Virtual(u16),
    Special(u16),
    Static(u16),
    Interface(u16, u8, u8),
    Dynamic(u16, u16),
}

/// The instruction that these bytes spell.
pub(crate) fn read_call(bytes: &[u8]) -> Option<Call>
    ensures found { IfSome result (λ c. (bytes.now ≡ call_spelling c) × FitsCall c) }
    ensures only { (c : Call) → FitsCall c → bytes.now ≡ call_spelling c → result ≡ Some c }
{
    match bytes {
        [182, high, low] => Some(Call::Virtual(u16::from_be_bytes([*high, *low]))),
        [183, high, low] => Some(Call::Special(u16::from_be_bytes([*high, *low]))),
        [184, high, low] => Some(Call::Static(u16::from_be_bytes([*high, *low]))),
        [185, high, low, count, zero] => Some(Call::Interface(
            u16::from_be_bytes([*high, *low]),
            *count,
            *zero,
        )),
        [186, high, low, zeros_high, zeros_low] => Some(Call::Dynamic(
            u16::from_be_bytes([*high, *low]),
            u16::from_be_bytes([*zeros_high, *zeros_low]),
        )),
        _ => None,
    }
}

/// Puts the bytes of the instruction at the end.
pub(crate) fn put_call(out: &mut Vec<u8>, call: Call) -> Mem<()>
    ensures { OnOk result (out.new.items ≡ out.old.items ++ call_spelling call) }
{
    match call {
        Call::Virtual(index) => put_indexed(out, 182, index),
        Call::Special(index) => put_indexed(out, 183, index),
        Call::Static(index) => put_indexed(out, 184, index),
        Call::Interface(index, count, zero) => {
            let [high, low] = index.to_be_bytes();
            out.extend_from_slice(&[185, high, low, count, zero])
        }
        Call::Dynamic(index, zeros) => {
            let [high, low] = index.to_be_bytes();
            let [zeros_high, zeros_low] = zeros.to_be_bytes();
            out.extend_from_slice(&[186, high, low, zeros_high, zeros_low])
        }
    }
}

/// Puts an opcode with an index of two bytes at the end.
pub(crate) fn put_indexed(out: &mut Vec<u8>, opcode: u8, index: u16) -> Mem<()>
    ensures { OnOk result (out.new.items ≡ out.old.items ++ opcode ∷ two index) }
{
    let [high, low] = index.to_be_bytes();
    out.extend_from_slice(&[opcode, high, low])
}
