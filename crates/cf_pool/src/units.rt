// Modified UTF-8 (JVM Specification SE 8, 4.4.7).
ghost use Rattle.std.specs.Prelude.{◌≡◌, ◌≢◌, ℕ, List as list_of, ◌<◌, ◌+◌, ◌∷◌, ◌++◌, length, IfSome, IfNone, IfOk, IfErr};
ghost use Rattle.cf_pool.specs.ModifiedUtf8.{IsUnit, encoded_unit, AreUnitsOf, BeginNoUnit, IsBadUnit};
ghost use Rattle.cf_pool.specs.ConstantPool.{Names, IsTextFault};

use crate::fault::{PoolFault, What, fault_at};
use jv_base::List;
use std::alloc::Global;

/// The six bits of a byte that is not the first of its unit.
fn low_bits(byte: u8) -> Option<u16>
    ensures found { IfSome result (λ bits. (bits < 64) × (byte ≡ 0x80 + bits)) }
    ensures none { IfNone result ((bits : ℕ) → bits < 64 → byte ≢ 0x80 + bits) }
{
    match byte {
        0x80..=0xbf => Some(u16::from(byte - 0x80)),
        _ => None,
    }
}

/// The unit of two bytes of which the first, with these five bits, was read.
fn two_byte_unit(high: u16, bytes: &[u8]) -> Option<(u16, &[u8])>
    requires { high < 32 }
    ensures found { IfSome result (λ r. IsUnit r.0 × ((0xc0 + high) ∷ bytes.now ≡ encoded_unit r.0 ++ r.1.now)) }
    ensures none { IfNone result (BeginNoUnit ((0xc0 + high) ∷ bytes.now)) }
{
    let (second, rest) = bytes.split_first()?;
    let unit = high * 64 + low_bits(*second)?;
    match unit {
        0x01..=0x7f => None,
        _ => Some((unit, rest)),
    }
}

/// The unit of three bytes of which the first, with these four bits, was read.
fn three_byte_unit(high: u16, bytes: &[u8]) -> Option<(u16, &[u8])>
    requires { high < 16 }
    ensures found { IfSome result (λ r. IsUnit r.0 × ((0xe0 + high) ∷ bytes.now ≡ encoded_unit r.0 ++ r.1.now)) }
    ensures none { IfNone result (BeginNoUnit ((0xe0 + high) ∷ bytes.now)) }
{
    let (second, rest) = bytes.split_first()?;
    let middle = low_bits(*second)?;
    let (third, rest) = rest.split_first()?;
    let unit = high * 4096 + middle * 64 + low_bits(*third)?;
    match unit {
        0..0x800 => None,
        _ => Some((unit, rest)),
    }
}

/// The unit that the bytes begin with, and what follows it.
fn unit_at(bytes: &[u8]) -> Option<(u16, &[u8])>
    ensures found { IfSome result (λ r. IsUnit r.0 × (bytes.now ≡ encoded_unit r.0 ++ r.1.now)) }
    ensures none { IfNone result (BeginNoUnit bytes.now) }
    ensures shorter { IfSome result (λ r. length r.1.now < length bytes.now) }
{
    let (first, rest) = bytes.split_first()?;
    match first {
        0x01..=0x7f => Some((u16::from(*first), rest)),
        0xc0..=0xdf => two_byte_unit(u16::from(*first - 0xc0), rest),
        0xe0..=0xef => three_byte_unit(u16::from(*first - 0xe0), rest),
        _ => None,
    }
}

/// The UTF-16 units that the bytes spell in modified UTF-8, all of the bytes (4.4.7). The one fault is `BadUtf8`, at
/// the first byte of the first unit that is not spelled as it must be.
pub fn units_of(alloc: Global, bytes: &[u8]) -> Result<List<u16>, PoolFault>
    ensures found { IfOk result (λ units. AreUnitsOf bytes.now units) }
    ensures fault { IfErr result (Names (IsTextFault bytes.now)) }
    ensures outside { IfErr result (Names (λ _. (units : list_of ℕ) → AreUnitsOf bytes.now units → ⊥)) }
{
    let mut units = List::new(alloc);
    let mut rest = bytes;
    while !rest.is_empty() {
        let Some((unit, after)) = unit_at(rest) else {
            return Err(fault_at(bytes.len() - rest.len(), What::BadUtf8));
        };
        units.add(unit)?;
        rest = after;
    }
    Ok(units)
}
