// How many bytes an instruction has.
ghost use Rattle.std.specs.Prelude.{◌≡◌, ◌≤◌, ◌^◌, ℕ, Some, IfSome};
ghost use Rattle.cf_code.specs.Sizes.{fixed_size, wide_size, HasKeys, HasTable, HasLookup, HasOperands, HasSize};

use crate::switch::{key_count, next_count, next_int, split_padding};

/// The bytes of an instruction whose opcode alone tells them.
fn fixed_bytes(opcode: u8) -> Option<usize>
    ensures { result ≡ fixed_size opcode }
{
    match opcode {
        16 | 18 | 21..=25 | 54..=58 | 169 | 188 => Some(2),
        17 | 19..=20 | 132 | 153..=168 | 178..=184 | 187 | 189 | 192..=193 | 198..=199 => Some(3),
        197 => Some(4),
        185..=186 | 200..=201 => Some(5),
        0..=201 => Some(1),
        _ => None,
    }
}

/// The bytes of an instruction behind wide, with wide itself.
fn wide_bytes(bytes: &[u8]) -> Option<usize>
    ensures { result ≡ wide_size bytes.now }
{
    match bytes {
        [21..=25 | 54..=58 | 169, ..] => Some(4),
        [132, ..] => Some(6),
        _ => None,
    }
}

/// How many keys a table has, by what stands behind its padding.
fn table_keys(body: &[u8]) -> Option<usize>
    ensures found { IfSome result (λ n. HasKeys body.now n) }
    ensures only { (n : ℕ) → HasKeys body.now n → result ≡ Some n }
    ensures within { IfSome result (λ n. n ≤ 2 ^ 32) }
{
    let (_, rest) = next_int(body)?;
    let (low, rest) = next_int(rest)?;
    let (high, _) = next_int(rest)?;
    Some(key_count(low, high))
}

/// The bytes of a table at a pc, by what stands behind its opcode.
fn table_bytes(pc: u16, rest: &[u8]) -> Option<usize>
    ensures found { IfSome result (λ n. HasTable pc rest.now n) }
    ensures only { (n : ℕ) → HasTable pc rest.now n → result ≡ Some n }
{
    let (padding, body) = split_padding(pc, rest)?;
    let count = table_keys(body)?;
    Some(13 + padding.len() + 4 * count)
}

/// The bytes of a lookupswitch at a pc, by what stands behind its opcode.
fn lookup_bytes(pc: u16, rest: &[u8]) -> Option<usize>
    ensures found { IfSome result (λ n. HasLookup pc rest.now n) }
    ensures only { (n : ℕ) → HasLookup pc rest.now n → result ≡ Some n }
{
    let (padding, body) = split_padding(pc, rest)?;
    let (_, body) = next_int(body)?;
    let (count, _) = next_count(body)?;
    Some(9 + padding.len() + 8 * count as usize)
}

/// The bytes of an instruction at a pc, by its opcode and what stands behind it.
fn claimed_bytes(pc: u16, opcode: u8, rest: &[u8]) -> Option<usize>
    ensures found { IfSome result (λ n. HasOperands pc opcode rest.now n) }
    ensures only { (n : ℕ) → HasOperands pc opcode rest.now n → result ≡ Some n }
{
    match opcode {
        170 => table_bytes(pc, rest),
        171 => lookup_bytes(pc, rest),
        196 => wide_bytes(rest),
        other => fixed_bytes(other),
    }
}

/// How many bytes the instruction at the front has, whose opcode is at a pc. None where the opcode is above 201, where
/// `wide` stands before an instruction that has no wide form, and where the instruction passes the end of the bytes. Its
/// targets and its keys are not looked at, and an entry that is claimed costs nothing.
pub fn instr_size(pc: u16, bytes: &[u8]) -> Option<usize>
    ensures found { IfSome result (λ n. HasSize pc bytes.now n) }
    ensures only { (n : ℕ) → HasSize pc bytes.now n → result ≡ Some n }
{
    let (opcode, rest) = bytes.split_first()?;
    let size = claimed_bytes(pc, *opcode, rest)?;
    if size <= bytes.len() {
        Some(size)
    } else {
        None
    }
}
