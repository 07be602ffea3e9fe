// The reader of a method's text form.
ghost use Rattle.std.specs.Prelude.{◌≡◌, ◌≢◌, ℕ, ◌+◌, ◌^◌, ◌<◌, ◌≤◌, ◌∷◌, ◌++◌, ◌↔◌, false, List, length, IfSome, IfNone, IfOk, IsTrue};
ghost use Rattle.std.specs.Char.{IsScalar};
ghost use Rattle.std.specs.Str.{IsUtf8};
ghost use Rattle.std.specs.Fmt.{digit_glyph};
ghost use Rattle.jv_base.specs.declared.method.MethodId.{MethodId};
ghost use Rattle.jv_base.specs.Entry.{IsEntryMethod, IsEntryText};
ghost use Rattle.jv_base.specs.Forms.{IsTextOf};
ghost use Rattle.jv_base.specs.Calls.Parts.{IsMethodText, IsClassAndMethod};
ghost use Rattle.jv_base.specs.Calls.Fronts.{HasFront, LeavesAt};
ghost use Rattle.jv_base.specs.Front.{StopsAt};
ghost use Rattle.jv_base.specs.Spelling.{IsUnit, escaped_unit, escape_text, character_text, name_text, entry_spelling};

use crate::cut::{after_byte, cut};
use crate::form::Form;
use crate::spelled::{part_of, spelled_front};
use crate::spelling::is_plain;
use crate::{Mem, MethodId, Name, TextFault};
use std::alloc::Global;

fn hex_value(digit: u8) -> Option<u16>
    ensures found { IfSome result (λ v. (v < 16) × (digit ≡ digit_glyph false v)) }
    ensures none { IfNone result ((v : ℕ) → v < 16 → digit ≢ digit_glyph false v) }
{
    match digit {
        b'0'..=b'9' => Some(u16::from(digit - b'0')),
        b'a'..=b'f' => Some(u16::from(digit - b'a') + 10),
        _ => None,
    }
}

// The hexadecimal digit that a text begins with, and what follows it.
pub(crate) fn digit_of(text: &[u8]) -> Option<(u16, &[u8])>
    ensures found { IfSome result (λ r. (r.0 < 16) × (text.now ≡ digit_glyph false r.0 ∷ r.1.now)) }
    ensures none { IfNone result ((v : ℕ) (rest : List ℕ) → v < 16 → text.now ≢ digit_glyph false v ∷ rest) }
{
    let (first, rest) = text.split_first()?;
    let value = hex_value(*first)?;
    Some((value, rest))
}

// The UTF-16 unit that a text begins with, and what follows it.
fn unit_of(text: &[u8]) -> Option<(u16, &[u8])>
    ensures found { IfSome result (λ r. IsUnit r.0 × (text.now ≡ escaped_unit r.0 ++ r.1.now)) }
    ensures none { IfNone result ((rest : List ℕ) → HasFront IsUnit escaped_unit text.now rest → ⊥) }
{
    let rest = after_byte(text, b'\\')?;
    let rest = after_byte(rest, b'u')?;
    let (a, rest) = digit_of(rest)?;
    let (b, rest) = digit_of(rest)?;
    let (c, rest) = digit_of(rest)?;
    let (d, rest) = digit_of(rest)?;
    Some((a * 4096 + b * 256 + c * 16 + d, rest))
}

fn is_low_surrogate(unit: u16) -> bool
    ensures { IsTrue result ↔ ((0xdc00 ≤ unit) × (unit < 0xe000)) }
{
    matches!(unit, 0xdc00..=0xdfff)
}

// The character of two units of which the first, a surrogate, was read, and what follows them.
fn pair_of(high: u16, text: &[u8]) -> Option<(char, &[u8])>
    requires from { 0xd800 ≤ high }
    requires to { high < 0xe000 }
    ensures found { IfSome result (λ r. IsScalar r.0 × (escaped_unit high ++ text.now ≡ escape_text r.0 ++ r.1.now)) }
    ensures none { IfNone result ((rest : List ℕ) → HasFront IsScalar escape_text (escaped_unit high ++ text.now) rest → ⊥) }
{
    if high >= 0xdc00 {
        return None;
    }
    let (low, rest) = unit_of(text)?;
    if !is_low_surrogate(low) {
        return None;
    }
    let above = u32::from(high - 0xd800) * 1024 + u32::from(low - 0xdc00);
    let c = char::from_u32(0x1_0000 + above)?;
    Some((c, rest))
}

// The character whose UTF-16 units a text begins with, and what follows them.
fn escape_of(text: &[u8]) -> Option<(char, &[u8])>
    ensures found { IfSome result (λ r. IsScalar r.0 × (text.now ≡ escape_text r.0 ++ r.1.now)) }
    ensures none { IfNone result ((rest : List ℕ) → HasFront IsScalar escape_text text.now rest → ⊥) }
{
    let (unit, rest) = unit_of(text)?;
    match char::from_u32(u32::from(unit)) {
        Some(c) => Some((c, rest)),
        None => pair_of(unit, rest),
    }
}

// The character that a text begins with, and what follows it.
pub(crate) fn character_of(text: &[u8]) -> Option<(char, &[u8])>
    ensures found { IfSome result (λ r. IsScalar r.0 × (text.now ≡ character_text r.0 ++ r.1.now)) }
    ensures none { IfNone result ((rest : List ℕ) → HasFront IsScalar character_text text.now rest → ⊥) }
    ensures shorter { IfSome result (λ r. length r.1.now < length text.now) }
{
    let (first, rest) = text.split_first()?;
    let plain = char::from(*first);
    if is_plain(plain) {
        return Some((plain, rest));
    }
    let (c, rest) = escape_of(text)?;
    if is_plain(c) {
        return None;
    }
    Some((c, rest))
}

// The name that a text spells, where it spells one.
pub(crate) fn name_of(alloc: Global, text: &[u8]) -> Mem<Option<Name>>
    ensures found { IfOk result (λ o. IfSome o (λ n. IsUtf8 n × (text.now ≡ name_text n))) }
    ensures none { IfOk result (λ o. IfNone o ((n : List ℕ) → IsUtf8 n → text.now ≡ name_text n → ⊥)) }
{
    let mut name = String::new(alloc);
    let mut rest = text;
    while !rest.is_empty() {
        let Some((c, after)) = character_of(rest) else {
            return Ok(None);
        };
        name.push(c)?;
        rest = after;
    }
    Ok(Some(Name::from_string(name)))
}

// The name and the descriptor of the method whose text form, without the class, this is. The place is that of the text
// in a longer one.
fn read_method(alloc: Global, text: &[u8], place: u64) -> Result<(Name, Name), TextFault>
    requires { place + length text.now < 2 ^ 64 }
    ensures found { IfOk result (λ r. IsTextOf Form.MethodName r.0 × IsTextOf Form.MethodDescriptor r.1
        × (text.now ≡ name_text r.0 ++ 58 ∷ name_text r.1)) }
    ensures fault { (at : ℕ) → result ≡ Err (TextFault.Bad at) → LeavesAt IsMethodText text.now place at }
{
    let Some((name, desc)) = cut(text, b':') else {
        return Err(TextFault::Bad(place + spelled_front(Form::MethodName, text) as u64));
    };
    let desc_place = place + name.len() as u64 + 1;
    let name = part_of(alloc, Form::MethodName, name, place)?;
    let desc = part_of(alloc, Form::MethodDescriptor, desc, desc_place)?;
    Ok((name, desc))
}

// The method whose text form, by its bytes, this is.
fn entry_of(alloc: Global, text: &[u8]) -> Result<MethodId, TextFault>
    ensures found { IfOk result (λ m. IsEntryMethod m × (text.now ≡ entry_spelling m)) }
    ensures fault { (at : ℕ) → result ≡ Err (TextFault.Bad at) → LeavesAt IsClassAndMethod text.now 0 at }
{
    let Some((class, method)) = cut(text, b'.') else {
        return Err(TextFault::Bad(spelled_front(Form::ClassName, text) as u64));
    };
    let method_place = class.len() as u64 + 1;
    let class = part_of(alloc, Form::ClassName, class, 0)?;
    let (name, desc) = read_method(alloc, method, method_place)?;
    Ok(MethodId { class, name, desc })
}

/// The method whose text form this is. `Bad` comes exactly where it is no entry's, with the number of characters of its
/// longest prefix that begins one.
pub fn read_entry(alloc: Global, text: &str) -> Result<MethodId, TextFault>
    ensures found { IfOk result (λ m. IsEntryMethod m × (text.now ≡ entry_spelling m)) }
    ensures outside { (place : ℕ) → result ≡ Err (TextFault.Bad place)
        → (m : MethodId) → IsEntryMethod m → text.now ≡ entry_spelling m → ⊥ }
    ensures fault { (place : ℕ) → result ≡ Err (TextFault.Bad place) → StopsAt IsEntryText text.now place }
{
    entry_of(alloc, text.as_bytes())
}
