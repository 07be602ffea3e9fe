// How far a text is an escape of a character.
ghost use Rattle.std.specs.Prelude.{◌≡◌, ◌+◌, ◌*◌, ◌<◌, ◌≤◌, ◌++◌, ◌↔◌, length, IfSome, IfNone, IfOk, IfErr, IsTrue};
ghost use Rattle.jv_base.specs.Forms.{IsEscape};
ghost use Rattle.jv_base.specs.Calls.Fronts.{IsLongestFront};
ghost use Rattle.jv_base.specs.Spelling.{escaped_unit};
ghost use Rattle.jv_base.specs.Calls.Units.{IsEscapeUnit, IsEscapedUnit, IsBlock, HasUnit, HasDigit, EndsAt};

use crate::cut::after_byte;
use crate::reading::digit_of;
use crate::spelling::is_plain;

// Whether a unit of an escape, its second or its first, is among the `size` ones from `least` on.
fn has_unit(second: bool, least: u16, size: u16) -> bool
    requires { IsBlock least size }
    ensures { IsTrue result ↔ HasUnit second least size }
{
    let last = least + (size - 1);
    if second {
        return least < 0xe000 && last >= 0xdc00;
    }
    if least >= 0xdc00 && last < 0xe000 {
        return false;
    }
    match size {
        1 => least != 0 && (least >= 0x80 || !is_plain(char::from(least as u8))),
        16 => least != 0x60,
        _ => true,
    }
}

// The least unit that goes on from `least` with the digit of this weight that a text begins with, where an escape has
// such units, and what follows the digit.
fn digit_at(second: bool, least: u16, size: u16, text: &[u8]) -> Option<(u16, &[u8])>
    requires { IsBlock (least + 15 * size) size }
    ensures found { IfSome result (λ r. HasDigit second least size text.now r.0 r.1.now) }
    ensures none { IfNone result (EndsAt second least size text.now) }
{
    let (digit, rest) = digit_of(text)?;
    let unit = least + digit * size;
    if has_unit(second, unit, size) {
        Some((unit, rest))
    } else {
        None
    }
}

// The unit of an escape, its second or its first, that a text begins with, and what follows it; else the length of the
// longest prefix that begins the text of such a unit.
fn unit_at(second: bool, text: &[u8]) -> Result<(u16, &[u8]), usize>
    ensures found { IfOk result (λ r. IsEscapeUnit second r.0 × (text.now ≡ escaped_unit r.0 ++ r.1.now)) }
    ensures fault { IfErr result (λ n. (n < 6) × IsLongestFront (IsEscapedUnit second) text.now n) }
{
    let Some(rest) = after_byte(text, b'\\') else {
        return Err(0);
    };
    let Some(rest) = after_byte(rest, b'u') else {
        return Err(1);
    };
    let Some((a, rest)) = digit_at(second, 0, 4096, rest) else {
        return Err(2);
    };
    let Some((b, rest)) = digit_at(second, a, 256, rest) else {
        return Err(3);
    };
    let Some((c, rest)) = digit_at(second, b, 16, rest) else {
        return Err(4);
    };
    let Some((unit, rest)) = digit_at(second, c, 1, rest) else {
        return Err(5);
    };
    Ok((unit, rest))
}

fn is_high_surrogate(unit: u16) -> bool
    ensures { IsTrue result ↔ ((0xd800 ≤ unit) × (unit < 0xdc00)) }
{
    matches!(unit, 0xd800..=0xdbff)
}

/// The length of the longest prefix that begins the escape of a character of a name, which is none for itself and not
/// the character 0.
pub(crate) fn escape_front(text: &[u8]) -> usize
    ensures longest { IsLongestFront IsEscape text.now result }
    ensures within { result ≤ length text.now }
{
    let (first, rest) = match unit_at(false, text) {
        Ok(unit) => unit,
        Err(count) => return count,
    };
    if !is_high_surrogate(first) {
        return 6;
    }
    match unit_at(true, rest) {
        Ok(_) => 12,
        Err(count) => 6 + count,
    }
}
