// The text forms of names, methods and goals.
ghost use Rattle.std.specs.Prelude.{◌≡◌, ◌<◌, [], ◌∷◌, ◌++◌, false, string_bytes, IfOk, OnOk};
ghost use Rattle.std.specs.List.{flat_map};
ghost use Rattle.std.specs.Fmt.{digit_glyph};
ghost use Rattle.jv_base.specs.Spelling.{is_plain, escaped_unit, escape_text, character_text, name_text, entry_spelling, kind_name, site_spelling};

use crate::{Goal, Kind, Mem, MethodId, Name};
use std::alloc::Global;

/// Whether a character stands for itself in the text of a name.
pub(crate) fn is_plain(c: char) -> bool
    ensures { result ≡ is_plain c }
{
    matches!(c, '!'..='~') && !matches!(c, '\\' | ':' | '@')
}

fn push_hex_digit(out: &mut String, value: u16) -> Mem<()>
    requires { value < 16 }
    ensures { OnOk result (string_bytes out.new ≡ string_bytes out.old ++ digit_glyph false value ∷ []) }
{
    let value = value as u8;
    let digit = if value < 10 {
        b'0' + value
    } else {
        b'a' + (value - 10)
    };
    out.push(char::from(digit))
}

#[tactic(auto, unfolding(crate::specs::Spelling::escaped_unit))]
fn push_unit(out: &mut String, unit: u16) -> Mem<()>
    ensures { OnOk result (string_bytes out.new ≡ string_bytes out.old ++ escaped_unit unit) }
{
    out.push_str("\\u")?;
    push_hex_digit(out, unit / 4096)?;
    push_hex_digit(out, unit / 256 % 16)?;
    push_hex_digit(out, unit / 16 % 16)?;
    push_hex_digit(out, unit % 16)
}

fn push_units(out: &mut String, units: &[u16]) -> Mem<()>
    ensures { OnOk result (string_bytes out.new ≡ string_bytes out.old ++ flat_map escaped_unit units.now) }
{
    for unit in units {
        push_unit(out, *unit)?;
    }
    Ok(())
}

#[tactic(auto, unfolding(crate::specs::Spelling::escape_text))]
fn push_escape(out: &mut String, c: char) -> Mem<()>
    ensures { OnOk result (string_bytes out.new ≡ string_bytes out.old ++ escape_text c) }
{
    push_units(out, c.encode_utf16(&mut [0; 2]))
}

#[tactic(auto, unfolding(crate::specs::Spelling::character_text))]
fn push_character(out: &mut String, c: char) -> Mem<()>
    ensures { OnOk result (string_bytes out.new ≡ string_bytes out.old ++ character_text c) }
{
    if is_plain(c) {
        out.push(c)
    } else {
        push_escape(out, c)
    }
}

/// Puts the text form of a name at the end. For want of memory some of it may stand there.
pub fn push_name_text(out: &mut String, name: &Name) -> Mem<()>
    ensures { OnOk result (string_bytes out.new ≡ string_bytes out.old ++ name_text name.now) }
{
    for c in name.as_str().chars() {
        push_character(out, c)?;
    }
    Ok(())
}

fn push_entry(out: &mut String, method: &MethodId) -> Mem<()>
    ensures { OnOk result (string_bytes out.new ≡ string_bytes out.old ++ entry_spelling method.now) }
{
    push_name_text(out, &method.class)?;
    out.push('.')?;
    push_name_text(out, &method.name)?;
    out.push(':')?;
    push_name_text(out, &method.desc)
}

/// The text form of a method, `CLASS.METHOD:DESC`.
pub fn entry_text(alloc: Global, method: &MethodId) -> Mem<Name>
    ensures { IfOk result (λ text. text ≡ entry_spelling method.now) }
{
    let mut out = String::new(alloc);
    push_entry(&mut out, method)?;
    Ok(Name::from_string(out))
}

/// The word of a kind in the text form of a site.
pub fn kind_text(kind: Kind) -> &'static str
    ensures { result.now ≡ kind_name kind }
{
    match kind {
        Kind::Null => "null",
        Kind::Zero => "zero",
        Kind::Bounds => "bounds",
        Kind::NegSize => "negsize",
        Kind::Store => "store",
        Kind::Cast => "cast",
        Kind::StrIndex => "strindex",
        Kind::Assert => "assert",
    }
}

/// The text form of a goal, `CLASS.METHOD:DESC@PC:KIND`, with the pc in decimal.
pub fn site_text(alloc: Global, goal: &Goal) -> Mem<Name>
    ensures { IfOk result (λ text. text ≡ site_spelling goal.now) }
{
    let mut out = String::new(alloc);
    push_entry(&mut out, &goal.site.method)?;
    out.push('@')?;
    out.push_str(goal.site.pc.to_string(alloc)?.as_str())?;
    out.push(':')?;
    out.push_str(kind_text(goal.kind))?;
    Ok(Name::from_string(out))
}
