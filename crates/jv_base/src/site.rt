// The reader of a goal's text form.
ghost use Rattle.std.specs.Prelude.{◌≡◌, ◌≢◌, ◌⊎◌, ℕ, ◌+◌, ◌*◌, ◌-◌, ◌^◌, ◌<◌, ◌≤◌, ◌∷◌, ◌++◌, length, take, codes, IfOk, IfSome, IfNone};
ghost use Rattle.std.specs.Str.{IsUtf8};
ghost use Rattle.std.specs.Fmt.{decimal};
ghost use Rattle.jv_base.specs.declared.method.Goal.{Goal};
ghost use Rattle.jv_base.specs.declared.method.Kind.{Kind};
ghost use Rattle.jv_base.specs.Descriptor.{IsMethodDescriptor};
ghost use Rattle.jv_base.specs.Entry.{IsAnyMethodName, IsSite, IsSiteText};
ghost use Rattle.jv_base.specs.Calls.Fronts.{IsLongestFront, LeavesAt};
ghost use Rattle.jv_base.specs.Front.{StopsAt};
ghost use Rattle.jv_base.specs.Calls.Parts.{IsKindText, IsPcText, IsPlaceText, IsDescText, IsAnyMethodText, IsMemberText, IsClassAndMember};
ghost use Rattle.jv_base.specs.Spelling.{name_text, kind_name, site_spelling};

use crate::cut::cut;
use crate::form::Form;
use crate::spelled::{part_of, spelled_front};
use crate::{Goal, Kind, MethodId, Name, Site, TextFault};
use std::alloc::Global;

/// The length of the longest prefix that begins a word.
fn word_front(text: &[u8], word: &str) -> usize
    ensures longest { IsLongestFront (λ t. t ≡ word.now) text.now result }
    ensures within { result ≤ length text.now }
{
    let mut same = 0;
    for (a, b) in text.iter().zip(word.as_bytes()) {
        if a != b {
            return same;
        }
        same += 1;
    }
    same
}

fn kind_named(text: &[u8]) -> Option<Kind>
    ensures found { IfSome result (λ kind. text.now ≡ kind_name kind) }
    ensures none { IfNone result ((kind : Kind) → text.now ≢ kind_name kind) }
{
    match text {
        b"null" => Some(Kind::Null),
        b"zero" => Some(Kind::Zero),
        b"bounds" => Some(Kind::Bounds),
        b"negsize" => Some(Kind::NegSize),
        b"store" => Some(Kind::Store),
        b"cast" => Some(Kind::Cast),
        b"strindex" => Some(Kind::StrIndex),
        b"assert" => Some(Kind::Assert),
        _ => None,
    }
}

fn kind_front(text: &[u8]) -> usize
    ensures longest { IsLongestFront IsKindText text.now result }
    ensures within { result ≤ length text.now }
{
    word_front(text, "null")
        .max(word_front(text, "zero"))
        .max(word_front(text, "bounds"))
        .max(word_front(text, "negsize"))
        .max(word_front(text, "store"))
        .max(word_front(text, "cast"))
        .max(word_front(text, "strindex"))
        .max(word_front(text, "assert"))
}

/// The kind whose word this is. The place is that of the text in a longer one.
fn kind_of(text: &[u8], place: u64) -> Result<Kind, TextFault>
    requires { place + length text.now < 2 ^ 64 }
    ensures found { IfOk result (λ kind. text.now ≡ kind_name kind) }
    ensures fault { (at : ℕ) → result ≡ Err (TextFault.Bad at) → LeavesAt IsKindText text.now place at }
{
    match kind_named(text) {
        Some(kind) => Ok(kind),
        None => Err(TextFault::Bad(place + kind_front(text) as u64)),
    }
}

/// The number with one more digit, where it is one and the number stays below 65536.
fn with_digit(value: u16, digit: u8) -> Option<u16>
    ensures found { IfSome result (λ more. (48 ≤ digit) × (digit < 58) × (more ≡ value * 10 + (digit - 48))) }
    ensures none { IfNone result (48 ≤ digit → digit < 58 → value * 10 + (digit - 48) < 2 ^ 16 → ⊥) }
{
    if !digit.is_ascii_digit() {
        return None;
    }
    value.checked_mul(10)?.checked_add(u16::from(digit - b'0'))
}

/// The pc that a text begins with, and the number of its digits, where 0 is no pc.
fn leading_pc(text: &[u8]) -> (u16, usize)
    ensures value { 0 < result.1 → take result.1 text.now ≡ decimal result.0 }
    ensures longest { IsLongestFront IsPcText text.now result.1 }
    ensures within { result.1 ≤ length text.now }
{
    let mut value = 0;
    for (count, digit) in text.iter().enumerate() {
        if count > 0 && value == 0 {
            return (value, count);
        }
        let Some(more) = with_digit(value, *digit) else {
            return (value, count);
        };
        value = more;
    }
    (value, text.len())
}

/// The place in code that a text writes. The place is that of the text in a longer one.
fn pc_of(text: &[u8], place: u64) -> Result<u16, TextFault>
    requires { place + length text.now < 2 ^ 64 }
    ensures found { IfOk result (λ pc. text.now ≡ decimal pc) }
    ensures fault { (at : ℕ) → result ≡ Err (TextFault.Bad at) → LeavesAt IsPcText text.now place at }
{
    let (pc, digits) = leading_pc(text);
    if digits > 0 && digits == text.len() {
        Ok(pc)
    } else {
        Err(TextFault::Bad(place + digits as u64))
    }
}

/// `PC:KIND`. The place is that of the text in a longer one.
fn pc_and_kind(text: &[u8], place: u64) -> Result<(u16, Kind), TextFault>
    requires { place + length text.now < 2 ^ 64 }
    ensures found { IfOk result (λ r. text.now ≡ decimal r.0 ++ 58 ∷ kind_name r.1) }
    ensures fault { (at : ℕ) → result ≡ Err (TextFault.Bad at) → LeavesAt IsPlaceText text.now place at }
{
    let Some((pc_text, kind_text)) = cut(text, b':') else {
        return Err(TextFault::Bad(place + leading_pc(text).1 as u64));
    };
    let pc = pc_of(pc_text, place)?;
    let kind = kind_of(kind_text, place + pc_text.len() as u64 + 1)?;
    Ok((pc, kind))
}

/// `DESC@PC:KIND`. The place is that of the text in a longer one.
fn desc_and_rest(alloc: Global, text: &[u8], place: u64) -> Result<(Name, u16, Kind), TextFault>
    requires { place + length text.now < 2 ^ 64 }
    ensures found { IfOk result (λ r. IsUtf8 r.0 × IsMethodDescriptor r.0
        × (text.now ≡ name_text r.0 ++ 64 ∷ decimal r.1 ++ 58 ∷ kind_name r.2)) }
    ensures fault { (at : ℕ) → result ≡ Err (TextFault.Bad at) → LeavesAt IsDescText text.now place at }
{
    let form = Form::MethodDescriptor;
    let Some((desc_text, rest)) = cut(text, b'@') else {
        return Err(TextFault::Bad(place + spelled_front(form, text) as u64));
    };
    let desc = part_of(alloc, form, desc_text, place)?;
    let (pc, kind) = pc_and_kind(rest, place + desc_text.len() as u64 + 1)?;
    Ok((desc, pc, kind))
}

/// The name of a method that no source text has (JVM Specification SE 8, 2.9).
fn special_name(text: &[u8]) -> Option<&'static str>
    ensures found { IfSome result (λ name. (text.now ≡ name.now)
        × ((name.now ≡ codes "<init>") ⊎ (name.now ≡ codes "<clinit>"))) }
    ensures none { IfNone result ((text.now ≢ codes "<init>") × (text.now ≢ codes "<clinit>")) }
{
    match text {
        b"<init>" => Some("<init>"),
        b"<clinit>" => Some("<clinit>"),
        _ => None,
    }
}

fn method_front(text: &[u8]) -> usize
    ensures longest { IsLongestFront IsAnyMethodText text.now result }
    ensures within { result ≤ length text.now }
{
    spelled_front(Form::MethodName, text)
        .max(word_front(text, "<init>"))
        .max(word_front(text, "<clinit>"))
}

/// The method name that a text spells, which may be a special one. The place is that of the text in a longer one.
fn method_of(alloc: Global, text: &[u8], place: u64) -> Result<Name, TextFault>
    requires { place + length text.now < 2 ^ 64 }
    ensures found { IfOk result (λ n. IsUtf8 n × IsAnyMethodName n × (text.now ≡ name_text n)) }
    ensures fault { (at : ℕ) → result ≡ Err (TextFault.Bad at) → LeavesAt IsAnyMethodText text.now place at }
{
    if let Some(special) = special_name(text) {
        return Ok(Name::from_text(alloc, special)?);
    }
    match part_of(alloc, Form::MethodName, text, place) {
        Ok(name) => Ok(name),
        Err(TextFault::Bad(_)) => Err(TextFault::Bad(place + method_front(text) as u64)),
        Err(TextFault::NoMemory) => Err(TextFault::NoMemory),
    }
}

/// `METHOD:DESC@PC:KIND`. The place is that of the text in a longer one.
fn method_and_rest(
    alloc: Global,
    text: &[u8],
    place: u64,
) -> Result<(Name, Name, u16, Kind), TextFault>
    requires { place + length text.now < 2 ^ 64 }
    ensures found { IfOk result (λ r. IsUtf8 r.0 × IsAnyMethodName r.0 × IsUtf8 r.1 × IsMethodDescriptor r.1
        × (text.now ≡ name_text r.0 ++ 58 ∷ name_text r.1 ++ 64 ∷ decimal r.2 ++ 58 ∷ kind_name r.3)) }
    ensures fault { (at : ℕ) → result ≡ Err (TextFault.Bad at) → LeavesAt IsMemberText text.now place at }
{
    let Some((name_text, rest)) = cut(text, b':') else {
        return Err(TextFault::Bad(place + method_front(text) as u64));
    };
    let name = method_of(alloc, name_text, place)?;
    let (desc, pc, kind) = desc_and_rest(alloc, rest, place + name_text.len() as u64 + 1)?;
    Ok((name, desc, pc, kind))
}

/// The goal whose text form, by its bytes, this is.
fn goal_of(alloc: Global, text: &[u8]) -> Result<Goal, TextFault>
    ensures found { IfOk result (λ g. IsSite g × (text.now ≡ site_spelling g)) }
    ensures fault { (at : ℕ) → result ≡ Err (TextFault.Bad at) → LeavesAt IsClassAndMember text.now 0 at }
{
    let Some((class_text, rest)) = cut(text, b'.') else {
        return Err(TextFault::Bad(spelled_front(Form::ClassName, text) as u64));
    };
    let class = part_of(alloc, Form::ClassName, class_text, 0)?;
    let (name, desc, pc, kind) = method_and_rest(alloc, rest, class_text.len() as u64 + 1)?;
    let method = MethodId { class, name, desc };
    Ok(Goal {
        site: Site { method, pc },
        kind,
    })
}

/// The goal whose text form this is, with `<init>` and `<clinit>` among the names of methods. `Bad` comes exactly where
/// it is no goal's, with the number of characters of its longest prefix that begins one.
pub fn read_site(alloc: Global, text: &str) -> Result<Goal, TextFault>
    ensures found { IfOk result (λ g. IsSite g × (text.now ≡ site_spelling g)) }
    ensures outside { (place : ℕ) → result ≡ Err (TextFault.Bad place) → IsSiteText text.now → ⊥ }
    ensures fault { (place : ℕ) → result ≡ Err (TextFault.Bad place) → StopsAt IsSiteText text.now place }
{
    goal_of(alloc, text.as_bytes())
}
