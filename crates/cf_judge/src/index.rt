// Indices into the pool, judged by what they have to find (JVM Specification SE 8, 4.1, 4.4 to 4.7).
ghost use Rattle.std.specs.Prelude.{◌≡◌, ◌∷◌, [], ℕ, ◌+◌, ◌<◌, ◌^◌, List as list_of, ◌↔◌, IsTrue, IfSome, IfNone};
ghost use Rattle.cf_judge.specs.Forms.{HasText, HasForm};
ghost use Rattle.cf_judge.specs.Indices.{HasNoText, IsClassAt, HasPlainClass, HasNameAndType, IsNameAndTypeAt, IsOfOtherKind, IsWrongIndex};
ghost use Rattle.cf_judge.specs.Texts.{IsTextFor, AreTexts};
ghost use Rattle.cf_judge.specs.Calls.Words.{TellsWord};
ghost use Rattle.cf_judge.specs.Calls.Tells.{Tells};
ghost use Rattle.cf_judge.specs.Demands.{demand, finds, pair_demands};

use crate::form::Form;
use crate::text::Text;
use cf_pool::{Fault, PoolEntry, What};
use cf_structure::ClassFault;

/// What an index has to find.
#[derive(Clone, Copy, Debug, PartialEq, Eq)]
pub enum Wanted {
    /// Any text.
    Text,
    /// A text of a form.
    Formed(Form),
    /// A class, or an array.
    Class,
    /// A class that is no array.
    PlainClass,
    /// The same, or nothing where the index is 0.
    CatchType,
    /// A name and type whose name and descriptor have these forms.
    NameAndType(Form, Form),
}

pub(crate) fn text_at<'a>(
    pool: &[PoolEntry],
    texts: &'a [Option<Text>],
    index: u16,
) -> Option<&'a Text>
    requires { AreTexts pool.now texts.now }
    ensures found { IfSome result (λ t. (units : list_of ℕ) × HasText pool.now index units × IsTextFor pool.now units t.now) }
    ensures none { IfNone result (HasNoText pool.now index) }
{
    match texts.get(usize::from(index)) {
        Some(Some(text)) => Some(text),
        Some(None) => None,
        None => None,
    }
}

/// Whether a text of that form stands at the index.
fn has_form(pool: &[PoolEntry], texts: &[Option<Text>], form: Form, index: u16) -> bool
    requires { AreTexts pool.now texts.now }
    ensures { IsTrue result ↔ HasForm pool.now form index }
{
    match text_at(pool, texts, index) {
        Some(text) => text.forms.has(form),
        None => false,
    }
}

fn has_class(pool: &[PoolEntry], index: u16) -> bool
    ensures { IsTrue result ↔ IsClassAt pool.now index }
{
    matches!(pool.get(usize::from(index)), Some(PoolEntry::Class(_)))
}

fn has_plain_class(pool: &[PoolEntry], texts: &[Option<Text>], index: u16) -> bool
    requires { AreTexts pool.now texts.now }
    ensures { IsTrue result ↔ HasPlainClass pool.now index }
{
    match pool.get(usize::from(index)) {
        Some(PoolEntry::Class(name)) => !has_form(pool, texts, Form::Array, *name),
        _ => false,
    }
}

/// What is wrong with the index of a text that has to have a form.
fn wrong_form(pool: &[PoolEntry], texts: &[Option<Text>], form: Form, index: u16) -> Option<What>
    requires { AreTexts pool.now texts.now }
    ensures { TellsWord (IsWrongIndex pool.now (Wanted.Formed form) index) result }
{
    match text_at(pool, texts, index) {
        None => Some(What::BadIndex),
        Some(text) if text.forms.has(form) => None,
        Some(_) => Some(form.word()),
    }
}

/// What is wrong with the kind of a name and type.
fn wrong_kind(
    pool: &[PoolEntry],
    texts: &[Option<Text>],
    name_form: Form,
    desc_form: Form,
    name: u16,
    desc: u16,
) -> Option<What>
    requires { AreTexts pool.now texts.now }
    ensures { TellsWord (IsOfOtherKind pool.now name_form desc_form name desc) result }
{
    if !has_form(pool, texts, Form::Unqualified, name)
        || !has_form(pool, texts, Form::Descriptor, desc)
    {
        return None;
    }
    if !has_form(pool, texts, name_form, name) {
        return Some(What::BadName);
    }
    if !has_form(pool, texts, desc_form, desc) {
        return Some(What::BadDesc);
    }
    None
}

/// The indices of the name and of the descriptor of a name and type.
fn pair_at(pool: &[PoolEntry], index: u16) -> Option<(u16, u16)>
    ensures found { IfSome result (λ r. HasNameAndType pool.now index r.0 r.1) }
    ensures none { IfNone result (IsNameAndTypeAt pool.now index → ⊥) }
{
    match pool.get(usize::from(index)) {
        Some(PoolEntry::NameAndType(name, desc)) => Some((*name, *desc)),
        _ => None,
    }
}

fn wrong_name_and_type(
    pool: &[PoolEntry],
    texts: &[Option<Text>],
    name_form: Form,
    desc_form: Form,
    index: u16,
) -> Option<What>
    requires { AreTexts pool.now texts.now }
    ensures { TellsWord (IsWrongIndex pool.now (Wanted.NameAndType name_form desc_form) index) result }
{
    match pair_at(pool, index) {
        Some((name, desc)) => wrong_kind(pool, texts, name_form, desc_form, name, desc),
        None => Some(What::BadIndex),
    }
}

/// What is wrong with an index, where anything is: the first word for it. The texts are those of the pool.
pub fn wrong_index(
    pool: &[PoolEntry],
    texts: &[Option<Text>],
    wanted: Wanted,
    index: u16,
) -> Option<What>
    requires { AreTexts pool.now texts.now }
    ensures { TellsWord (IsWrongIndex pool.now wanted index) result }
{
    match wanted {
        Wanted::Text => text_at(pool, texts, index)
            .is_none()
            .then_some(What::BadIndex),
        Wanted::Formed(form) => wrong_form(pool, texts, form, index),
        Wanted::Class => (!has_class(pool, index)).then_some(What::BadIndex),
        Wanted::PlainClass => (!has_plain_class(pool, texts, index)).then_some(What::BadIndex),
        Wanted::CatchType => {
            (index != 0 && !has_plain_class(pool, texts, index)).then_some(What::BadIndex)
        }
        Wanted::NameAndType(name_form, desc_form) => {
            wrong_name_and_type(pool, texts, name_form, desc_form, index)
        }
    }
}

/// What a call gives that tells of a part of a class file: the place behind it, or its first fault.
pub(crate) type Judged = Result<u64, ClassFault>;

pub(crate) fn fault_at(place: u64, what: What) -> Judged
    ensures { result ≡ Err (ClassFault.Malformed (record { place = place; what = what })) }
{
    Err(ClassFault::Malformed(Fault { place, what }))
}

/// The index at that place.
#[tactic(auto, unfolding(crate::specs::Calls::Tells::AreKept, crate::specs::Calls::Tells::IsFirstBroken, jv_list::specs::Firsts::FirstBreaks))]
pub(crate) fn judge_index(
    pool: &[PoolEntry],
    texts: &[Option<Text>],
    place: u64,
    wanted: Wanted,
    index: u16,
) -> Judged
    requires texts { AreTexts pool.now texts.now }
    requires fits { place + 2 < 2 ^ 64 }
    ensures { Tells pool.now (demand place (finds wanted index) ∷ []) (place + 2) result }
{
    match wrong_index(pool, texts, wanted, index) {
        None => Ok(place + 2),
        Some(what) => fault_at(place, what),
    }
}

/// Two indices, of which the first stands at that place.
pub(crate) fn judge_pair(
    pool: &[PoolEntry],
    texts: &[Option<Text>],
    place: u64,
    first: (Wanted, u16),
    second: (Wanted, u16),
) -> Judged
    requires texts { AreTexts pool.now texts.now }
    requires fits { place + 4 < 2 ^ 64 }
    ensures { Tells pool.now (pair_demands place first.0 first.1 second.0 second.1) (place + 4) result }
{
    let next = judge_index(pool, texts, place, first.0, first.1)?;
    judge_index(pool, texts, next, second.0, second.1)
}
