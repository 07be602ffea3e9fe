// Fields and methods (JVM Specification SE 8, 4.5 and 4.6).
ghost use Rattle.std.specs.Prelude.{◌≡◌, ℕ, List as list_of, [], ◌∷◌, ◌++◌, ◌↔◌, ◌+◌, ◌^◌, ◌<◌, IsTrue, IfSome, IfNone, IfOk, length, map};
ghost use Rattle.std.specs.List.{flat_map};
ghost use Rattle.cf_pool.specs.declared.entry.PoolEntry.{PoolEntry};
ghost use Rattle.cf_structure.specs.Raw.{RawMember};
ghost use Rattle.cf_structure.specs.Spelled.{attribute_text, member_text};
ghost use Rattle.cf_structure.specs.Views.{body_of, attribute_of, member_of};
ghost use Rattle.cf_judge.specs.Demands.{demand, has_codes, name_form, desc_form, is_code, codes_in, flags_demands, named_demands, member_demands, members_demands};
ghost use Rattle.cf_judge.specs.Judged.{IsSecond, HasNoBody, BreaksCodeRule};
ghost use Rattle.cf_judge.specs.Texts.{AreTexts};
ghost use Rattle.cf_judge.specs.Calls.Tells.{Tells};
ghost use Rattle.cf_judge.specs.Calls.Keys.{IsKeyOf, AreSeen};

use crate::attribute::judge_attributes;
use crate::form::Form;
use crate::index::{Judged, Wanted, fault_at, judge_pair, text_at};
use crate::text::Text;
use cf_pool::{PoolEntry, What};
use cf_structure::{AttributePart, BodyPart, MemberPart};
use jv_base::Mem;
use std::alloc::Global;
use std::collections::HashSet;

const NATIVE: u16 = 0x100;

const ABSTRACT: u16 = 0x400;

/// Whether a member is a field or a method.
#[derive(Clone, Copy, Debug, PartialEq, Eq)]
pub enum MemberKind {
    Field,
    Method,
}

impl MemberKind {
    fn name_form(self) -> Form
        ensures { result ≡ name_form self }
    {
        match self {
            MemberKind::Field => Form::Unqualified,
            MemberKind::Method => Form::Method,
        }
    }

    fn desc_form(self) -> Form
        ensures { result ≡ desc_form self }
    {
        match self {
            MemberKind::Field => Form::FieldDescriptor,
            MemberKind::Method => Form::MethodDescriptor,
        }
    }
}

/// The name and the descriptor of a member, by the first indices that have these texts.
#[derive(Clone, Copy, Debug, PartialEq, Eq, Hash)]
struct Key {
    name: usize,
    desc: usize,
}

fn is_code(body: &BodyPart<'_>) -> bool
    ensures { result ≡ is_code (body_of body.now) }
{
    matches!(body, BodyPart::Code(_))
}

fn codes_in(attributes: &[AttributePart<'_>]) -> usize
    ensures { result ≡ codes_in (map attribute_of attributes.now) }
{
    let mut codes = 0;
    for attribute in attributes {
        if is_code(&attribute.body) {
            codes += 1;
        }
    }
    codes
}

fn has_no_body(flags: u16) -> bool
    ensures { IsTrue result ↔ HasNoBody flags }
{
    flags / NATIVE % 2 == 1 || flags / ABSTRACT % 2 == 1
}

/// Whether a method with such flags may not have so many Codes.
fn breaks_code_rule(flags: u16, codes: usize) -> bool
    ensures { IsTrue result ↔ BreaksCodeRule flags codes }
{
    if has_no_body(flags) {
        codes != 0
    } else {
        codes != 1
    }
}

fn key_of(pool: &[PoolEntry], texts: &[Option<Text>], member: &MemberPart<'_>) -> Option<Key>
    requires { AreTexts pool.now texts.now }
    ensures found { IfSome result (λ key. IsKeyOf pool.now (member_of member.now) key.name key.desc) }
    ensures none { IfNone result ((name desc : ℕ) → IsKeyOf pool.now (member_of member.now) name desc → ⊥) }
{
    let name = text_at(pool, texts, member.name)?;
    let desc = text_at(pool, texts, member.desc)?;
    Some(Key {
        name: name.first,
        desc: desc.first,
    })
}

/// Whether an earlier member has the name and the descriptor of this one, which is then one of those.
fn is_second(
    pool: &[PoolEntry],
    texts: &[Option<Text>],
    seen: &mut HashSet<Key>,
    member: &MemberPart<'_>,
) -> Mem<bool>
    requires { AreTexts pool.now texts.now }
    ensures second { IfOk result (λ b. (earlier : list_of RawMember) → AreSeen pool.now earlier seen.old
        → IsTrue b ↔ IsSecond pool.now earlier (member_of member.now)) }
    ensures seen { IfOk result (λ _. (earlier : list_of RawMember) → AreSeen pool.now earlier seen.old
        → AreSeen pool.now (earlier ++ member_of member.now ∷ []) seen.new) }
{
    match key_of(pool, texts, member) {
        Some(key) => Ok(!seen.insert(key)?),
        None => Ok(false),
    }
}

fn judge_code_rule(place: u64, member: &MemberPart<'_>) -> Judged
    requires { place + 2 < 2 ^ 64 }
    ensures { (pool : list_of PoolEntry)
        → Tells pool (demand place (has_codes member.now.flags (codes_in (map attribute_of member.now.attributes))) ∷ []) (place + 2) result }
{
    if breaks_code_rule(member.flags, codes_in(member.attributes.as_slice())) {
        return fault_at(place, What::CodeRule);
    }
    Ok(place + 2)
}

/// The flags of a member.
fn judge_flags(kind: MemberKind, is_second: bool, place: u64, member: &MemberPart<'_>) -> Judged
    requires { place + 2 < 2 ^ 64 }
    ensures { (pool : list_of PoolEntry) (earlier : list_of RawMember)
        → (IsTrue is_second ↔ IsSecond pool earlier (member_of member.now))
        → Tells pool (flags_demands kind earlier place (member_of member.now)) (place + 2) result }
{
    if is_second {
        return fault_at(place, What::Duplicate);
    }
    match kind {
        MemberKind::Field => Ok(place + 2),
        MemberKind::Method => judge_code_rule(place, member),
    }
}

/// What stands behind the flags of a member.
fn judge_named(
    pool: &[PoolEntry],
    texts: &[Option<Text>],
    kind: MemberKind,
    place: u64,
    member: &MemberPart<'_>,
) -> Judged
    requires texts { AreTexts pool.now texts.now }
    requires fits { place + 6 + length (flat_map attribute_text (map attribute_of member.now.attributes)) < 2 ^ 64 }
    ensures { Tells pool.now (named_demands kind place (member_of member.now))
        (place + 6 + length (flat_map attribute_text (map attribute_of member.now.attributes))) result }
{
    let name = Wanted::Formed(kind.name_form());
    let desc = Wanted::Formed(kind.desc_form());
    let next = judge_pair(pool, texts, place, (name, member.name), (desc, member.desc))?;
    let attributes = member.attributes.as_slice();
    judge_attributes(pool, texts, member.desc, next + 2, attributes)
}

fn judge_member(
    pool: &[PoolEntry],
    texts: &[Option<Text>],
    kind: MemberKind,
    is_second: bool,
    place: u64,
    member: &MemberPart<'_>,
) -> Judged
    requires texts { AreTexts pool.now texts.now }
    requires fits { place + length (member_text (member_of member.now)) < 2 ^ 64 }
    ensures { (earlier : list_of RawMember) → (IsTrue is_second ↔ IsSecond pool.now earlier (member_of member.now))
        → Tells pool.now (member_demands kind earlier place (member_of member.now)) (place + length (member_text (member_of member.now))) result }
{
    judge_flags(kind, is_second, place, member)?;
    judge_named(pool, texts, kind, place + 2, member)
}

pub(crate) fn judge_members(
    pool: &[PoolEntry],
    texts: &[Option<Text>],
    alloc: Global,
    kind: MemberKind,
    start: u64,
    members: &[MemberPart<'_>],
) -> Judged
    requires texts { AreTexts pool.now texts.now }
    requires fits { start + length (flat_map member_text (map member_of members.now)) < 2 ^ 64 }
    ensures { Tells pool.now (members_demands kind start (map member_of members.now))
        (start + length (flat_map member_text (map member_of members.now))) result }
{
    let mut seen = HashSet::new(alloc);
    let mut place = start;
    for member in members {
        let is_second = is_second(pool, texts, &mut seen, member)?;
        place = judge_member(pool, texts, kind, is_second, place, member)?;
    }
    Ok(place)
}
