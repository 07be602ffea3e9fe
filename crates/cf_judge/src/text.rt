// The texts of a pool, each with the forms that it has (JVM Specification SE 8, 4.4.7).
ghost use Rattle.std.specs.Prelude.{◌≡◌, ℕ, ◌+◌, ◌<◌, false, List as list_of, Option, None, length, take, option_copied, unwrap_or, slice_get, if◌then◌else◌, IfOk, IfSome, IfNone};
ghost use Rattle.std.specs.Str.{bytes_eq};
ghost use Rattle.cf_judge.specs.Forms.{IsNameOf, name_of};
ghost use Rattle.cf_judge.specs.Texts.{has, AreFormsOf, AreSpelled, IsTextOf, AreTexts};
ghost use Rattle.cf_judge.specs.Calls.Firsts.{first_in, IsKnownText, AreFirsts};
ghost use Rattle.cf_pool.specs.declared.entry.PoolEntry.{PoolEntry};

use crate::form::{Form, is_array_descriptor, is_attribute_name, is_unqualified_name};
use cf_pool::PoolEntry;
use jv_base::{
    List, Mem, Name, is_any_method_name, is_class_name, is_field_descriptor, is_method_descriptor,
};
use std::alloc::Global;
use std::collections::HashMap;

/// Which forms a text has.
#[derive(Clone, Copy, Debug, PartialEq, Eq)]
pub struct Forms {
    attribute: bool,
    unqualified: bool,
    method: bool,
    class: bool,
    array: bool,
    field_descriptor: bool,
    method_descriptor: bool,
}

/// No form at all.
const NO_FORMS: Forms = Forms {
    attribute: false,
    unqualified: false,
    method: false,
    class: false,
    array: false,
    field_descriptor: false,
    method_descriptor: false,
};

impl Forms {
    pub fn has(self, form: Form) -> bool
        ensures { result ≡ has self form }
    {
        match form {
            Form::Attribute => self.attribute,
            Form::Unqualified => self.unqualified,
            Form::Method => self.method,
            Form::Class => self.class,
            Form::Array => self.array,
            Form::ClassOrArray => self.class || self.array,
            Form::FieldDescriptor => self.field_descriptor,
            Form::MethodDescriptor => self.method_descriptor,
            Form::Descriptor => self.field_descriptor || self.method_descriptor,
        }
    }
}

/// A text of the pool.
#[derive(Debug, Drop)]
pub struct Text {
    /// None, where a surrogate stands alone.
    pub name: Option<Name>,
    pub forms: Forms,
    /// The first index of the pool that has this text.
    pub first: usize,
}

/// The forms of a name.
fn forms_of(name: &str) -> Forms
    ensures { AreFormsOf name.now result }
{
    Forms {
        attribute: is_attribute_name(name.as_bytes()),
        unqualified: is_unqualified_name(name.as_bytes()),
        method: is_any_method_name(name),
        class: is_class_name(name),
        array: is_array_descriptor(name),
        field_descriptor: is_field_descriptor(name),
        method_descriptor: is_method_descriptor(name),
    }
}

/// The name whose UTF-16 units these are. None where a surrogate stands alone.
pub fn name_of_units(alloc: Global, units: &[u16]) -> Mem<Option<Name>>
    ensures value { IfOk result (λ o. o ≡ name_of units.now) }
    ensures found { IfOk result (λ o. IfSome o (λ name. IsNameOf units.now name)) }
    ensures none { IfOk result (λ o. IfNone o ((name : list_of ℕ) → IsNameOf units.now name → ⊥)) }
{
    match String::from_utf16(alloc, units)? {
        Ok(text) => Ok(Some(Name::from_string(text))),
        Err(_) => Ok(None),
    }
}

fn text_of(alloc: Global, units: &[u16], first: usize) -> Mem<Text>
    ensures { IfOk result (λ t. IsKnownText units.now first t) }
{
    let name = name_of_units(alloc, units)?;
    let forms = match &name {
        Some(name) => forms_of(name.as_str()),
        None => NO_FORMS,
    };
    Ok(Text { name, forms, first })
}

/// Where a text first stands, which is at the index, if it is new.
fn first_of<'a>(
    firsts: &mut HashMap<&'a [u16], usize>,
    units: &'a [u16],
    index: usize,
) -> Mem<usize>
    ensures value { IfOk result (λ first. first ≡ unwrap_or (first_in firsts.old units.now) index) }
    ensures ok { IfOk result (λ first. (other : list_of ℕ) → first_in firsts.new other
        ≡ if bytes_eq units.now other then Some first else first_in firsts.old other) }
{
    if let Some(first) = firsts.get(&units) {
        return Ok(*first);
    }
    firsts.insert(units, index)?;
    Ok(index)
}

/// The text that an entry at an index is, if it is one.
fn text_of_entry<'a>(
    alloc: Global,
    firsts: &mut HashMap<&'a [u16], usize>,
    entry: &'a PoolEntry,
    index: usize,
) -> Mem<Option<Text>>
    ensures text { IfOk result (λ o. (pool : list_of PoolEntry) → AreFirsts pool index firsts.old
        → slice_get pool index ≡ Some entry.now → IsTextOf pool (Some entry.now) (Some o)) }
    ensures firsts { IfOk result (λ _. (pool : list_of PoolEntry) → AreFirsts pool index firsts.old
        → slice_get pool index ≡ Some entry.now → AreFirsts pool (index + 1) firsts.new) }
{
    match entry {
        PoolEntry::Utf8(units) => {
            let units = units.as_slice();
            let first = first_of(firsts, units, index)?;
            Ok(Some(text_of(alloc, units, first)?))
        }
        _ => Ok(None),
    }
}

/// The texts of the pool, at their indices.
pub(crate) fn texts_of(alloc: Global, pool: &[PoolEntry]) -> Mem<List<Option<Text>>>
    ensures { IfOk result (λ texts. AreTexts pool.now texts) }
{
    let mut firsts = HashMap::new(alloc);
    let mut texts = List::new(alloc);
    for (index, entry) in pool.iter().enumerate() {
        texts.add(text_of_entry(alloc, &mut firsts, entry, index)?)?;
    }
    Ok(texts)
}
