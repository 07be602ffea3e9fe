// The readers of descriptors (JVM Specification SE 8, 4.3.2 and 4.3.3).
ghost use Rattle.std.specs.Prelude.{◌≡◌, ◌≢◌, ℕ, ◌+◌, false, List as list_of, Option, ◌∷◌, ◌++◌, map, replicate, Some, None, All, IfSome, IfNone, IfOk, IsTrue};
ghost use Rattle.std.specs.List.{flat_map};
ghost use Rattle.jv_base.specs.declared.value.Desc.{Desc};
ghost use Rattle.jv_base.specs.Descriptor.{FieldType, is_base_letter, base, IsElementType, IsFieldType, IsMethodType, IsFieldDescriptor, IsMethodDescriptor, element_text, field_text, method_text, result_text};
ghost use Rattle.jv_base.specs.Forms.{IsTextOf};
ghost use Rattle.jv_base.specs.Calls.Fronts.{HasFront};
ghost use Rattle.jv_base.specs.Front.{StopsAt};
ghost use Rattle.jv_base.specs.Types.{field_of, method_of, result_of, IsDescriptorText, IsFieldText};

use crate::form::{Form, is_of_form, start_of, step};
use crate::{Desc, List, Mem, Name, TextFault, Ty};
use sqlite_items::Boxed;
use std::alloc::Global;

/// Where a text leaves its form.
fn place_of(form: Form, text: &str) -> u64
    ensures { StopsAt (IsTextOf form) text.now result }
{
    let mut progress = start_of(form);
    let mut place = 0;
    for c in text.chars() {
        let Some(next) = step(progress, c) else {
            return place;
        };
        progress = next;
        place += 1;
    }
    place
}

fn base_of(letter: u8) -> Option<Ty>
    ensures letter { IfSome result (λ _. IsTrue (is_base_letter letter)) }
    ensures dimensions { IfSome result (λ t. (field_of t).dimensions ≡ 0) }
    ensures element { IfSome result (λ t. (field_of t).element ≡ base letter) }
    ensures none { IfNone result (is_base_letter letter ≡ false) }
{
    match letter {
        b'B' => Some(Ty::Byte),
        b'C' => Some(Ty::Char),
        b'D' => Some(Ty::Double),
        b'F' => Some(Ty::Float),
        b'I' => Some(Ty::Int),
        b'J' => Some(Ty::Long),
        b'S' => Some(Ty::Short),
        b'Z' => Some(Ty::Boolean),
        _ => None,
    }
}

// The class of which a text begins with the name and its `;`, and what follows them. The text is behind an `L`.
fn class_at(alloc: Global, text: &str) -> Mem<Option<(Ty, &str)>>
    ensures found { IfOk result (λ o. IfSome o (λ r. ((field_of r.0).dimensions ≡ 0) × IsElementType (field_of r.0).element
        × (76 ∷ text.now ≡ element_text (field_of r.0).element ++ r.1.now))) }
    ensures none { IfOk result (λ o. IfNone o ((rest : list_of ℕ) → HasFront IsElementType element_text (76 ∷ text.now) rest → ⊥)) }
{
    let Some((name, rest)) = text.split_once(';') else {
        return Ok(None);
    };
    if !is_of_form(Form::ClassName, name.as_bytes()) {
        return Ok(None);
    }
    let class = Ty::Class(Name::from_text(alloc, name)?);
    Ok(Some((class, rest)))
}

// The base type or class that a text begins with, and what follows it.
fn element_at(alloc: Global, text: &str) -> Mem<Option<(Ty, &str)>>
    ensures found { IfOk result (λ o. IfSome o (λ r. ((field_of r.0).dimensions ≡ 0) × IsElementType (field_of r.0).element
        × (text.now ≡ element_text (field_of r.0).element ++ r.1.now))) }
    ensures none { IfOk result (λ o. IfNone o ((rest : list_of ℕ) → HasFront IsElementType element_text text.now rest → ⊥)) }
{
    let Some(letter) = text.as_bytes().first() else {
        return Ok(None);
    };
    if let Some(base) = base_of(*letter) {
        return Ok(Some((base, &text[1..])));
    }
    match text.strip_prefix('L') {
        Some(class) => class_at(alloc, class),
        None => Ok(None),
    }
}

// How many `[` a text begins with, and what follows them.
fn brackets_at(text: &str) -> (usize, &str)
    ensures parts { text.now ≡ replicate result.0 91 ++ result.1.now }
    ensures all { (rest : list_of ℕ) → result.1.now ≢ 91 ∷ rest }
{
    let mut dimensions = 0;
    let mut rest = text;
    while let Some(after) = rest.strip_prefix('[') {
        dimensions += 1;
        rest = after;
    }
    (dimensions, rest)
}

fn array_of(alloc: Global, element: Ty, dimensions: usize) -> Mem<Ty>
    ensures dimensions { IfOk result (λ t. (field_of t).dimensions ≡ (field_of element).dimensions + dimensions) }
    ensures element { IfOk result (λ t. (field_of t).element ≡ (field_of element).element) }
{
    let mut ty = element;
    for _ in 0..dimensions {
        ty = Ty::Array(Boxed::new(alloc, ty)?);
    }
    Ok(ty)
}

// The field type that a text begins with, and what follows it.
fn field_at(alloc: Global, text: &str) -> Mem<Option<(Ty, &str)>>
    ensures found { IfOk result (λ o. IfSome o (λ r. IsFieldType (field_of r.0) × (text.now ≡ field_text (field_of r.0) ++ r.1.now))) }
    ensures none { IfOk result (λ o. IfNone o ((rest : list_of ℕ) → HasFront IsFieldType field_text text.now rest → ⊥)) }
{
    let (dimensions, after) = brackets_at(text);
    if dimensions > 255 {
        return Ok(None);
    }
    let Some((element, rest)) = element_at(alloc, after)? else {
        return Ok(None);
    };
    let ty = array_of(alloc, element, dimensions)?;
    Ok(Some((ty, rest)))
}

// The field type that a text is.
fn field_in(alloc: Global, text: &str) -> Mem<Option<Ty>>
    ensures found { IfOk result (λ o. IfSome o (λ t. IsFieldType (field_of t) × (text.now ≡ field_text (field_of t)))) }
    ensures none { IfOk result (λ o. IfNone o (IsFieldDescriptor text.now → ⊥)) }
{
    let Some((ty, rest)) = field_at(alloc, text)? else {
        return Ok(None);
    };
    if !rest.is_empty() {
        return Ok(None);
    }
    Ok(Some(ty))
}

// The field types that a text begins with, and what follows them.
fn parameters_at(alloc: Global, text: &str) -> Mem<(List<Ty>, &str)>
    ensures valid { IfOk result (λ r. All IsFieldType (map field_of r.0)) }
    ensures parts { IfOk result (λ r. text.now ≡ flat_map field_text (map field_of r.0) ++ r.1.now) }
    ensures all { IfOk result (λ r. (rest : list_of ℕ) → HasFront IsFieldType field_text r.1.now rest → ⊥) }
{
    let mut parameters = List::new(alloc);
    let mut rest = text;
    while let Some((ty, after)) = field_at(alloc, rest)? {
        parameters.add(ty)?;
        rest = after;
    }
    Ok((parameters, rest))
}

// The result that a text is, which may be none.
fn result_in(alloc: Global, text: &str) -> Mem<Option<Option<Ty>>>
    ensures found { IfOk result (λ o. IfSome o (λ r. IfSome (result_of r) IsFieldType × (text.now ≡ result_text (result_of r)))) }
    ensures none { IfOk result (λ o. IfNone o ((r : Option FieldType) → IfSome r IsFieldType → text.now ≡ result_text r → ⊥)) }
{
    if text == "V" {
        return Ok(Some(None));
    }
    match field_in(alloc, text)? {
        Some(ty) => Ok(Some(Some(ty))),
        None => Ok(None),
    }
}

// The method descriptor that a text is.
fn descriptor_in(alloc: Global, text: &str) -> Mem<Option<Desc>>
    ensures found { IfOk result (λ o. IfSome o (λ d. IsMethodType (method_of d) × (text.now ≡ method_text (method_of d)))) }
    ensures none { IfOk result (λ o. IfNone o (IsMethodDescriptor text.now → ⊥)) }
{
    let Some(parameters) = text.strip_prefix('(') else {
        return Ok(None);
    };
    let (params, rest) = parameters_at(alloc, parameters)?;
    let Some(returned) = rest.strip_prefix(')') else {
        return Ok(None);
    };
    match result_in(alloc, returned)? {
        Some(result) => Ok(Some(Desc { params, result })),
        None => Ok(None),
    }
}

// What was read, or where the text leaves its form.
fn or_place<T>(read: Option<T>, form: Form, text: &str) -> Result<T, TextFault>
    ensures found { IfOk result (λ value. read ≡ Some value) }
    ensures outside { (place : ℕ) → result ≡ Err (TextFault.Bad place) → read ≡ None }
    ensures fault { (place : ℕ) → result ≡ Err (TextFault.Bad place) → StopsAt (IsTextOf form) text.now place }
{
    match read {
        Some(value) => Ok(value),
        None => Err(TextFault::Bad(place_of(form, text))),
    }
}

/// The types of a method's descriptor (JVM Specification SE 8, 4.3.3). `Bad` comes exactly where the text is none, with
/// the number of characters of its longest prefix that begins one.
pub fn read_descriptor(alloc: Global, text: &Name) -> Result<Desc, TextFault>
    ensures found { IfOk result (λ d. IsMethodType (method_of d) × (text.now ≡ method_text (method_of d))) }
    ensures outside { (place : ℕ) → result ≡ Err (TextFault.Bad place) → IsMethodDescriptor text.now → ⊥ }
    ensures fault { (place : ℕ) → result ≡ Err (TextFault.Bad place) → StopsAt IsDescriptorText text.now place }
{
    let text = text.as_str();
    or_place(descriptor_in(alloc, text)?, Form::MethodDescriptor, text)
}

/// The type of a field's descriptor (JVM Specification SE 8, 4.3.2). `Bad` comes exactly where the text is none, with
/// the number of characters of its longest prefix that begins one.
pub fn read_field_type(alloc: Global, text: &Name) -> Result<Ty, TextFault>
    ensures found { IfOk result (λ t. IsFieldType (field_of t) × (text.now ≡ field_text (field_of t))) }
    ensures outside { (place : ℕ) → result ≡ Err (TextFault.Bad place) → IsFieldDescriptor text.now → ⊥ }
    ensures fault { (place : ℕ) → result ≡ Err (TextFault.Bad place) → StopsAt IsFieldText text.now place }
{
    let text = text.as_str();
    or_place(field_in(alloc, text)?, Form::FieldDescriptor, text)
}
