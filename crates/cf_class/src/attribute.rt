// Attributes (JVM Specification SE 8, 4.7).
ghost use Rattle.std.specs.Prelude.{◌≡◌, drop, length, map, IfOk, OnOk};
ghost use Rattle.std.specs.List.{flat_map, AllZip};
ghost use Rattle.cf_structure.specs.Views.{body_of, attribute_of};
ghost use Rattle.cf_class.specs.Content.{IsBodyContent, IsAttributeContent};
ghost use Rattle.cf_class.specs.Calls.Contents.{AreNames, HasContent, HaveContent, HaveBodies, body_codes, attribute_codes};

use crate::bodies::Bodies;
use crate::code::{Code, code_content};
use crate::named::{Named, PoolTexts, text_named};
use cf_structure::{AttributePart, BodyPart};
use jv_base::{List, Mem};
use std::alloc::Global;

/// The content of an attribute.
#[derive(Debug, Drop)]
pub enum Body {
    /// The index of a ConstantValue, which counts in a field (4.7.2).
    Constant(u16),
    /// A Code, which counts in a method (4.7.3).
    Code(Code),
    /// The bytes of any other.
    Skipped(List<u8>),
}

#[derive(Debug, Drop)]
pub struct Attribute {
    pub name: Named,
    pub body: Body,
}

fn body_content(
    alloc: Global,
    names: &PoolTexts<'_>,
    bodies: &mut Bodies,
    part: &BodyPart<'_>,
) -> Mem<Body>
    requires names { AreNames names.now }
    requires content { HasContent (IsBodyContent names.now.pool.now) (body_of part.now) }
    requires bodies { HaveBodies (body_codes (body_of part.now)) bodies.old }
    ensures content { IfOk result (λ body. IsBodyContent names.now.pool.now (body_of part.now) body) }
    ensures left { OnOk result (bodies.new ≡ drop (length (body_codes (body_of part.now))) bodies.old) }
{
    match part {
        BodyPart::Constant(index) => Ok(Body::Constant(*index)),
        BodyPart::Code(code) => Ok(Body::Code(code_content(alloc, names, bodies, code)?)),
        BodyPart::Skipped(content) => Ok(Body::Skipped(List::copied(alloc, content)?)),
    }
}

fn attribute_content(
    alloc: Global,
    names: &PoolTexts<'_>,
    bodies: &mut Bodies,
    part: &AttributePart<'_>,
) -> Mem<Attribute>
    requires names { AreNames names.now }
    requires content { HasContent (IsAttributeContent names.now.pool.now) (attribute_of part.now) }
    requires bodies { HaveBodies (attribute_codes (attribute_of part.now)) bodies.old }
    ensures content { IfOk result (λ a. IsAttributeContent names.now.pool.now (attribute_of part.now) a) }
    ensures left { OnOk result (bodies.new ≡ drop (length (attribute_codes (attribute_of part.now))) bodies.old) }
{
    Ok(Attribute {
        name: text_named(alloc, names, part.name)?,
        body: body_content(alloc, names, bodies, &part.body)?,
    })
}

pub(crate) fn attribute_list(
    alloc: Global,
    names: &PoolTexts<'_>,
    bodies: &mut Bodies,
    parts: &[AttributePart<'_>],
) -> Mem<List<Attribute>>
    requires names { AreNames names.now }
    requires content { HaveContent (IsAttributeContent names.now.pool.now) (map attribute_of parts.now) }
    requires bodies { HaveBodies (flat_map attribute_codes (map attribute_of parts.now)) bodies.old }
    ensures content { IfOk result (λ made. AllZip (IsAttributeContent names.now.pool.now) (map attribute_of parts.now) made) }
    ensures left { OnOk result (bodies.new ≡ drop (length (flat_map attribute_codes (map attribute_of parts.now))) bodies.old) }
{
    let mut made = List::with_capacity(alloc, parts.len())?;
    for part in parts {
        made.add(attribute_content(alloc, names, bodies, part)?)?;
    }
    Ok(made)
}
