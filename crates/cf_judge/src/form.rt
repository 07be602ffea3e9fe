// The forms of names and descriptors (JVM Specification SE 8, 4.2 and 4.3).
ghost use Rattle.std.specs.Prelude.{◌≡◌, ◌≢◌, ◌↔◌, All, IsTrue};
ghost use Rattle.jv_base.specs.Names.{IsNameByte, IsUnqualifiedName};
ghost use Rattle.cf_judge.specs.Forms.{IsArrayDescriptor};
ghost use Rattle.cf_judge.specs.Indices.{word_of};

use cf_pool::What;
use jv_base::is_field_descriptor;

/// What a text of the pool is to be.
#[derive(Clone, Copy, Debug, PartialEq, Eq)]
pub enum Form {
    /// The name of an attribute, which is any text without the character 0.
    Attribute,
    /// The name of a field.
    Unqualified,
    /// The name of a method, which may be `<init>` or `<clinit>`.
    Method,
    /// The name of a class.
    Class,
    /// The descriptor of an array.
    Array,
    /// What a class of the pool has for its name.
    ClassOrArray,
    FieldDescriptor,
    MethodDescriptor,
    /// The descriptor of a field or of a method.
    Descriptor,
}

impl Form {
    /// The word for a text that lacks the form.
    pub(crate) fn word(self) -> What
        ensures { result ≡ word_of self }
    {
        match self {
            Form::FieldDescriptor | Form::MethodDescriptor | Form::Descriptor => What::BadDesc,
            Form::Attribute | Form::Unqualified | Form::Method => What::BadName,
            Form::Class | Form::Array | Form::ClassOrArray => What::BadName,
        }
    }
}

pub(crate) fn is_attribute_name(text: &[u8]) -> bool
    ensures { IsTrue result ↔ All (λ b. b ≢ 0) text.now }
{
    text.iter().all(|b| *b != 0)
}

fn is_name_byte(b: u8) -> bool
    ensures { IsTrue result ↔ IsNameByte b }
{
    !matches!(b, b'.' | b';' | b'[' | b'/' | 0)
}

pub(crate) fn is_unqualified_name(text: &[u8]) -> bool
    ensures { IsTrue result ↔ IsUnqualifiedName text.now }
{
    !text.is_empty() && text.iter().all(|b| is_name_byte(*b))
}

/// Whether a text is the descriptor of an array.
pub(crate) fn is_array_descriptor(text: &str) -> bool
    ensures { IsTrue result ↔ IsArrayDescriptor text.now }
{
    text.starts_with('[') && is_field_descriptor(text)
}
