// Objects: of a class with its fields, arrays, and texts.
ghost use Rattle.std.specs.Prelude.{◌≡◌, is_some, IfOk};
ghost use Rattle.std.specs.Option.{option_copied};
ghost use Rattle.vm_world.specs.Objects.{field_of, with_field, element_of, with_element, text_of, with_text};

use crate::fields::Fields;
use jv_base::{FieldId, List, Mem, Name, TryCopy, Value};
use st_text::Text;
use std::alloc::Global;

/// What a text is the content of: a java.lang.String or a java.lang.StringBuilder.
#[derive(Clone, Copy, Debug, PartialEq, Eq)]
pub enum TextKind {
    Str,
    Builder,
}

/// An object of the heap.
#[derive(Debug, Drop)]
pub enum Object {
    /// Of a class, with its instance fields, inherited ones too.
    Instance(Name, Fields),
    /// An array: the descriptor of its element type (JVM Specification SE 8, 4.3.2), and its elements.
    Array(Name, List<Value>),
    /// A String or a StringBuilder, with its content.
    Text(TextKind, Text),
}

impl TryCopy for Object {
    fn copy(&self, alloc: Global) -> Mem<Object> {
        match self {
            Object::Instance(class, fields) => Ok(Object::Instance(
                class.copy(alloc)?,
                fields.copy(alloc)?,
            )),
            Object::Array(element, elements) => Ok(Object::Array(
                element.copy(alloc)?,
                List::copied(alloc, elements.as_slice())?,
            )),
            Object::Text(kind, text) => Ok(Object::Text(*kind, text.copy(alloc)?)),
        }
    }
}

pub(crate) fn field_of(object: &Object, field: &FieldId) -> Option<Value>
    ensures { result ≡ field_of object.now field.now }
{
    match object {
        Object::Instance(_, fields) => fields.value(field),
        _ => None,
    }
}

pub(crate) fn put_field(object: &mut Object, field: &FieldId, value: Value) -> bool
    ensures found { result ≡ is_some (field_of object.old field.now) }
    ensures value { object.new ≡ with_field object.old field.now value }
{
    match object {
        Object::Instance(_, fields) => fields.put(field, value),
        _ => false,
    }
}

pub(crate) fn element_of(object: &Object, place: u32) -> Option<Value>
    ensures { result ≡ element_of object.now place }
{
    match object {
        Object::Array(_, elements) => elements.get(place as usize).copied(),
        _ => None,
    }
}

pub(crate) fn put_element(object: &mut Object, place: u32, value: Value) -> bool
    ensures found { result ≡ is_some (element_of object.old place) }
    ensures value { object.new ≡ with_element object.old place value }
{
    match object {
        Object::Array(_, elements) => {
            let within = (place as usize) < elements.length();
            if within {
                elements.set(place as usize, value);
            }
            within
        }
        _ => false,
    }
}

pub(crate) fn text_of(object: &Object) -> Option<&Text>
    ensures { option_copied result ≡ text_of object.now }
{
    match object {
        Object::Text(_, text) => Some(text),
        _ => None,
    }
}

pub(crate) fn put_text(object: &mut Object, text: Text) -> bool
    ensures found { result ≡ is_some (text_of object.old) }
    ensures value { object.new ≡ with_text object.old text }
{
    match object {
        Object::Text(_, content) => {
            *content = text;
            true
        }
        _ => false,
    }
}
