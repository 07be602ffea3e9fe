// Types as keys of sets: by their dimensions and by what their elements are in the end.
ghost use Rattle.std.specs.Prelude.{◌≡◌, ◌≤◌, IfOk};
ghost use Rattle.jv_base.specs.Types.{field_of};
ghost use Rattle.hi_inputs.specs.Calls.Flat.{element_of, field_of_flat};

use jv_base::{Mem, Name, Ty};
use sqlite_items::Boxed;
use std::alloc::Global;

/// What the elements of an array are in the end, or a type that is no array.
#[derive(Debug, Drop, PartialEq, Eq, Hash)]
pub(crate) enum Element {
    Boolean,
    Byte,
    Char,
    Short,
    Int,
    Long,
    Float,
    Double,
    Class(Name),
}

/// A type that has at most 255 dimensions (JVM Specification SE 8, 4.3.2).
#[derive(Debug, Drop, PartialEq, Eq, Hash)]
pub(crate) struct FlatType {
    pub dimensions: u8,
    pub element: Element,
}

impl Element {
    pub(crate) fn copy(&self, alloc: Global) -> Mem<Element>
        ensures { IfOk result (λ copy. copy ≡ self.now) }
    {
        match self {
            Element::Boolean => Ok(Element::Boolean),
            Element::Byte => Ok(Element::Byte),
            Element::Char => Ok(Element::Char),
            Element::Short => Ok(Element::Short),
            Element::Int => Ok(Element::Int),
            Element::Long => Ok(Element::Long),
            Element::Float => Ok(Element::Float),
            Element::Double => Ok(Element::Double),
            Element::Class(name) => Ok(Element::Class(name.copy(alloc)?)),
        }
    }
}

fn element_in(alloc: Global, ty: &Ty) -> Mem<Element>
    ensures { IfOk result (λ e. element_of e ≡ (field_of ty.now).element) }
{
    match ty {
        Ty::Boolean => Ok(Element::Boolean),
        Ty::Byte => Ok(Element::Byte),
        Ty::Char => Ok(Element::Char),
        Ty::Short => Ok(Element::Short),
        Ty::Int => Ok(Element::Int),
        Ty::Long => Ok(Element::Long),
        Ty::Float => Ok(Element::Float),
        Ty::Double => Ok(Element::Double),
        Ty::Class(name) => Ok(Element::Class(name.copy(alloc)?)),
        Ty::Array(elements) => element_in(alloc, elements.get()),
    }
}

fn dimensions_of(ty: &Ty) -> u8
    requires { (field_of ty.now).dimensions ≤ 255 }
    ensures { result ≡ (field_of ty.now).dimensions }
{
    let mut dimensions = 0;
    let mut element = ty;
    while let Ty::Array(elements) = element {
        dimensions += 1;
        element = elements.get();
    }
    dimensions
}

pub(crate) fn flat_type(alloc: Global, ty: &Ty) -> Mem<FlatType>
    requires { (field_of ty.now).dimensions ≤ 255 }
    ensures { IfOk result (λ f. field_of_flat f ≡ field_of ty.now) }
{
    Ok(FlatType {
        dimensions: dimensions_of(ty),
        element: element_in(alloc, ty)?,
    })
}

fn element_type(alloc: Global, element: &Element) -> Mem<Ty>
    ensures dimensions { IfOk result (λ t. (field_of t).dimensions ≡ 0) }
    ensures element { IfOk result (λ t. (field_of t).element ≡ element_of element.now) }
{
    match element {
        Element::Boolean => Ok(Ty::Boolean),
        Element::Byte => Ok(Ty::Byte),
        Element::Char => Ok(Ty::Char),
        Element::Short => Ok(Ty::Short),
        Element::Int => Ok(Ty::Int),
        Element::Long => Ok(Ty::Long),
        Element::Float => Ok(Ty::Float),
        Element::Double => Ok(Ty::Double),
        Element::Class(name) => Ok(Ty::Class(name.copy(alloc)?)),
    }
}

pub(crate) fn nested_type(alloc: Global, flat: &FlatType) -> Mem<Ty>
    ensures { IfOk result (λ t. field_of t ≡ field_of_flat flat.now) }
{
    let mut ty = element_type(alloc, &flat.element)?;
    for _ in 0..flat.dimensions {
        ty = Ty::Array(Boxed::new(alloc, ty)?);
    }
    Ok(ty)
}
