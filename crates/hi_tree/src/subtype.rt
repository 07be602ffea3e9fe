// Which types are subtypes of which (JVM Specification SE 8, 4.10.1.2).
ghost use Rattle.std.specs.Prelude.{◌≡◌, ◌↔◌, IsTrue, IfOk, IfErr};
ghost use Rattle.jv_base.specs.Types.{field_of};
ghost use Rattle.hi_tree.specs.Subtypes.{IsSubclass, IsArrayTop, IsSubtype, IsSubtypeFault, IsUnhindered, class_climb};
ghost use Rattle.hi_tree.specs.Faults.{IsUnhinderedWalk, IsWalkFault};
ghost use Rattle.hi_tree.specs.Calls.Shapes.{type_of};

use crate::fault::TreeFault;
use crate::known::{Above, Up};
use crate::sought::Sought;
use crate::table::Classes;
use crate::walk::{Walked, climb_from};
use jv_base::{Name, Ty};
use std::alloc::Global;

/// A type by its outermost part: a primitive type with its letter, a class, or an array with its elements.
#[derive(Clone, Copy, Debug)]
enum Shape<'a> {
    Base(u8),
    Class(&'a Name),
    Array(&'a Ty),
}

fn shape_of(ty: &Ty) -> Shape<'_>
    ensures { type_of result ≡ field_of ty.now }
{
    match ty {
        Ty::Boolean => Shape::Base(b'Z'),
        Ty::Byte => Shape::Base(b'B'),
        Ty::Char => Shape::Base(b'C'),
        Ty::Short => Shape::Base(b'S'),
        Ty::Int => Shape::Base(b'I'),
        Ty::Long => Shape::Base(b'J'),
        Ty::Float => Shape::Base(b'F'),
        Ty::Double => Shape::Base(b'D'),
        Ty::Class(name) => Shape::Class(name),
        Ty::Array(elements) => Shape::Array(elements.get()),
    }
}

/// Whether each array is a subtype of a class.
fn is_array_top(class: &Name) -> bool
    ensures { IsTrue result ↔ IsArrayTop class.now }
{
    let name = class.as_str();
    name == "java/lang/Object" || name == "java/lang/Cloneable" || name == "java/io/Serializable"
}

impl Classes {
    fn is_subclass(&self, alloc: Global, class: &Name, top: &Name) -> Result<bool, TreeFault>
        ensures decides { IfOk result (λ yes. IsTrue yes ↔ IsSubclass self.now class.now top.now) }
        ensures whole { IfOk result (λ _. IsUnhinderedWalk (class_climb self.now top.now) class.now) }
        ensures fault { IfErr result (IsWalkFault (class_climb self.now top.now) class.now) }
    {
        let walked = climb_from(
            alloc,
            self,
            Above::Named(class),
            Up::Supertypes,
            Sought::Class(top.as_str()),
        )?;
        match walked {
            Walked::Found(_) => Ok(true),
            Walked::Clean(_) => Ok(false),
        }
    }

    /// Whether a type is a subtype of another.
    pub fn subtype(&self, alloc: Global, a: &Ty, b: &Ty) -> Result<bool, TreeFault>
        ensures decides { IfOk result (λ yes. IsTrue yes ↔ IsSubtype self.now (field_of a.now) (field_of b.now)) }
        ensures whole { IfOk result (λ _. IsUnhindered self.now (field_of a.now) (field_of b.now)) }
        ensures fault { IfErr result (IsSubtypeFault self.now (field_of a.now) (field_of b.now)) }
    {
        match shape_of(a) {
            Shape::Array(a) => match shape_of(b) {
                Shape::Array(b) => self.subtype(alloc, a, b),
                Shape::Class(b) => Ok(is_array_top(b)),
                Shape::Base(_) => Ok(false),
            },
            Shape::Class(a) => match shape_of(b) {
                Shape::Class(b) => self.is_subclass(alloc, a, b),
                Shape::Array(_) => Ok(false),
                Shape::Base(_) => Ok(false),
            },
            Shape::Base(a) => match shape_of(b) {
                Shape::Base(b) => Ok(a == b),
                Shape::Class(_) => Ok(false),
                Shape::Array(_) => Ok(false),
            },
        }
    }
}
