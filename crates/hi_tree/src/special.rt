// Which method an invokespecial calls (JVM Specification SE 8, 6.5 invokespecial).
ghost use Rattle.std.specs.Prelude.{◌≡◌, ◌↔◌, IsTrue, IfOk, IfErr, option_map, slice_get};
ghost use Rattle.hi_tree.specs.Classes.{known_class};
ghost use Rattle.hi_tree.specs.Methods.{declared_some};
ghost use Rattle.hi_tree.specs.Supers.{names_above_some};
ghost use Rattle.hi_tree.specs.declared.known.Up.TheVariants.{Superclasses};
ghost use Rattle.hi_tree.specs.Special.{IsFixed, superclass_climb, IsSpecial, IsSpecialFault};
ghost use Rattle.hi_tree.specs.Faults.{IsWalkFault};
ghost use Rattle.hi_tree.specs.Calls.Steps.{above_name};
ghost use Rattle.hi_tree.specs.Calls.Specials.{is_private, is_private_some, IsSuperCall};

use crate::declared::Access;
use crate::fault::TreeFault;
use crate::known::{Above, Up};
use crate::resolve::method_in;
use crate::sought::Sought;
use crate::table::Classes;
use crate::walk::{Walked, climb_from};
use jv_base::{MethodId, Name};
use std::alloc::Global;

fn is_private(access: Access) -> bool
    ensures { result ≡ is_private access }
{
    match access {
        Access::Private => true,
        Access::Package | Access::Wide => false,
    }
}

impl Classes {
    /// Whether the class of a method declares it as private.
    fn has_private(&self, method: &MethodId) -> bool
        ensures { result ≡ is_private_some (declared_some method.now.name method.now.desc
            (known_class self.now method.now.class)) }
    {
        match self.known(Above::Named(&method.class)) {
            Some(class) => match class.declared(&method.name, &method.desc) {
                Some(declared) => is_private(declared.access),
                None => false,
            },
            None => false,
        }
    }

    /// Whether a method is called as it is resolved.
    fn is_fixed(&self, method: &MethodId) -> bool
        ensures { IsTrue result ↔ IsFixed self.now method.now }
    {
        method.name.as_str() == "<init>" || self.has_private(method)
    }

    fn superclass_of<'a>(&'a self, class: &'a Name) -> Option<Above<'a>>
        ensures { option_map above_name result
            ≡ slice_get (names_above_some Superclasses (known_class self.now class.now)) 0 }
    {
        match self.known(Above::Named(class)) {
            Some(known) => known.above(Up::Superclasses, 0),
            None => None,
        }
    }

    /// The direct superclass of a class, if another class is one of its superclasses.
    fn super_below<'a>(
        &'a self,
        alloc: Global,
        class: &'a Name,
        top: &Name,
    ) -> Result<Option<Above<'a>>, TreeFault>
        requires { class.now ≡ top.now → ⊥ }
        ensures below { IfOk result (IsSuperCall self.now class.now top.now) }
        ensures fault { IfErr result (IsWalkFault (superclass_climb self.now top.now) class.now) }
    {
        let walked = climb_from(
            alloc,
            self,
            Above::Named(class),
            Up::Superclasses,
            Sought::Class(top.as_str()),
        )?;
        match walked {
            Walked::Found(_) => Ok(self.superclass_of(class)),
            Walked::Clean(_) => Ok(None),
        }
    }

    /// The method that an invokespecial calls, in a method of the class `caller`. The reference is to a method of an
    /// interface, or to one of a class.
    pub fn special(
        &self,
        alloc: Global,
        caller: &Name,
        at: &MethodId,
        interface: bool,
    ) -> Result<MethodId, TreeFault>
        ensures found { IfOk result (IsSpecial self.now caller.now interface at.now) }
        ensures fault { IfErr result (IsSpecialFault self.now caller.now interface at.now) }
    {
        let resolved = self.resolve(alloc, at, interface)?;
        if self.is_fixed(&resolved) || *caller == at.class {
            return Ok(resolved);
        }
        match self.super_below(alloc, caller, &at.class)? {
            Some(above) => {
                let at = method_in(alloc, above.text(), at)?;
                self.resolve(alloc, &at, false)
            }
            None => Ok(resolved),
        }
    }
}
