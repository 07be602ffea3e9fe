// Which method a call selects in the class of its receiver (JVM Specification SE 8, 5.4.5, and 6.5 invokevirtual and
// invokeinterface).
ghost use Rattle.std.specs.Prelude.{◌≡◌, true, IfOk, IfErr};
ghost use Rattle.hi_tree.specs.Classes.{known_class};
ghost use Rattle.hi_tree.specs.Methods.{is_virtual, declared_some, has_body_some};
ghost use Rattle.hi_tree.specs.Selection.{IsDeclared, IsSelectedIn, IsSelected, IsSelectFault};
ghost use Rattle.hi_tree.specs.Calls.Steps.{above_name};
ghost use Rattle.hi_tree.specs.Calls.Choosing.{IsDeclaredFault};

use crate::declared::{Access, Declared};
use crate::fault::TreeFault;
use crate::known::{Above, Up, holder};
use crate::resolve::method_in;
use crate::sought::Sought;
use crate::table::Classes;
use crate::walk::{Walked, climb_from};
use jv_base::{MethodId, Name};
use std::alloc::Global;

impl Classes {
    /// What its class says of a method.
    fn declared(&self, alloc: Global, method: &MethodId) -> Result<Declared, TreeFault>
        ensures found { IfOk result (λ d. IsDeclared self.now method.now d) }
        ensures fault { IfErr result (IsDeclaredFault self.now method.now) }
    {
        let Some(class) = self.known(Above::Named(&method.class)) else {
            return Err(TreeFault::NotLoaded(method.class.copy(alloc)?));
        };
        match class.declared(&method.name, &method.desc) {
            Some(declared) => Ok(declared),
            None => Err(TreeFault::NoSuch),
        }
    }

    /// Whether a class declares a method of the name and the descriptor of another, and it is not abstract.
    fn has_body(&self, class: Above<'_>, method: &MethodId) -> bool
        ensures { result ≡ has_body_some (declared_some method.now.name method.now.desc
            (known_class self.now (above_name class.entry))) }
    {
        match self.known(class) {
            Some(known) => match known.declared(&method.name, &method.desc) {
                Some(declared) => !declared.is_abstract,
                None => false,
            },
            None => false,
        }
    }

    /// The class whose method a call selects, of one that is neither private nor static.
    fn overriding<'a>(
        &'a self,
        alloc: Global,
        class: &'a Name,
        resolved: &'a MethodId,
        declared: Declared,
    ) -> Result<&'a str, TreeFault>
        requires declared { IsDeclared self.now resolved.now declared }
        requires overridable { is_virtual declared ≡ true }
        ensures found { IfOk result (λ selected. IsSelectedIn self.now class.now resolved.now selected.now) }
        ensures fault { IfErr result (IsSelectFault self.now class.now resolved.now) }
    {
        let class = holder(class);
        let own = climb_from(
            alloc,
            self,
            class,
            Up::Superclasses,
            Sought::Override(resolved, declared.access),
        )?;
        if let Walked::Found(first) = own {
            return if self.has_body(first, resolved) {
                Ok(first.text())
            } else {
                Err(TreeFault::NoSuch)
            };
        }
        let chosen = self.inherited(alloc, class, resolved)?;
        match chosen.default {
            None => Err(TreeFault::NoSuch),
            Some(_) if chosen.another => Err(TreeFault::Ambiguous),
            Some(default) => Ok(default),
        }
    }

    /// The class whose method a call of a resolved one selects.
    fn selecting<'a>(
        &'a self,
        alloc: Global,
        class: &'a Name,
        resolved: &'a MethodId,
    ) -> Result<&'a str, TreeFault>
        ensures found { IfOk result (λ selected. IsSelectedIn self.now class.now resolved.now selected.now) }
        ensures fault { IfErr result (IsSelectFault self.now class.now resolved.now) }
    {
        let declared = self.declared(alloc, resolved)?;
        if declared.is_static {
            return Err(TreeFault::NoSuch);
        }
        match declared.access {
            Access::Package | Access::Wide => self.overriding(alloc, class, resolved, declared),
            Access::Private => {
                if declared.is_abstract {
                    Err(TreeFault::NoSuch)
                } else {
                    Ok(resolved.class.as_str())
                }
            }
        }
    }

    /// The method that a call of a resolved one selects in the class of its receiver.
    pub fn select(
        &self,
        alloc: Global,
        class: &Name,
        resolved: &MethodId,
    ) -> Result<MethodId, TreeFault>
        ensures found { IfOk result (IsSelected self.now class.now resolved.now) }
        ensures fault { IfErr result (IsSelectFault self.now class.now resolved.now) }
    {
        let class = self.selecting(alloc, class, resolved)?;
        Ok(method_in(alloc, class, resolved)?)
    }
}
