// Which method a reference means (JVM Specification SE 8, 5.4.3.3 and 5.4.3.4).
ghost use Rattle.std.specs.Prelude.{◌≡◌, IfOk, IfErr};
ghost use Rattle.hi_tree.specs.Resolution.{own_up, IsResolved, IsResolveFault};
ghost use Rattle.hi_tree.specs.Calls.Steps.{above_name};
ghost use Rattle.hi_tree.specs.Calls.Choosing.{choice_of, taken_of, text_of};

use crate::candidate::Chosen;
use crate::fault::TreeFault;
use crate::known::{Up, holder};
use crate::sought::Sought;
use crate::table::Classes;
use crate::walk::{Walked, climb_from};
use jv_base::{Mem, MethodId, Name};
use std::alloc::Global;

/// The method of a name and a descriptor in a class.
pub(crate) fn method_in(alloc: Global, class: &str, method: &MethodId) -> Mem<MethodId>
    ensures class { IfOk result (λ m. m.class ≡ class.now) }
    ensures name { IfOk result (λ m. m.name ≡ method.now.name) }
    ensures desc { IfOk result (λ m. m.desc ≡ method.now.desc) }
{
    Ok(MethodId {
        class: Name::from_text(alloc, class)?,
        name: method.name.copy(alloc)?,
        desc: method.desc.copy(alloc)?,
    })
}

fn own_up(interface: bool) -> Up
    ensures { result ≡ own_up interface }
{
    if interface {
        Up::ObjectAlone
    } else {
        Up::Superclasses
    }
}

/// The only one that is maximally specific and not abstract, else the one of the least name.
fn taken(chosen: Chosen<'_>) -> Option<&str>
    ensures { text_of result ≡ taken_of (choice_of chosen.entry) }
{
    match chosen.default {
        Some(default) if !chosen.another => Some(default),
        _ => chosen.least,
    }
}

impl Classes {
    ghost use Rattle.hi_tree.specs.Resolution.{IsDeclaredBy};

    /// The class that declares the method that a reference means.
    fn declaring<'a>(
        &'a self,
        alloc: Global,
        at: &'a MethodId,
        interface: bool,
    ) -> Result<&'a str, TreeFault>
        ensures found { IfOk result (λ class. IsDeclaredBy self.now interface at.now class.now) }
        ensures fault { IfErr result (IsResolveFault self.now interface at.now) }
    {
        let class = holder(&at.class);
        let own = climb_from(alloc, self, class, own_up(interface), Sought::Method(at))?;
        if let Walked::Found(class) = own {
            return Ok(class.text());
        }
        let chosen = self.inherited(alloc, class, at)?;
        match taken(chosen) {
            Some(class) => Ok(class),
            None => Err(TreeFault::NoSuch),
        }
    }

    /// The method that a reference means, under the class that declares it. The reference is to a method of an
    /// interface, or to one of a class.
    pub fn resolve(
        &self,
        alloc: Global,
        at: &MethodId,
        interface: bool,
    ) -> Result<MethodId, TreeFault>
        ensures found { IfOk result (IsResolved self.now interface at.now) }
        ensures fault { IfErr result (IsResolveFault self.now interface at.now) }
    {
        let class = self.declaring(alloc, at, interface)?;
        Ok(method_in(alloc, class, at)?)
    }
}
