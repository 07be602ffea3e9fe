// Made classes by each class above them, and calls that select by the class that they name.
ghost use Rattle.std.specs.Prelude.{◌≡◌, ◌++◌, ℕ, [], List as list_of, IfSome, IfNone, OnOk};
ghost use Rattle.bd_core.specs.Calls.Grouped.{under_in, called_in};
ghost use Rattle.bd_core.specs.Calls.Groups.{grouped};

use crate::member::Member;
use jv_base::{Mem, MethodId, Name};
use std::alloc::Global;
use std::collections::HashMap;

/// A call that selects, as it stands in the code.
#[derive(Debug, Drop)]
pub struct Call {
    pub at: MethodId,
    pub interface: bool,
}

/// What was grouped so far.
#[derive(Drop)]
pub(crate) struct Groups {
    under: HashMap<String, Vec<Name>>,
    called: HashMap<String, Vec<Call>>,
}

impl Groups {
    /// Nothing. It takes no memory.
    pub(crate) fn new(alloc: Global) -> Groups
        ensures under { (q : list_of ℕ) → (grouped result).under q ≡ [] }
        ensures called { (q : list_of ℕ) → (grouped result).called q ≡ [] }
    {
        Groups {
            under: HashMap::new(alloc),
            called: HashMap::new(alloc),
        }
    }

    /// Groups a member behind the others.
    pub(crate) fn note(&mut self, alloc: Global, member: &Member) -> Mem<()>
        ensures under { OnOk result ((q : list_of ℕ) → (grouped self.new).under q ≡ (grouped self.old).under q ++ under_in q member.now) }
        ensures called { OnOk result ((q : list_of ℕ) → (grouped self.new).called q ≡ (grouped self.old).called q ++ called_in q member.now) }
    {
        match member {
            Member::Under(class, above) => {
                let name = String::from_str(alloc, above.as_str())?;
                self.under
                    .entry(name)?
                    .or_default()
                    .push(class.copy(alloc)?)?;
            }
            Member::Called(at, interface) => {
                let name = String::from_str(alloc, at.class.as_str())?;
                let call = Call {
                    at: at.copy(alloc)?,
                    interface: *interface,
                };
                self.called.entry(name)?.or_default().push(call)?;
            }
            _ => {}
        }
        Ok(())
    }

    /// The made classes under a class.
    pub(crate) fn under(&self, class: &Name) -> &[Name]
        ensures { result.now ≡ (grouped self.now).under class.now }
    {
        match self.under.get(class.as_str()) {
            Some(names) => names.as_slice(),
            None => &[],
        }
    }

    /// The calls that name a class.
    pub(crate) fn called(&self, class: &Name) -> &[Call]
        ensures { result.now ≡ (grouped self.now).called class.now }
    {
        match self.called.get(class.as_str()) {
            Some(calls) => calls.as_slice(),
            None => &[],
        }
    }
}
