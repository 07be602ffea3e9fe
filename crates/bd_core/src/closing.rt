// The least set that contains what is begun with: each member is followed once.
ghost use Rattle.std.specs.Prelude.{◌≡◌, ◌<◌, ◌+◌, ◌↔◌, Contains, IfOk, OnOk, length, take};
ghost use Rattle.bd_core.specs.declared.job.Job.{Job as job};
ghost use Rattle.bd_core.specs.declared.member.Member.{Member as a_member};
ghost use Rattle.bd_core.specs.Rules.{FromEntry};
ghost use Rattle.bd_core.specs.Least.{IsLeast};
ghost use Rattle.bd_core.specs.Calls.Closes.{Takes, IsClosing, Steps};
ghost use Rattle.bd_core.specs.Calls.Grouped.{AreGrouped};
ghost use Rattle.bd_core.specs.Loads.{given};
ghost use Rattle.bd_core.specs.Calls.Groups.{grouped};

use crate::crossing::following;
use crate::groups::Groups;
use crate::loaded::Loaded;
use crate::member::Member;
use indexmap::IndexSet;
use jv_base::{List, Mem};
use std::alloc::Global;

// Takes items in behind the others, each that does not stand there yet.
fn take_in(found: &mut IndexSet<Member>, items: List<Member>) -> Mem<()>
    ensures { OnOk result (Takes found.old.keys items found.new.keys) }
{
    'items: for item in items {
        found.insert(item)?;
    }
    Ok(())
}

fn list_of(alloc: Global, found: IndexSet<Member>) -> Mem<List<Member>>
    ensures { IfOk result (λ list. list ≡ found.keys) }
{
    let mut list = List::new(alloc);
    'members: for member in found {
        list.add(member)?;
    }
    Ok(list)
}

// Follows the member at a place.
fn follow(
    alloc: Global,
    loaded: &Loaded,
    found: &mut IndexSet<Member>,
    groups: &mut Groups,
    place: usize,
) -> Mem<()>
    requires within { place < length found.old.keys }
    requires grouped { AreGrouped (take place found.old.keys) (grouped groups.old) }
    ensures steps { OnOk result (Steps (given loaded.now) found.old.keys place found.new.keys) }
    ensures grouped { OnOk result (AreGrouped (take (place + 1) found.new.keys) (grouped groups.new)) }
{
    let Some(member) = found.get_index(place) else {
        unreachable!()
    };
    let items = following(alloc, loaded, groups, member)?;
    groups.note(alloc, member)?;
    take_in(found, items)
}

/// The least set over what was given, where it begins with all that the entry of a job gives.
pub(crate) fn close(alloc: Global, loaded: &Loaded, start: List<Member>) -> Mem<List<Member>>
    ensures { (j : job) → ((x : a_member) → Contains start x ↔ FromEntry j (given loaded.now) x) → IfOk result (λ list. IsLeast j (given loaded.now) list) }
{
    let mut found = IndexSet::new(alloc);
    take_in(&mut found, start)?;
    let mut groups = Groups::new(alloc);
    let mut place = 0;
    'places: while place < found.len() {
        follow(alloc, loaded, &mut found, &mut groups, place)?;
        place += 1;
    }
    list_of(alloc, found)
}
