// What calls select in made classes.
ghost use Rattle.std.specs.Prelude.{[], IfOk, OnOk};
ghost use Rattle.bd_core.specs.Calls.Adds.{Adds, Each, OfSome};
ghost use Rattle.bd_core.specs.Calls.Gives.{IsChoice, OfCall, OfClass, IsSelectedGift, Crosses, OfMethod, FollowsNow};
ghost use Rattle.bd_core.specs.Loads.{given};
ghost use Rattle.bd_core.specs.Calls.Groups.{grouped};

use crate::answered::{resolved, selected};
use crate::by_fact::put_facts;
use crate::by_member::put_gifts;
use crate::groups::{Call, Groups};
use crate::loaded::Loaded;
use crate::member::Member;
use crate::put::put_target;
use jv_base::{List, Mem, MethodId, Name};
use std::alloc::Global;

// What is selected of a method in a class.
fn put_selected(
    alloc: Global,
    loaded: &Loaded,
    class: &Name,
    method: Option<MethodId>,
    out: &mut List<Member>,
) -> Mem<()>
    ensures { OnOk result (Adds (OfSome method (IsSelectedGift (given loaded.now) class.now)) out.old out.new) }
{
    match method {
        Some(resolved) => put_target(out, selected(alloc, loaded.classes(), class, &resolved)?),
        None => Ok(()),
    }
}

fn put_choice(
    alloc: Global,
    loaded: &Loaded,
    class: &Name,
    at: &MethodId,
    interface: bool,
    out: &mut List<Member>,
) -> Mem<()>
    ensures { OnOk result (Adds (IsChoice (given loaded.now) class.now at.now interface) out.old out.new) }
{
    let method = resolved(alloc, loaded.classes(), at, interface)?;
    put_selected(alloc, loaded, class, method, out)
}

fn put_called(
    alloc: Global,
    loaded: &Loaded,
    class: &Name,
    calls: &[Call],
    out: &mut List<Member>,
) -> Mem<()>
    ensures { OnOk result (Adds (Each calls.now (OfCall (given loaded.now) class.now)) out.old out.new) }
{
    'calls: for call in calls {
        put_choice(alloc, loaded, class, &call.at, call.interface, out)?;
    }
    Ok(())
}

fn put_under_called(
    alloc: Global,
    loaded: &Loaded,
    classes: &[Name],
    at: &MethodId,
    interface: bool,
    out: &mut List<Member>,
) -> Mem<()>
    ensures { OnOk result (Adds (Each classes.now (OfClass (given loaded.now) at.now interface)) out.old out.new) }
{
    'classes: for class in classes {
        put_choice(alloc, loaded, class, at, interface, out)?;
    }
    Ok(())
}

fn put_crossings(
    alloc: Global,
    loaded: &Loaded,
    groups: &Groups,
    member: &Member,
    out: &mut List<Member>,
) -> Mem<()>
    ensures { OnOk result (Adds (Crosses (given loaded.now) (grouped groups.now) member.now) out.old out.new) }
{
    match member {
        Member::Under(class, top) => put_called(alloc, loaded, class, groups.called(top), out),
        Member::Called(at, interface) => {
            let classes = groups.under(&at.class);
            put_under_called(alloc, loaded, classes, at, *interface, out)
        }
        _ => Ok(()),
    }
}

fn put_facts_of(alloc: Global, loaded: &Loaded, member: &Member, out: &mut List<Member>) -> Mem<()>
    ensures { OnOk result (Adds (OfMethod (given loaded.now) member.now) out.old out.new) }
{
    match member {
        Member::Method(method) => put_facts(alloc, loaded, method, out),
        _ => Ok(()),
    }
}

/// All that follows from a member, with its facts and with those that are grouped.
pub(crate) fn following(
    alloc: Global,
    loaded: &Loaded,
    groups: &Groups,
    member: &Member,
) -> Mem<List<Member>>
    ensures { IfOk result (Adds (FollowsNow (given loaded.now) (grouped groups.now) member.now) []) }
{
    let mut out = List::new(alloc);
    put_gifts(alloc, loaded, member, &mut out)?;
    put_facts_of(alloc, loaded, member, &mut out)?;
    put_crossings(alloc, loaded, groups, member, &mut out)?;
    Ok(out)
}
