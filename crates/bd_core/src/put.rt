// Members behind others.
ghost use Rattle.std.specs.Prelude.{◌≡◌, ◌++◌, OnOk, map};
ghost use Rattle.bd_core.specs.declared.member.Member.TheVariants.{Known, Method, Initialised, Under};
ghost use Rattle.bd_core.specs.Calls.Adds.{Adds, Is, OfSome};

use crate::member::Member;
use jv_base::{List, Mem, MethodId, Name};
use std::alloc::Global;

pub(crate) fn put(out: &mut List<Member>, member: Member) -> Mem<()>
    ensures { OnOk result (Adds (Is member) out.old out.new) }
{
    out.add(member)
}

pub(crate) fn put_known(out: &mut List<Member>, names: List<Name>) -> Mem<()>
    ensures { OnOk result (out.new ≡ out.old ++ map Known names) }
{
    'names: for name in names {
        out.add(Member::Known(name))?;
    }
    Ok(())
}

pub(crate) fn put_initialised(out: &mut List<Member>, names: List<Name>) -> Mem<()>
    ensures { OnOk result (out.new ≡ out.old ++ map Initialised names) }
{
    'names: for name in names {
        out.add(Member::Initialised(name))?;
    }
    Ok(())
}

pub(crate) fn put_under(
    alloc: Global,
    out: &mut List<Member>,
    class: &Name,
    names: List<Name>,
) -> Mem<()>
    ensures { OnOk result (out.new ≡ out.old ++ map (Under class.now) names) }
{
    'names: for name in names {
        out.add(Member::Under(class.copy(alloc)?, name))?;
    }
    Ok(())
}

/// The method is executed, where there is one.
pub(crate) fn put_target(out: &mut List<Member>, target: Option<MethodId>) -> Mem<()>
    ensures { OnOk result (Adds (OfSome target (λ m. Is (Method m))) out.old out.new) }
{
    match target {
        Some(method) => put(out, Member::Method(method)),
        None => Ok(()),
    }
}

/// The class of the method is known, where there is one.
pub(crate) fn put_declarer(out: &mut List<Member>, target: Option<MethodId>) -> Mem<()>
    ensures { OnOk result (Adds (OfSome target (λ m. Is (Known m.class))) out.old out.new) }
{
    match target {
        Some(method) => put(out, Member::Known(method.class)),
        None => Ok(()),
    }
}
