// The classes that constants name (JVM Specification SE 8, 4.4.1 and 4.4.2).
ghost use Rattle.std.specs.Prelude.{◌≡◌, ◌++◌, option_copied, IfOk, OnOk};
ghost use Rattle.bd_scan.specs.Facts.{names, named_text, class_of_constant, constant_names, instr_names};
ghost use Rattle.std.specs.Prelude.{slice_get};

use crate::descriptor::named_class;
use crate::fact::Fact;
use crate::pool::class_at;
use cf_bodies::{Need, need_of};
use cf_code::Instr;
use cf_pool::PoolEntry;
use jv_base::{List, Mem, Name};
use std::alloc::Global;

/// Puts the class that a text names at the end.
pub(crate) fn put_name(alloc: Global, facts: &mut List<Fact>, text: Option<Name>) -> Mem<()>
    ensures { OnOk result (facts.new ≡ facts.old ++ names (named_text text)) }
{
    let Some(text) = text else {
        return Ok(());
    };
    let Some(class) = named_class(text.as_str()) else {
        return Ok(());
    };
    facts.add(Fact::Names(Name::from_text(alloc, class)?))
}

/// The text of the class that the constant at an index names: a class is named, and a reference names the class that
/// it is of.
fn class_of_constant(alloc: Global, pool: &[PoolEntry], index: u16) -> Mem<Option<Name>>
    ensures { IfOk result (λ o. o ≡ class_of_constant pool.now index (slice_get pool.now index)) }
{
    match pool.get(usize::from(index)) {
        Some(PoolEntry::Class(_)) => class_at(alloc, pool, index),
        Some(
            PoolEntry::Field(class, _)
            | PoolEntry::Method(class, _)
            | PoolEntry::InterfaceMethod(class, _),
        ) => class_at(alloc, pool, *class),
        _ => Ok(None),
    }
}

/// Puts the class that the constant of an instruction names at the end.
pub(crate) fn put_named(
    alloc: Global,
    facts: &mut List<Fact>,
    pool: &[PoolEntry],
    instr: &Instr,
) -> Mem<()>
    ensures { OnOk result (facts.new ≡ facts.old ++ instr_names pool.now instr.now) }
{
    match need_of(instr) {
        Need::Pooled(_, index) => put_name(alloc, facts, class_of_constant(alloc, pool, index)?),
        _ => Ok(()),
    }
}
