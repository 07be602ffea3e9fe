// The exceptions that an instruction may raise (JVM Specification SE 8, 6.5).
ghost use Rattle.std.specs.Prelude.{◌≡◌, ◌++◌, OnOk};
ghost use Rattle.std.specs.List.{flat_map};
ghost use Rattle.cf_code.specs.Kinds.{raises};
ghost use Rattle.bd_scan.specs.Facts.{exception_facts, instr_raises};

use crate::fact::Fact;
use cf_code::{Instr, kinds};
use jv_base::{Kind, List, Mem, Name};
use lib_rows::Builtin;
use std::alloc::Global;

const EXCEPTIONS: [(Kind, Builtin); 7] = [
    (Kind::Null, Builtin::NullPointerException),
    (Kind::Zero, Builtin::ArithmeticException),
    (Kind::Bounds, Builtin::ArrayIndexOutOfBoundsException),
    (Kind::NegSize, Builtin::NegativeArraySizeException),
    (Kind::Store, Builtin::ArrayStoreException),
    (Kind::Cast, Builtin::ClassCastException),
    (Kind::StrIndex, Builtin::StringIndexOutOfBoundsException),
];

/// Puts the exception of a kind of fault at the end, if an instruction may raise it by itself.
fn put_exception(
    alloc: Global,
    facts: &mut List<Fact>,
    instr: &Instr,
    kind: Kind,
    class: Builtin,
) -> Mem<()>
    ensures { OnOk result (facts.new ≡ facts.old ++ exception_facts (raises instr.now) (kind, class)) }
{
    if kinds(instr).contains(kind) {
        facts.add(Fact::Raises(Name::from_text(alloc, class.name())?))
    } else {
        Ok(())
    }
}

/// Puts those of the exceptions at the end that an instruction may raise by itself.
fn put_raised(
    alloc: Global,
    facts: &mut List<Fact>,
    instr: &Instr,
    exceptions: &[(Kind, Builtin)],
) -> Mem<()>
    ensures { OnOk result (facts.new ≡ facts.old ++ flat_map (exception_facts (raises instr.now)) exceptions.now) }
{
    for exception in exceptions {
        put_exception(alloc, facts, instr, exception.0, exception.1)?;
    }
    Ok(())
}

/// Puts the exceptions that an instruction may raise by itself at the end.
pub(crate) fn put_exceptions(alloc: Global, facts: &mut List<Fact>, instr: &Instr) -> Mem<()>
    ensures { OnOk result (facts.new ≡ facts.old ++ instr_raises instr.now) }
{
    put_raised(alloc, facts, instr, &EXCEPTIONS)
}
