// Instructions (JVM Specification SE 8, 6.5). Only the switches take memory.
ghost use Rattle.std.specs.Prelude.{◌≡◌, IfOk};

use crate::copied::PartCopy;
use cf_code::{Instr, LookupSwitch, Placed, TableSwitch};
use jv_base::{List, Mem};
use std::alloc::Global;

fn copy_table(alloc: Global, table: &TableSwitch) -> Mem<TableSwitch>
    ensures { IfOk result (λ copy. copy ≡ table.now) }
{
    Ok(TableSwitch {
        padding: List::copied(alloc, table.padding.as_slice())?,
        default: table.default,
        low: table.low,
        targets: List::copied(alloc, table.targets.as_slice())?,
    })
}

fn copy_lookup(alloc: Global, lookup: &LookupSwitch) -> Mem<LookupSwitch>
    ensures { IfOk result (λ copy. copy ≡ lookup.now) }
{
    Ok(LookupSwitch {
        padding: List::copied(alloc, lookup.padding.as_slice())?,
        default: lookup.default,
        cases: List::copied(alloc, lookup.cases.as_slice())?,
    })
}

fn copy_instr(alloc: Global, instr: &Instr) -> Mem<Instr>
    ensures { IfOk result (λ copy. copy ≡ instr.now) }
{
    Ok(match instr {
        Instr::Nop => Instr::Nop,
        Instr::Constant(constant) => Instr::Constant(*constant),
        Instr::Local(local) => Instr::Local(*local),
        Instr::Array(array) => Instr::Array(*array),
        Instr::Stack(stack) => Instr::Stack(*stack),
        Instr::Number(number) => Instr::Number(*number),
        Instr::Jump(jump) => Instr::Jump(*jump),
        Instr::Table(table) => Instr::Table(copy_table(alloc, table)?),
        Instr::Lookup(lookup) => Instr::Lookup(copy_lookup(alloc, lookup)?),
        Instr::Return(returned) => Instr::Return(*returned),
        Instr::Field(field) => Instr::Field(*field),
        Instr::Call(call) => Instr::Call(*call),
        Instr::Object(object) => Instr::Object(*object),
    })
}

impl PartCopy for Placed {
    fn copy(&self, alloc: Global) -> Mem<Placed> {
        Ok(Placed {
            pc: self.pc,
            instr: copy_instr(alloc, &self.instr)?,
        })
    }
}
