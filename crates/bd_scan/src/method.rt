// The facts of a method.
ghost use Rattle.std.specs.Prelude.{◌≡◌, ◌++◌, IfOk, OnOk};
ghost use Rattle.std.specs.List.{flat_map};
ghost use Rattle.bd_scan.specs.Facts.{instr_facts, row_facts};
ghost use Rattle.bd_scan.specs.Methods.{facts};

use crate::descriptor::has_float;
use crate::exception::put_exceptions;
use crate::fact::{Fact, Why};
use crate::named::{put_name, put_named};
use crate::opcode::unsupported_opcode;
use crate::pool::class_at;
use crate::used::{put_float, put_operands};
use cf_class::{ClassFile, code_in, member_in};
use cf_code::{Placed, Row};
use cf_pool::PoolEntry;
use jv_base::{List, Mem, MethodId};
use std::alloc::Global;

/// Puts the facts of an instruction at the end.
fn put_instr(alloc: Global, facts: &mut List<Fact>, pool: &[PoolEntry], placed: &Placed) -> Mem<()>
    ensures { OnOk result (facts.new ≡ facts.old ++ instr_facts pool.now placed.now) }
{
    put_named(alloc, facts, pool, &placed.instr)?;
    put_operands(alloc, facts, pool, placed)?;
    put_exceptions(alloc, facts, &placed.instr)?;
    match unsupported_opcode(&placed.instr) {
        Some(opcode) => facts.add(Fact::Refuse(placed.pc, Why::Opcode(opcode))),
        None => Ok(()),
    }
}

/// Puts the facts of instructions at the end.
fn put_instrs(alloc: Global, facts: &mut List<Fact>, pool: &[PoolEntry], code: &[Placed]) -> Mem<()>
    ensures { OnOk result (facts.new ≡ facts.old ++ flat_map (instr_facts pool.now) code.now) }
{
    for placed in code {
        put_instr(alloc, facts, pool, placed)?;
    }
    Ok(())
}

/// Puts the catch type of a row of the exception table at the end; 0 is none (JVM Specification SE 8, 4.7.3).
fn put_row(alloc: Global, facts: &mut List<Fact>, pool: &[PoolEntry], row: Row) -> Mem<()>
    ensures { OnOk result (facts.new ≡ facts.old ++ row_facts pool.now row) }
{
    if row.catch_type == 0 {
        return Ok(());
    }
    put_name(alloc, facts, class_at(alloc, pool, row.catch_type)?)
}

/// Puts the catch types of rows at the end.
fn put_rows(alloc: Global, facts: &mut List<Fact>, pool: &[PoolEntry], rows: &[Row]) -> Mem<()>
    ensures { OnOk result (facts.new ≡ facts.old ++ flat_map (row_facts pool.now) rows.now) }
{
    for row in rows {
        put_row(alloc, facts, pool, *row)?;
    }
    Ok(())
}

/// The facts of a method of a class, which is known by its name and its descriptor: those of its descriptor, of each
/// instruction in order, and of each row of the exception table in order. A method without code has those of its
/// descriptor alone.
pub fn scan(alloc: Global, class: &ClassFile, method: &MethodId) -> Mem<List<Fact>>
    ensures { IfOk result (λ found. found ≡ facts class.now method.now) }
{
    let mut found = List::new(alloc);
    put_float(&mut found, 0, has_float(method.desc.as_str().as_bytes()))?;
    let Some(member) = member_in(class.methods.as_slice(), &method.name, &method.desc) else {
        return Ok(found);
    };
    let Some(code) = code_in(member.attributes.as_slice()) else {
        return Ok(found);
    };
    let pool = class.pool.entries.as_slice();
    put_instrs(alloc, &mut found, pool, code.code.as_slice())?;
    put_rows(alloc, &mut found, pool, code.rows.as_slice())?;
    Ok(found)
}
