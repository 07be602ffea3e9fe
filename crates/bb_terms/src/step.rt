// One term gets its literals.
ghost use Rattle.std.specs.Prelude.{◌≡◌, ◌<◌, ◌≤◌, ℕ, false, length, slice_get, Some, OnOk};
ghost use Rattle.tm_terms.specs.declared.op.Op.{Op};
ghost use Rattle.tm_terms.specs.declared.op.Op.TheVariants.{Free};
ghost use Rattle.tm_terms.specs.Operations.{operands_of};
ghost use Rattle.tm_terms.specs.Terms.{is_free};
ghost use Rattle.bb_terms.specs.Tables.{HasSome, IsTable, ExtendsOnce};
ghost use Rattle.bb_terms.specs.Calls.Terms.{AreReady, IsReadyAt, IsStep, GetsAtMost};

use crate::free::free_word;
use crate::operation::operation;
use crate::table::Table;
use bb_gates::growth_laws;
use cn_clauses::{Formula, extension_laws, literal_laws};
use jv_list::Mem;
use std::alloc::Global;
use tm_terms::{Bank, Op, Sort, TermId, term_laws};

// A free term gets fresh literals.
fn blast_free(
    alloc: Global,
    formula: &mut Formula,
    table: &mut Table,
    bank: &Bank,
    place: u64,
    sort: Sort,
) -> Mem<()>
    requires table { IsTable formula.old bank.now table.old }
    requires room { place < length table.old }
    requires none { HasSome table.old place → ⊥ }
    requires op { slice_get bank.now place ≡ Some (Free sort) }
    ensures step { IsStep bank.now formula.old table.old formula.new table.new }
    ensures once { OnOk result (ExtendsOnce bank.now formula.old table.old formula.new table.new) }
    ensures made { OnOk result (HasSome table.new place) }
    ensures only { GetsAtMost place table.old table.new }
{
    literal_laws();
    extension_laws();
    bank.laws();
    term_laws();
    let lits = free_word(alloc, formula, sort.width())?;
    table.put(place as usize, lits);
    Ok(())
}

// A term that is not free gets the literals of its operation.
fn blast_operation(
    alloc: Global,
    formula: &mut Formula,
    table: &mut Table,
    bank: &Bank,
    place: u64,
    op: Op,
) -> Mem<()>
    requires table { IsTable formula.old bank.now table.old }
    requires room { place < length table.old }
    requires none { HasSome table.old place → ⊥ }
    requires op { slice_get bank.now place ≡ Some op }
    requires kept { is_free op ≡ false }
    requires ready { AreReady table.old (operands_of op) }
    ensures step { IsStep bank.now formula.old table.old formula.new table.new }
    ensures once { OnOk result (ExtendsOnce bank.now formula.old table.old formula.new table.new) }
    ensures made { OnOk result (HasSome table.new place) }
    ensures only { GetsAtMost place table.old table.new }
{
    literal_laws();
    extension_laws();
    bank.laws();
    term_laws();
    let lits = operation(alloc, formula, bank, table.words(), op)?;
    table.put(place as usize, lits);
    Ok(())
}

// The term at a place gets its literals, where it has none.
pub(crate) fn blast_term(
    alloc: Global,
    formula: &mut Formula,
    table: &mut Table,
    bank: &Bank,
    place: u64,
) -> Mem<()>
    requires table { IsTable formula.old bank.now table.old }
    requires term { place < length bank.now }
    requires room { place < length table.old }
    requires ready { IsReadyAt bank.now table.old place }
    ensures step { IsStep bank.now formula.old table.old formula.new table.new }
    ensures once { OnOk result (ExtendsOnce bank.now formula.old table.old formula.new table.new) }
    ensures made { OnOk result (HasSome table.new place) }
    ensures only { GetsAtMost place table.old table.new }
{
    extension_laws();
    if table.has(place as usize) {
        return Ok(());
    }
    let op = *bank.op(TermId(place));
    match op {
        Op::Free(sort) => blast_free(alloc, formula, table, bank, place, sort),
        _ => blast_operation(alloc, formula, table, bank, place, op),
    }
}
