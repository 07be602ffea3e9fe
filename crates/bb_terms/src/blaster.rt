// A term and all that it depends on get literals.
ghost use Rattle.std.specs.Prelude.{◌≡◌, ◌<◌, ◌≤◌, ℕ, length, IfOk, OnOk};
ghost use Rattle.bb_terms.specs.Tables.{HasWord, HasSome, IsTable, KeepsValuations, ExtendsOnce};
ghost use Rattle.bb_terms.specs.Cones.{GetsCone};
ghost use Rattle.bb_terms.specs.Calls.Terms.{IsReadyAt, IsStep};
ghost use Rattle.bb_terms.specs.Calls.Marks.{IsMarked, GetsMarked};

use crate::cone::cone;
use crate::operation::word_at;
use crate::step::blast_term;
use crate::table::Table;
use cn_clauses::{Formula, Lit, extension_laws};
use jv_list::{List, Mem};
use std::alloc::Global;
use tm_terms::{Bank, TermId, term_laws};

// The term at a place gets its literals, where it is marked and has none.
fn blast_marked(
    alloc: Global,
    formula: &mut Formula,
    table: &mut Table,
    bank: &Bank,
    marks: &[bool],
    place: usize,
) -> Mem<()>
    requires table { IsTable formula.old bank.now table.old }
    requires place { place < length marks.now }
    requires terms { length marks.now ≤ length bank.now }
    requires room { length marks.now ≤ length table.old }
    requires ready { IsMarked marks.now place → IsReadyAt bank.now table.old place }
    ensures step { IsStep bank.now formula.old table.old formula.new table.new }
    ensures once { OnOk result (ExtendsOnce bank.now formula.old table.old formula.new table.new) }
    ensures made { OnOk result (IsMarked marks.now place → HasSome table.new place) }
    ensures only { GetsMarked marks.now table.old table.new }
{
    extension_laws();
    if marks[place] {
        return blast_term(alloc, formula, table, bank, place as u64);
    }
    Ok(())
}

/// The literals of a term, the lowest bit first. Terms that it depends on get literals where the table has none for them,
/// and no others do. The table was filled over this formula and this bank. For want of memory some of them have got theirs.
pub fn blast(
    alloc: Global,
    formula: &mut Formula,
    table: &mut Table,
    bank: &Bank,
    id: TermId,
) -> Mem<List<Lit>>
    requires term { id.0 < length bank.now }
    requires table { IsTable formula.old bank.now table.old }
    ensures word { IfOk result (λ lits. HasWord table.new id.0 lits) }
    ensures table { IsTable formula.new bank.now table.new }
    ensures keeps { KeepsValuations bank.now formula.old table.old formula.new table.new }
    ensures once { OnOk result (ExtendsOnce bank.now formula.old table.old formula.new table.new) }
    ensures cone { GetsCone bank.now id.0 table.old table.new }
{
    extension_laws();
    bank.laws();
    term_laws();
    if table.has(id.0 as usize) {
        return List::copied(alloc, word_at(table.words(), id));
    }
    let found = cone(alloc, bank, table, id)?;
    let marks = found.as_slice();
    table.cover(marks.len())?;
    let mut place = 0;
    while place < marks.len() {
        blast_marked(alloc, formula, table, bank, marks, place)?;
        place += 1;
    }
    List::copied(alloc, word_at(table.words(), id))
}
