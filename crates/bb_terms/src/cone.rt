// The terms that a term depends on.
ghost use Rattle.std.specs.Prelude.{◌≡◌, ◌<◌, ◌≤◌, ◌+◌, ℕ, Bool, false, length, slice_get, Some, IfOk};
ghost use Rattle.tm_terms.specs.Operations.{operands_of, AreBelow};
ghost use Rattle.bb_terms.specs.Cones.{IsOperand};
ghost use Rattle.bb_terms.specs.Calls.Marks.{IsMarked, Marks, IsClosedFrom};

use crate::table::Table;
use jv_list::{List, Mem};
use std::alloc::Global;
use tm_terms::{Bank, Operands, TermId, term_laws};

// A mark for each place up to the last one, none of them set.
fn unmarked(alloc: Global, last: usize) -> Mem<List<bool>>
    ensures even { IfOk result (λ marks. length marks ≡ last + 1) }
    ensures none { IfOk result (λ marks. (j : ℕ) → IsMarked marks j → ⊥) }
{
    let mut marks = List::new(alloc);
    while marks.length() <= last {
        marks.add(false)?;
    }
    Ok(marks)
}

fn mark(marks: &mut List<bool>, id: TermId)
    requires { id.0 < length marks.old }
    ensures { Marks marks.old marks.new (λ j. j ≡ id.0) }
{
    marks.set(id.0 as usize, true);
}

fn mark_operands(marks: &mut List<bool>, operands: Operands)
    requires { AreBelow (length marks.old) operands }
    ensures { Marks marks.old marks.new (λ j. IsOperand j operands) }
{
    match operands {
        Operands::Nothing => {}
        Operands::One(a) => mark(marks, a),
        Operands::Two(a, b) => {
            mark(marks, a);
            mark(marks, b);
        }
        Operands::Three(a, b, c) => {
            mark(marks, a);
            mark(marks, b);
            mark(marks, c);
        }
    }
}

// Marks the operands of a place that is marked and has no word.
fn visit(bank: &Bank, table: &Table, id: TermId, marks: &mut List<bool>, place: usize)
    requires term { id.0 < length bank.now }
    requires place { place ≤ id.0 }
    requires so_far { IsClosedFrom bank.now table.now id.0 (place + 1) marks.old }
    ensures { IsClosedFrom bank.now table.now id.0 place marks.new }
{
    bank.laws();
    term_laws();
    if *marks.at(place) && !table.has(place) {
        mark_operands(marks, bank.op(TermId(place as u64)).operands());
    }
}

/// Marks for the terms of the cone of a term, but for those that stand only below terms with words.
pub(crate) fn cone(alloc: Global, bank: &Bank, table: &Table, id: TermId) -> Mem<List<bool>>
    requires { id.0 < length bank.now }
    ensures { IfOk result (λ marks. IsClosedFrom bank.now table.now id.0 0 marks) }
{
    let last = id.0 as usize;
    let mut marks = unmarked(alloc, last)?;
    mark(&mut marks, id);
    let mut from = last;
    visit(bank, table, id, &mut marks, from);
    while from > 0 {
        from -= 1;
        visit(bank, table, id, &mut marks, from);
    }
    Ok(marks)
}
