// A gate whose clauses are given by a table.
ghost use Rattle.std.specs.Prelude.{◌≡◌, ◌++◌, [], ◌∷◌, ℕ, IfOk, OnOk, IsTrue, length, take, Some};
ghost use Rattle.cn_clauses.specs.Formulas.{variables_of, clauses_of, known_of};
ghost use Rattle.cn_clauses.specs.Extension.{IsGate};
ghost use Rattle.bb_gates.specs.Growth.{AreOf, IsConservative, Adds};
ghost use Rattle.bb_gates.specs.Calls.Table.{named_lits, row_lits, table_lits, is_table, value_of_table};

use crate::signs::signed;
use cn_clauses::{Clause, Formula, Lit, extension_laws, literal_laws};
use jv_list::{List, Mem};
use std::alloc::{AllocError, Global};

/// A clause of a gate: the sign of the gate's own literal, and of each operand that it names.
#[derive(Clone, Copy)]
pub(crate) struct Row(
    pub bool,
    pub Option<bool>,
    pub Option<bool>,
    pub Option<bool>,
);

/// The operands of a gate.
#[derive(Clone, Copy)]
pub(crate) struct Operands(pub Lit, pub Lit, pub Lit);

fn put_named(lits: &mut List<Lit>, lit: Lit, sign: Option<bool>) -> Mem<()>
    ensures { OnOk result (lits.new ≡ lits.old ++ named_lits lit sign) }
{
    match sign {
        Some(sign) => lits.add(signed(lit, sign)),
        None => Ok(()),
    }
}

fn clause_of(alloc: Global, own: Lit, operands: Operands, row: Row) -> Mem<Clause>
    ensures { IfOk result (λ clause. clause.lits ≡ row_lits own operands row) }
{
    let mut lits = List::new(alloc);
    put_named(&mut lits, own, Some(row.0))?;
    put_named(&mut lits, operands.0, row.1)?;
    put_named(&mut lits, operands.1, row.2)?;
    put_named(&mut lits, operands.2, row.3)?;
    Ok(Clause { lits })
}

// Puts the clauses of the rows at the end. For want of memory the first few are there.
fn push_rows(
    alloc: Global,
    formula: &mut Formula,
    own: Lit,
    operands: Operands,
    rows: &[Row],
) -> Mem<()>
    requires { AreOf formula.old (own ∷ operands.0 ∷ operands.1 ∷ operands.2 ∷ []) }
    ensures ok { OnOk result (clauses_of formula.new ≡ clauses_of formula.old ++ table_lits own operands rows.now) }
    ensures first { (k : ℕ) × (clauses_of formula.new ≡ clauses_of formula.old ++ table_lits own operands (take k rows.now)) }
    ensures variables { variables_of formula.new ≡ variables_of formula.old }
    ensures known { known_of formula.new ≡ known_of formula.old }
{
    literal_laws();
    for row in rows {
        let clause = clause_of(alloc, own, operands, *row)?;
        let Ok(()) = formula.push(clause) else {
            return Err(AllocError);
        };
    }
    Ok(())
}

/// A new literal with the value of a table.
pub fn define(alloc: Global, formula: &mut Formula, operands: Operands, rows: &[Row]) -> Mem<Lit>
    requires named { AreOf formula.old (operands.0 ∷ operands.1 ∷ operands.2 ∷ []) }
    requires table { IsTrue (is_table rows.now) }
    ensures gate { IfOk result (λ lit. IsGate formula.old formula.new lit (value_of_table rows.now operands)) }
    ensures keeps { IsConservative formula.old formula.new }
    ensures size { Adds 1 (length rows.now) formula.old formula.new }
{
    literal_laws();
    extension_laws();
    let own = formula.fresh()?;
    push_rows(alloc, formula, own, operands, rows)?;
    Ok(own)
}
