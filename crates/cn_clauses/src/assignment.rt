// Assignments, and whether one satisfies a formula.
ghost use Rattle.std.specs.Prelude.{◌≡◌, IsTrue, ◌↔◌, length};
ghost use Rattle.std.specs.List.{list_all};
ghost use Rattle.cn_clauses.specs.declared.clause.Clause.{Clause};
ghost use Rattle.cn_clauses.specs.Formulas.{variables_of, clauses_of, value_at};
ghost use Rattle.cn_clauses.specs.Literals.{lit_value};
ghost use Rattle.cn_clauses.specs.Satisfaction.{clause_holds, Satisfies};

use crate::clause::Clause;
use crate::formula::Formula;
use crate::lit::Lit;
use jv_list::List;

/// A value for each variable, in order.
#[derive(Debug, Drop)]
pub struct Assignment {
    pub values: List<bool>,
}

fn variable_is_true(values: &[bool], variable: u64) -> bool
    ensures { result ≡ value_at values.now variable }
{
    match values.get(variable as usize) {
        Some(value) => *value,
        None => false,
    }
}

#[tactic(auto, unfolding(crate::specs::Literals::lit_value))]
fn lit_is_true(values: &[bool], lit: Lit) -> bool
    ensures { result ≡ lit_value (value_at values.now) lit }
{
    let value = variable_is_true(values, lit.variable());
    if lit.is_negated() { !value } else { value }
}

fn clause_is_true(values: &[bool], clause: &Clause) -> bool
    ensures { result ≡ clause_holds (value_at values.now) clause.now.lits }
{
    clause
        .lits
        .as_slice()
        .iter()
        .any(|lit| lit_is_true(values, *lit))
}

fn all_are_true(values: &[bool], clauses: &[Clause]) -> bool
    ensures { result ≡ list_all (λ (clause : Clause). clause_holds (value_at values.now) clause.lits) clauses.now }
{
    clauses.iter().all(|clause| clause_is_true(values, clause))
}

/// Whether the assignment satisfies each clause of the formula.
pub fn holds(formula: &Formula, a: &Assignment) -> bool
    requires { length a.now.values ≡ variables_of formula.now }
    ensures { IsTrue result ↔ Satisfies (value_at a.now.values) (clauses_of formula.now) }
{
    all_are_true(a.values.as_slice(), formula.clauses.as_slice())
}
