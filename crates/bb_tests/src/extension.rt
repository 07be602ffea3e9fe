// The one way in which an assignment of inputs extends.
use cn_clauses::{Assignment, Clause, Formula, Lit, holds};
use jv_list::List;
use std::process::Abort;

/// Values of the first variables, and which values the clauses so far allow the next one.
#[derive(Drop)]
struct Extension {
    values: List<bool>,
    may_be_true: bool,
    may_be_false: bool,
}

// How many variables there are up to the last one that the clause names.
fn reach(clause: &Clause) -> usize {
    let mut reach = 0;
    for lit in clause.lits.as_slice() {
        reach = reach.max((lit.variable() as usize).wrapping_add(1));
    }
    reach
}

// The value that the clause wants of the variable behind those with values, where it does not hold by these.
fn wanted(clause: &Clause, values: &List<bool>) -> Option<bool> {
    let mut wanted = None;
    for lit in clause.lits.as_slice() {
        match values.get(lit.variable() as usize) {
            Some(value) if *value != lit.is_negated() => return None,
            Some(_) => {}
            None => wanted = Some(!lit.is_negated()),
        }
    }
    wanted
}

// Gives the next variable its value, which the clauses have to fix.
fn settle<R: Abort>(rt: &R, so_far: &mut Extension) {
    assert!(rt;
        so_far.may_be_true != so_far.may_be_false,
        "not exactly one value"
    );
    assert!(rt; so_far.values.push(so_far.may_be_true).is_ok());
    so_far.may_be_true = true;
    so_far.may_be_false = true;
}

/// The assignment that extends these values of the first variables. The clauses of a formula that gates were added to
/// stand in the order of the last variables that they name.
pub(crate) fn extended<R: Abort>(rt: &R, formula: &Formula, values: List<bool>) -> Assignment {
    let mut so_far = Extension {
        values,
        may_be_true: true,
        may_be_false: true,
    };
    for clause in formula.clauses.as_slice() {
        let reach = reach(clause);
        if reach.wrapping_sub(1) > so_far.values.length() {
            settle(rt, &mut so_far);
            assert!(rt;
                reach.wrapping_sub(1) == so_far.values.length(),
                "a variable without clauses"
            );
        }
        match wanted(clause, &so_far.values) {
            Some(true) => so_far.may_be_false = false,
            Some(false) => so_far.may_be_true = false,
            None => {}
        }
    }
    if so_far.values.length() < formula.variables.length() {
        settle(rt, &mut so_far);
    }
    let Extension { values, .. } = so_far;
    let a = Assignment { values };
    assert!(rt; a.values.length() == formula.variables.length());
    assert!(rt; holds(formula, &a));
    a
}

/// The value of a literal.
pub(crate) fn value_of<R: Abort>(rt: &R, a: &Assignment, lit: Lit) -> bool {
    let value = a
        .values
        .get(lit.variable() as usize)
        .expect(rt, "a variable of the assignment");
    *value != lit.is_negated()
}
