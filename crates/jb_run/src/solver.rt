// A solver that splits on the least variable without a value and propagates units.
ghost use Rattle.std.specs.Prelude.{◌≡◌, ℕ, ◌≤◌, ◌<◌, ◌++◌, ◌∷◌, [], ◌≢◌, map, take, drop, length, false, Some, None, slice_set, unwrap_or, IfOk, IfSome, MatchOption, OnOk};
ghost use Rattle.jb_run.specs.Solved.{known_at, known_lit, cleared, HasUnset, IsAsked, IsBegun, Passes, Settles, IsExtended, IsExtendedBy, IsRight};

use crate::formula::{Clause, Formula, Lit};
use crate::gates::Bit;
use jv_base::Mem;
use std::alloc::Global;

/// Whether the formula and the goal have an assignment that satisfies both.
#[derive(Debug, Drop)]
pub enum Answer {
    Sat(Vec<bool>),
    Unsat,
}

// What a clause asks under the values so far.
#[derive(Clone, Copy, Debug, PartialEq, Eq)]
enum Asks {
    Nothing,
    Literal(Lit),
    Conflict,
}

// What propagation found.
#[derive(Clone, Copy, Debug, PartialEq, Eq)]
enum Pass {
    Still,
    Changed,
    Conflict,
}

// The values so far, and the variables that have one, in the order in which they got it.
#[derive(Drop)]
struct Search {
    values: Vec<Option<bool>>,
    trail: Vec<usize>,
}

// The value of a literal, where its variable has one. A variable past the values is false.
fn value_of(values: &[Option<bool>], lit: Lit) -> Option<bool>
    ensures { result ≡ known_lit values.now lit }
{
    match values.get(lit.variable) {
        Some(Some(value)) => Some(*value != lit.negated),
        Some(None) => None,
        None => Some(lit.negated),
    }
}

fn asked_by(values: &[Option<bool>], clause: &Clause) -> Asks
    ensures { IsAsked values.now clause.now.lits.items result }
{
    let mut open = None;
    for lit in &clause.lits {
        match value_of(values, *lit) {
            Some(true) => return Asks::Nothing,
            Some(false) => {}
            None if open.is_some() => return Asks::Nothing,
            None => open = Some(*lit),
        }
    }
    match open {
        Some(lit) => Asks::Literal(lit),
        None => Asks::Conflict,
    }
}

impl Search {
    // Gives a variable its value.
    fn assign(&mut self, variable: usize, value: bool) -> Mem<()>
        requires { known_at self.old.values.items variable ≡ None }
        ensures values { OnOk result (self.new.values.items ≡ slice_set self.old.values.items variable (Some value)) }
        ensures trail { OnOk result (self.new.trail.items ≡ self.old.trail.items ++ variable ∷ []) }
    {
        self.trail.push(variable)?;
        if variable < self.values.len() {
            self.values[variable] = Some(value);
        }
        Ok(())
    }

    // Makes the goal true. False where it is not.
    fn begin(&mut self, goal: Bit) -> Mem<bool>
        ensures { IfOk result (λ begun. IsBegun self.old.values.items self.new.values.items goal begun) }
    {
        match goal {
            Bit::Known(value) => Ok(value),
            Bit::Of(lit) => match value_of(self.values.as_slice(), lit) {
                Some(value) => Ok(value),
                None => {
                    self.assign(lit.variable, !lit.negated)?;
                    Ok(true)
                }
            },
        }
    }

    // Takes the value of a variable back.
    fn clear(&mut self, variable: usize)
        ensures values { self.new.values.items ≡ slice_set self.old.values.items variable None }
        ensures trail { self.new.trail.items ≡ self.old.trail.items }
    {
        if variable < self.values.len() {
            self.values[variable] = None;
        }
    }

    // Takes back what was assigned since the trail had this length.
    fn undo(&mut self, length: usize)
        ensures values { self.new.values.items ≡ cleared (drop length self.old.trail.items) self.old.values.items }
        ensures trail { self.new.trail.items ≡ take length self.old.trail.items }
    {
        while self.trail.len() > length {
            if let Some(variable) = self.trail.pop() {
                self.clear(variable);
            }
        }
    }

    // Assigns the literal of a clause that asks for one.
    fn visit(&mut self, clause: &Clause) -> Mem<Pass>
        ensures { IfOk result (λ found. Passes self.old self.new (clause.now ∷ []) found) }
    {
        match asked_by(self.values.as_slice(), clause) {
            Asks::Nothing => Ok(Pass::Still),
            Asks::Conflict => Ok(Pass::Conflict),
            Asks::Literal(lit) => {
                self.assign(lit.variable, !lit.negated)?;
                Ok(Pass::Changed)
            }
        }
    }

    // Goes once over the clauses.
    fn pass(&mut self, clauses: &[Clause]) -> Mem<Pass>
        ensures { IfOk result (λ found. Passes self.old self.new clauses.now found) }
    {
        let mut found = Pass::Still;
        for clause in clauses {
            match self.visit(clause)? {
                Pass::Still => {}
                Pass::Changed => found = Pass::Changed,
                Pass::Conflict => return Ok(Pass::Conflict),
            }
        }
        Ok(found)
    }

    // Goes over the clauses until none asks for a literal. False where one of them is false.
    fn propagate(&mut self, clauses: &[Clause]) -> Mem<bool>
        ensures { IfOk result (λ holds. Settles self.old self.new clauses.now holds) }
    {
        loop {
            match self.pass(clauses)? {
                Pass::Still => return Ok(true),
                Pass::Changed => {}
                Pass::Conflict => return Ok(false),
            }
        }
    }

    fn least_unset(&self) -> Option<usize>
        ensures unset { MatchOption result (HasUnset self.now.values.items → ⊥) (λ variable. known_at self.now.values.items variable ≡ None) }
        ensures least { IfSome result (λ variable. (lower : ℕ) → lower < variable → known_at self.now.values.items lower ≢ None) }
    {
        for (variable, value) in self.values.iter().enumerate() {
            if value.is_none() {
                return Some(variable);
            }
        }
        None
    }

    // Whether the values so far extend to an assignment that satisfies all clauses. Where they do not, they are as before.
    #[cycle(split)]
    fn extends(&mut self, clauses: &[Clause]) -> Mem<bool>
        ensures { IfOk result (λ found. IsExtended self.old self.new clauses.now found) }
    {
        let mark = self.trail.len();
        if !self.propagate(clauses)? {
            self.undo(mark);
            return Ok(false);
        }
        let Some(variable) = self.least_unset() else {
            return Ok(true);
        };
        if self.extends_by(clauses, variable, false)? {
            return Ok(true);
        }
        if self.extends_by(clauses, variable, true)? {
            return Ok(true);
        }
        self.undo(mark);
        Ok(false)
    }

    // The same with a value for one more variable.
    #[cycle(split)]
    fn extends_by(&mut self, clauses: &[Clause], variable: usize, value: bool) -> Mem<bool>
        requires { known_at self.old.values.items variable ≡ None }
        ensures { IfOk result (λ found. IsExtendedBy self.old self.new clauses.now variable value found) }
    {
        let mark = self.trail.len();
        self.assign(variable, value)?;
        if self.extends(clauses)? {
            return Ok(true);
        }
        self.undo(mark);
        Ok(false)
    }
}

fn assignment(alloc: Global, values: &[Option<bool>]) -> Mem<Vec<bool>>
    ensures { IfOk result (λ assignment. assignment.items ≡ map (λ value. unwrap_or value false) values.now) }
{
    values
        .iter()
        .map(|value| value.unwrap_or(false))
        .collect(alloc)
}

fn nothing_set(alloc: Global, variables: usize) -> Mem<Vec<Option<bool>>>
    ensures number { IfOk result (λ values. length values.items ≡ variables) }
    ensures unset { IfOk result (λ values. (variable : ℕ) → variable < variables → known_at values.items variable ≡ None) }
{
    let mut values = Vec::new(alloc);
    for number in 0..variables {
        values.push(None)?;
    }
    Ok(values)
}

/// An assignment that satisfies the formula and makes the goal true, or Unsat.
pub fn solve(alloc: Global, formula: &Formula, goal: Bit) -> Mem<Answer>
    ensures { IfOk result (λ answer. IsRight formula.now goal answer) }
{
    let mut search = Search {
        values: nothing_set(alloc, formula.variables)?,
        trail: Vec::new(alloc),
    };
    if !search.begin(goal)? {
        return Ok(Answer::Unsat);
    }
    if !search.extends(formula.clauses.as_slice())? {
        return Ok(Answer::Unsat);
    }
    Ok(Answer::Sat(assignment(alloc, search.values.as_slice())?))
}

#[cfg(test)]
mod tests {
    use super::*;
    use std::test::Fail;

    // A literal: the number of a variable from 1 on, or its opposite.
    fn lit(number: i8) -> Lit {
        Lit {
            variable: usize::from(number.unsigned_abs().saturating_sub(1)),
            negated: number < 0,
        }
    }

    // The clauses in the manner of DIMACS: a 0 ends each.
    fn formula_of(alloc: Global, variables: usize, numbers: &[i8]) -> Mem<Formula> {
        let mut formula = Formula::new(alloc);
        for _ in 0..variables {
            let _ = formula.fresh()?;
        }
        let mut lits = Vec::new(alloc);
        for number in numbers {
            if *number == 0 {
                formula.push(alloc, lits.as_slice())?;
                lits.clear();
            } else {
                lits.push(lit(*number))?;
            }
        }
        Ok(formula)
    }

    // The values, each as a digit, or `unsat`.
    fn spelled(alloc: Global, answer: &Answer) -> Mem<String> {
        let mut text = String::new(alloc);
        match answer {
            Answer::Sat(values) => {
                for value in values {
                    text.push_str(if *value { "1" } else { "0" })?;
                }
            }
            Answer::Unsat => text.push_str("unsat")?,
        }
        Ok(text)
    }

    // Formulas with a goal, and the answer to each.
    #[test]
    fn solves(rt: HostRuntime) -> Result<(), Fail> {
        let cases: [(usize, &[i8], Bit, &str); 9] = [
            (0, &[], Bit::Known(true), ""),
            (0, &[], Bit::Known(false), "unsat"),
            (0, &[0], Bit::Known(true), "unsat"),
            (2, &[], Bit::Of(lit(2)), "01"),
            (1, &[1, 0, -1, 0], Bit::Known(true), "unsat"),
            (2, &[1, 2, 0, -1, 2, 0], Bit::Of(lit(-2)), "unsat"),
            (3, &[-1, 2, 0, -2, 3, 0], Bit::Of(lit(1)), "111"),
            (2, &[1, 2, 0, -1, -2, 0, 1, -2, 0], Bit::Known(true), "10"),
            (
                2,
                &[1, 2, 0, -1, 2, 0, 1, -2, 0, -1, -2, 0],
                Bit::Known(true),
                "unsat",
            ),
        ];
        for (variables, clauses, goal, wanted) in cases {
            let formula = formula_of(rt.alloc(), variables, clauses)?;
            let answer = solve(rt.alloc(), &formula, goal)?;
            let text = spelled(rt.alloc(), &answer)?;
            assert!(rt; text.as_str() == wanted, "{clauses:?} {goal:?}");
        }
        Ok(())
    }
}
