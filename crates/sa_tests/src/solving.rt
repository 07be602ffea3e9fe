// Answers of the solver, with its log after each.
ghost use Rattle.std.specs.Prelude.{◌≡◌};
ghost use Rattle.sa_core.specs.SpentLog.{learned_count};
ghost use Rattle.sa_core.specs.Solvers.{entries_of};

use crate::checker::judged;
use crate::formulas::{chains, clause, drawn, has_assignment, picked, pigeons, written};
use cn_clauses::{Formula, holds};
use jv_list::Mem;
use sa_core::{Solved, Solver};
use std::alloc::Global;
use std::test::Fail;

// The rows of a table: its lines, but for blank ones and those of remarks.
fn is_row(line: &str) -> bool {
    !line.trim().is_empty() && !line.trim().starts_with("//")
}

fn cell(row: &str, number: usize) -> &str {
    match row.split('|').nth(number) {
        Some(text) => text.trim(),
        None => "",
    }
}

fn number(row: &str, place: usize) -> u16 {
    match cell(row, place).parse::<u16>() {
        Ok(number) => number,
        Err(_) => 0,
    }
}

fn learned(solver: &Solver) -> usize
    ensures { result ≡ learned_count (entries_of solver.now) }
{
    let entries = &solver.log().entries;
    entries.iter().filter(|entry| entry.is_learned()).count()
}

// The answer as a word, where the assignment of Sat satisfies the formula.
fn word(formula: &Formula, solved: &Solved) -> &'static str {
    match solved {
        Solved::Sat(a) if a.values.length() != formula.variables.length() => "short",
        Solved::Sat(a) if holds(formula, a) => "sat",
        Solved::Sat(_) => "wrong",
        Solved::Unsat => "unsat",
        Solved::Spent => "spent",
        Solved::NoMemory => "no memory",
    }
}

// The answer within a budget, where no more was learned before.
fn solved(solver: &mut Solver, budget: u32) -> Solved {
    if budget == 0 {
        return solver.solve(0);
    }
    if learned(solver) <= budget as usize {
        solver.solve(budget)
    } else {
        Solved::Spent
    }
}

// The answer of a new solver, where its log is good.
fn answer(alloc: Global, formula: &Formula) -> Mem<&'static str> {
    let mut solver = Solver::new(alloc, formula)?;
    let solved = solver.solve(0);
    let word = word(formula, &solved);
    let judgement = judged(
        alloc,
        formula.variables.length() as u64,
        &solver,
        word == "unsat",
    )?;
    Ok(if judgement == "good" { word } else { judgement })
}

// The number of variables, the clauses, a budget, the answer, and how many clauses were learned where that is known.
const WRITTEN: &str = "
    0 | none | 0 | sat | 0
    0 | | 0 | unsat | 0
    2 | 1, -1 2, -2 -1 | 0 | unsat | 0
    // the two clauses of one variable
    1 | 1, -1 | 0 | unsat | 0
    1 | 1, -1 | 1 | unsat | 0
    2 | 1 1, -1 2 2 | 0 | sat | 0
    1 | 1 -1 | 0 | sat | 0
    // the eight clauses over three variables, and the first seven
    3 | 1 2 3, -1 2 3, 1 -2 3, -1 -2 3, 1 2 -3, -1 2 -3, 1 -2 -3, -1 -2 -3 | 1 | spent | 1
    3 | 1 2 3, -1 2 3, 1 -2 3, -1 -2 3, 1 2 -3, -1 2 -3, 1 -2 -3, -1 -2 -3 | 0 | unsat |
    3 | 1 2 3, -1 2 3, 1 -2 3, -1 -2 3, 1 2 -3, -1 2 -3, 1 -2 -3 | 0 | sat |
";

#[test]
fn written_formulas_have_their_answers(rt: HostRuntime) -> Result<(), Fail> {
    let alloc = rt.alloc();
    for row in WRITTEN.lines() {
        if is_row(row) {
            let formula = written(alloc, number(row, 0), cell(row, 1))?;
            let mut solver = Solver::new(alloc, &formula)?;
            let solved = solved(&mut solver, u32::from(number(row, 2)));
            assert_eq!(rt; word(&formula, &solved), cell(row, 3), "{row}");
            if !cell(row, 4).is_empty() {
                assert_eq!(rt; learned(&solver), usize::from(number(row, 4)), "{row}");
            }
            let unsat = cell(row, 3) == "unsat";
            assert_eq!(rt; judged(alloc, 3, &solver, unsat)?, "good", "{row}");
        }
    }
    Ok(())
}

// Pigeons and holes; the length of two chains of parities, and whether they differ.
const MADE: &str = "
    pigeons | 5 | 4 | unsat
    pigeons | 5 | 5 | sat
    pigeons | 6 | 5 | unsat
    chains | 2 | 0 | sat
    chains | 2 | 1 | unsat
    chains | 5 | 0 | sat
    chains | 5 | 1 | unsat
    chains | 7 | 1 | unsat
";

// Whether 128 clauses over 30 variables that are drawn from a seed have an assignment, as a plain search outside says.
const DRAWN: &str = "uSSSSSSSuSSuuuuSSSSuuuuSSSuuSuuuSuSSSuSS";

#[test]
fn made_formulas_have_their_answers(rt: HostRuntime) -> Result<(), Fail> {
    let alloc = rt.alloc();
    for row in MADE.lines() {
        if is_row(row) {
            let first = number(row, 1);
            let formula = if cell(row, 0) == "pigeons" {
                pigeons(alloc, first, number(row, 2))?
            } else {
                chains(alloc, first, number(row, 2) == 1)?
            };
            assert_eq!(rt; answer(alloc, &formula)?, cell(row, 3), "{row}");
        }
    }
    for (seed, letter) in DRAWN.chars().enumerate() {
        let formula = drawn(alloc, 30, 128, seed as u64)?;
        let wanted = if letter == 'S' { "sat" } else { "unsat" };
        assert_eq!(rt; answer(alloc, &formula)?, wanted, "{seed}");
    }
    Ok(())
}

// The places of the eight clauses of three literals among the 26.
const EIGHT: [u32; 8] = [12, 13, 15, 16, 21, 22, 24, 25];

#[test]
fn formulas_over_three_variables_are_as_their_truth_tables(rt: HostRuntime) -> Result<(), Fail> {
    let alloc = rt.alloc();
    let mut state: u32 = 1;
    for number in 0..1500_u32 {
        let mut mask = 0;
        for (bit, place) in EIGHT.iter().enumerate() {
            mask |= (number >> bit as u32 & 1) << place;
        }
        // behind the 256 formulas of the eight clauses some of all 26, of which the next has a fourth
        if number >= 256 {
            state = state.wrapping_mul(1664525).wrapping_add(1013904223);
            mask = state >> 6;
            state = state.wrapping_mul(1664525).wrapping_add(1013904223);
            mask &= state >> 6;
        }
        let wanted = if has_assignment(mask) { "sat" } else { "unsat" };
        assert_eq!(rt; answer(alloc, &picked(alloc, mask)?)?, wanted, "{mask}");
    }
    Ok(())
}

// Clauses that are added to a solver of no variable, and the answer after each.
const ADDED: &str = "
    1 2 3 | sat
    -1 2 3 | sat
    1 -2 3 | sat
    -1 -2 3 | sat
    1 2 -3 | sat
    -1 2 -3 | sat
    1 -2 -3 | sat
    -1 -2 -3 | unsat
    1 | unsat
";

#[test]
fn budgets_are_spent_and_clauses_added(rt: HostRuntime) -> Result<(), Fail> {
    let alloc = rt.alloc();
    let formula = pigeons(alloc, 5, 4)?;
    let mut solver = Solver::new(alloc, &formula)?;
    for budget in 1..11 {
        let solved = solved(&mut solver, budget);
        assert_eq!(rt; word(&formula, &solved), "spent");
        assert_eq!(rt; learned(&solver), budget as usize);
    }
    assert_eq!(rt; word(&formula, &solver.solve(0)), "unsat");
    assert_eq!(rt; judged(alloc, 64, &solver, true)?, "good");

    let mut formula = written(alloc, 3, "none")?;
    let mut solver = Solver::new(alloc, &written(alloc, 0, "none")?)?;
    for row in ADDED.lines() {
        if is_row(row) {
            let clause = clause(alloc, cell(row, 0))?;
            solver.add(&clause)?;
            if formula.covers(clause.lits.as_slice()) {
                formula.push_lits(alloc, clause.lits.as_slice())?;
            }
            assert_eq!(rt; word(&formula, &solver.solve(0)), cell(row, 1), "{row}");
        }
    }
    assert_eq!(rt; judged(alloc, 3, &solver, true)?, "good");
    assert_eq!(rt; solver.log().entries.length() - learned(&solver), 9);

    let mut solver = Solver::new(alloc, &written(alloc, 2, "1 2")?)?;
    solver.add(&clause(alloc, "-5 1")?)?;
    match solver.solve(0) {
        Solved::Sat(a) => assert_eq!(rt; a.values.length(), 5),
        _ => return Err("another answer".into()),
    }
    Ok(())
}
