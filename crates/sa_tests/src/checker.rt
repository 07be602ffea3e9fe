// A slow check of a solver's log, which knows nothing of the solver: unit propagation as a set of literals that grows until
// no clause gives another.
use cn_clauses::Lit;
use jv_list::{List, Mem};
use sa_core::{LogEntry, Solver};
use std::alloc::Global;

// What a clause says under a set of literals: the literals whose opposites are not in the set.
#[derive(Clone, Copy)]
enum Rest {
    Nothing,
    One(Lit),
    More,
}

fn has(set: &[bool], lit: Lit) -> bool {
    match set.get(lit.0 as usize) {
        Some(value) => *value,
        None => false,
    }
}

fn put(set: &mut [bool], lit: Lit) {
    let number = lit.0 as usize;
    if number < set.len() {
        set[number] = true;
    }
}

fn rest_of(set: &[bool], lits: &[Lit]) -> Rest {
    let mut found = Rest::Nothing;
    for lit in lits {
        if !has(set, lit.opposite()) {
            match found {
                Rest::Nothing => found = Rest::One(*lit),
                Rest::One(other) => {
                    if other != *lit {
                        return Rest::More;
                    }
                }
                Rest::More => return Rest::More,
            }
        }
    }
    found
}

// The least set that has the opposites of these literals, but for one of them, and what the clauses give.
fn forced(
    alloc: Global,
    size: usize,
    clauses: &[LogEntry],
    lits: &[Lit],
    without: Option<Lit>,
) -> Mem<Vec<bool>> {
    let mut set = Vec::new(alloc);
    set.resize(size, false)?;
    for lit in lits {
        if without != Some(*lit) {
            put(&mut set, lit.opposite());
        }
    }
    for _ in 0..size {
        let mut grew = false;
        for entry in clauses {
            if let Rest::One(lit) = rest_of(&set, entry.lits()) {
                if !has(&set, lit) {
                    put(&mut set, lit);
                    grew = true;
                }
            }
        }
        if !grew {
            break;
        }
    }
    Ok(set)
}

// Whether unit propagation from the opposites of a clause opposes each literal of some clause.
fn is_shown(alloc: Global, size: usize, clauses: &[LogEntry], lits: &[Lit]) -> Mem<bool> {
    let set = forced(alloc, size, clauses, lits, None)?;
    Ok(clauses.iter().any(|entry| matches!(rest_of(&set, entry.lits()), Rest::Nothing)))
}

// Whether unit propagation from the opposites of the other literals gives neither the literal nor two opposite ones.
fn is_new_by(
    alloc: Global,
    size: usize,
    clauses: &[LogEntry],
    lits: &[Lit],
    lit: Lit,
) -> Mem<bool> {
    let set = forced(alloc, size, clauses, lits, Some(lit))?;
    let apart = (0..size).all(|number| {
        let one = Lit(number as u64);
        !has(&set, one) || !has(&set, one.opposite())
    });
    Ok(apart && !has(&set, lit))
}

fn fault_of(alloc: Global, size: usize, before: &[LogEntry], lits: &[Lit]) -> Mem<&'static str> {
    let mut new = false;
    for lit in lits {
        if lits.contains(&lit.opposite()) {
            return Ok("two opposite literals");
        }
        if lit.0 >= size as u64 {
            return Ok("another variable");
        }
        new = new || is_new_by(alloc, size, before, lits, *lit)?;
    }
    if !new {
        Ok("not new")
    } else if !is_shown(alloc, size, before, lits)? {
        Ok("not shown")
    } else {
        Ok("good")
    }
}

/// The first fault of a log, or `good`.
pub(crate) fn judged(
    alloc: Global,
    variables: u64,
    solver: &Solver,
    unsat: bool,
) -> Mem<&'static str> {
    let size = variables.saturating_mul(2) as usize;
    let entries = solver.log().entries.as_slice();
    for (place, entry) in entries.iter().enumerate() {
        if entry.is_learned() {
            let fault = fault_of(alloc, size, &entries[..place], entry.lits())?;
            if fault != "good" {
                return Ok(fault);
            }
        }
    }
    if unsat && !is_shown(alloc, size, entries, &[])? {
        return Ok("not refuted");
    }
    Ok("good")
}
