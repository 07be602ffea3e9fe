// Formulas, written out in the manner of DIMACS or made by a rule.
use cn_clauses::{Clause, Formula, Lit};
use jv_list::{List, Mem};
use std::alloc::Global;

// The literal of a variable, by its number from 0 on.
fn variable(number: u16) -> Lit {
    Lit::new(u64::from(number), false)
}

/// A literal: the number of a variable from 1 on, or its opposite.
pub(crate) fn lit(number: i16) -> Lit {
    let variable = number.unsigned_abs().saturating_sub(1);
    Lit::new(u64::from(variable), number < 0)
}

/// The clause of the numbers of a text.
pub(crate) fn clause(alloc: Global, text: &str) -> Mem<Clause> {
    let mut lits = List::new(alloc);
    for word in text.split_whitespace() {
        if let Ok(number) = word.parse::<i16>() {
            lits.add(lit(number))?;
        }
    }
    Ok(Clause { lits })
}

fn over(alloc: Global, variables: u16) -> Mem<Formula> {
    let mut formula = Formula::new(alloc);
    for _ in 0..variables {
        formula.fresh()?;
    }
    Ok(formula)
}

fn push(alloc: Global, formula: &mut Formula, lits: &[Lit]) -> Mem<()> {
    if formula.covers(lits) {
        formula.push_lits(alloc, lits)?;
    }
    Ok(())
}

/// The formula of clauses with commas between them, or of none.
pub(crate) fn written(alloc: Global, variables: u16, clauses: &str) -> Mem<Formula> {
    let mut formula = over(alloc, variables)?;
    if clauses != "none" {
        for text in clauses.split(',') {
            let clause = clause(alloc, text)?;
            push(alloc, &mut formula, clause.lits.as_slice())?;
        }
    }
    Ok(formula)
}

// That a pigeon has a hole, for eight of each.
fn sits(pigeon: u16, hole: u16) -> Lit {
    variable(pigeon % 8 * 8 + hole % 8)
}

/// Each of the pigeons has a hole, and no two have one.
pub(crate) fn pigeons(alloc: Global, pigeons: u16, holes: u16) -> Mem<Formula> {
    let mut formula = over(alloc, 64)?;
    for pigeon in 0..pigeons {
        let mut lits = List::new(alloc);
        for hole in 0..holes {
            lits.add(sits(pigeon, hole))?;
        }
        push(alloc, &mut formula, lits.as_slice())?;
    }
    for hole in 0..holes {
        for first in 0..pigeons {
            for second in 0..first {
                let pair = [sits(first, hole).opposite(), sits(second, hole).opposite()];
                push(alloc, &mut formula, &pair)?;
            }
        }
    }
    Ok(formula)
}

// Clauses for which the third is true exactly where one of the others is, and not both.
fn parity(alloc: Global, formula: &mut Formula, a: Lit, b: Lit, c: Lit) -> Mem<()> {
    push(alloc, formula, &[a, b, c.opposite()])?;
    push(alloc, formula, &[a, b.opposite(), c])?;
    push(alloc, formula, &[a.opposite(), b, c])?;
    push(alloc, formula, &[a.opposite(), b.opposite(), c.opposite()])
}

// Clauses for which two literals are equal.
fn equality(alloc: Global, formula: &mut Formula, a: Lit, b: Lit) -> Mem<()> {
    push(alloc, formula, &[a, b.opposite()])?;
    push(alloc, formula, &[a.opposite(), b])
}

/// Two chains of the parities of so many variables, from the first to the last and back; they are equal, or they differ.
pub(crate) fn chains(alloc: Global, length: u16, differ: bool) -> Mem<Formula> {
    let length = length.min(60);
    let mut formula = over(alloc, 192)?;
    // the chains begin with the first variable and with the last
    equality(alloc, &mut formula, variable(64), variable(0))?;
    equality(
        alloc,
        &mut formula,
        variable(128),
        variable(length.saturating_sub(1)),
    )?;
    for place in 1..length {
        let (there, back) = (variable(place + 63), variable(place + 127));
        let last = variable((length - place).saturating_sub(1));
        parity(
            alloc,
            &mut formula,
            there,
            variable(place),
            variable(place + 64),
        )?;
        parity(alloc, &mut formula, back, last, variable(place + 128))?;
    }
    let (there, back) = (variable(length + 63), variable(length + 127));
    equality(
        alloc,
        &mut formula,
        there,
        if differ { back.opposite() } else { back },
    )?;
    Ok(formula)
}

/// Clauses of three literals, as a linear congruence draws them.
pub(crate) fn drawn(alloc: Global, variables: u16, clauses: u16, seed: u64) -> Mem<Formula> {
    let mut formula = over(alloc, variables)?;
    let mut state = seed;
    for _ in 0..clauses {
        let mut lits = List::new(alloc);
        for _ in 0..3 {
            state = state
                .wrapping_mul(6364136223846793005)
                .wrapping_add(1442695040888963407);
            let drawn = state >> 33;
            lits.add(Lit::new(drawn / 2 % u64::from(variables.max(1)), drawn % 2 == 1))?;
        }
        push(alloc, &mut formula, lits.as_slice())?;
    }
    Ok(formula)
}

/// Those of the 26 clauses over three variables that a mask picks. The digits of a clause's number in base 3 say whether it
/// has the variable, its opposite, or neither.
pub(crate) fn picked(alloc: Global, mask: u32) -> Mem<Formula> {
    let mut formula = over(alloc, 3)?;
    for number in 1..27u8 {
        if mask >> (number - 1) & 1 == 1 {
            let mut lits = List::new(alloc);
            for (variable, digit) in [(1, number % 3), (2, number / 3 % 3), (3, number / 9)] {
                match digit {
                    1 => lits.add(lit(variable))?,
                    2 => lits.add(lit(-variable))?,
                    _ => {}
                }
            }
            push(alloc, &mut formula, lits.as_slice())?;
        }
    }
    Ok(formula)
}

/// Whether one of the eight assignments to three variables makes each of the clauses true that a mask picks.
pub(crate) fn has_assignment(mask: u32) -> bool {
    (0..8u8).any(|a| {
        (1..27u8).all(|number| {
            let digits = [number % 3, number / 3 % 3, number / 9];
            mask >> (number - 1) & 1 == 0
                || digits[0] == 2 - a % 2
                || digits[1] == 2 - a / 2 % 2
                || digits[2] == 2 - a / 4
        })
    })
}
