// Literals, and small formulas whose assignments were worked out by hand.
use cn_clauses::{
    Assignment, Clause, Formula, Lit, extension_laws, holds, input_laws, literal_laws,
    propagation_laws, value_laws,
};
use jv_list::{List, TryCopy};
use std::process::Abort;

// The numbers of the literals x, y, z and of their opposites.
const X: u64 = 0;

const Y: u64 = 2;

const Z: u64 = 4;

const NOT_X: u64 = 1;

const NOT_Y: u64 = 3;

const NOT_Z: u64 = 5;

#[rattlefmt::skip]
const EIGHT_CLAUSES: [[u64; 3]; 8] = [
    [X, Y, Z],
    [NOT_X, Y, Z],
    [X, NOT_Y, Z],
    [NOT_X, NOT_Y, Z],
    [X, Y, NOT_Z],
    [NOT_X, Y, NOT_Z],
    [X, NOT_Y, NOT_Z],
    [NOT_X, NOT_Y, NOT_Z],
];

/// A formula of three variables.
fn three_variables<R: Abort + AllocGlobal>(rt: &R, rows: &[[u64; 3]]) -> Formula {
    let alloc = rt.alloc();
    let mut formula = Formula::new(alloc);
    for _ in 0..3 {
        formula.fresh().expect(rt, "memory");
    }
    for [a, b, c] in rows {
        let lits = [Lit(*a), Lit(*b), Lit(*c)];
        assert!(rt; formula.covers(&lits));
        formula.push_lits(alloc, &lits).expect(rt, "memory");
    }
    formula
}

fn holds_at<R: Abort + AllocGlobal>(rt: &R, formula: &Formula, values: &[bool]) -> bool {
    let values = Vec::from_slice(rt.alloc(), values).expect(rt, "memory");
    let a = Assignment {
        values: List::from_vec(values),
    };
    assert!(rt; a.values.length() == formula.variables.length());
    holds(formula, &a)
}

// x, y and z; whether the first seven clauses hold; whether all eight do
#[rattlefmt::skip]
const ASSIGNMENTS: [([bool; 3], bool, bool); 8] = [
    ([false, false, false], false, false),
    ([false, false, true], false, false),
    ([false, true, false], false, false),
    ([false, true, true], false, false),
    ([true, false, false], false, false),
    ([true, false, true], false, false),
    ([true, true, false], false, false),
    ([true, true, true], true, false),
];

#[test]
fn seven_of_eight_clauses_hold_at_one_assignment(rt: HostRuntime) {
    let seven = three_variables(&rt, &EIGHT_CLAUSES[..7]);
    let eight = three_variables(&rt, &EIGHT_CLAUSES);
    for (values, of_seven, of_eight) in ASSIGNMENTS {
        assert_eq!(rt; holds_at(&rt, &seven, &values), of_seven);
        assert_eq!(rt; holds_at(&rt, &eight, &values), of_eight);
    }
}

// The number of a literal, its variable, whether it is negated, and the number of its opposite.
#[rattlefmt::skip]
const LITERALS: [(u64, u64, bool, u64); 4] = [
    (0, 0, false, 1),
    (1, 0, true, 0),
    (6, 3, false, 7),
    (u64::MAX, u64::MAX / 2, true, u64::MAX - 1),
];

#[test]
fn a_literal_is_a_variable_and_a_sign(rt: HostRuntime) {
    literal_laws();
    propagation_laws();
    extension_laws();
    value_laws();
    input_laws();
    for (number, variable, negated, opposite) in LITERALS {
        let lit = Lit(number).copy(rt.alloc()).expect(&rt, "memory");
        assert_eq!(rt; lit.variable(), variable);
        assert_eq!(rt; lit.is_negated(), negated);
        assert_eq!(rt; lit.opposite(), Lit(opposite));
    }
    assert_eq!(rt; Lit::new(3, true), Lit(7));
}

#[test]
fn the_true_literal_is_made_once(rt: HostRuntime) {
    let alloc = rt.alloc();
    let mut formula = Formula::new(alloc);
    let input = formula.fresh().expect(&rt, "memory");
    assert_eq!(rt; formula.known(), None);
    assert_eq!(rt; formula.constant(input), None);
    let truth = formula.truth(alloc).expect(&rt, "memory");
    assert_eq!(rt; formula.truth(alloc).expect(&rt, "memory"), truth);
    assert_eq!(rt; formula.known(), Some(truth));
    assert_eq!(rt; formula.constant(truth), Some(true));
    assert_eq!(rt; formula.constant(truth.opposite()), Some(false));
    assert_eq!(rt; formula.constant(input), None);
    assert_eq!(rt; formula.variables.length(), 2);
    assert_eq!(rt; formula.clauses.length(), 1);
    assert!(rt; holds_at(&rt, &formula, &[false, true]));
    assert!(rt; !holds_at(&rt, &formula, &[false, false]));
}

#[test]
fn a_formula_takes_65536_variables_and_clauses(rt: HostRuntime) {
    let alloc = rt.alloc();
    let mut formula = Formula::new(alloc);
    for _ in 0..65536_u32 {
        let lit = formula.fresh().expect(&rt, "memory");
        let clause = Clause {
            lits: List::from_vec(Vec::from_slice(alloc, &[lit]).expect(&rt, "memory")),
        };
        let copy = clause.copy(alloc).expect(&rt, "memory");
        assert!(rt; formula.covers(copy.lits.as_slice()));
        assert!(rt; formula.push(copy).is_ok());
    }
    let pair: [&[Lit]; 2] = [&[Lit(X)], &[Lit(NOT_Y), Lit(NOT_X)]];
    assert!(rt; formula.covers(pair[0]) && formula.covers(pair[1]));
    formula.push_all(alloc, &pair).expect(&rt, "memory");
    assert_eq!(rt; formula.variables.length(), 65536);
    assert_eq!(rt; formula.clauses.length(), 65538);
}
