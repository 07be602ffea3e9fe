// Each gate over each three of eight literals, at each assignment, against its truth table.
use crate::extension::{extended, value_of};
use bb_gates::{
    and, carry_bit, conjunction, constant_lit, disjunction, growth_laws, mux, or, sum_bit, xor,
};
use cn_clauses::{Formula, Lit};
use jv_list::List;
use std::process::Abort;

#[derive(Clone, Copy, Debug, PartialEq, Eq)]
enum Gate {
    And,
    Or,
    Xor,
    Mux,
    Sum,
    Carry,
    All,
    Any,
}

// A gate; its values where z, y and x count up in binary, x the fastest; the variables and the clauses that it adds
// over free operands. Gates of two operands are over x and y, and x is the choice of the others.
#[rattlefmt::skip]
const GATES: [(Gate, [u8; 8], usize, usize); 8] = [
    (Gate::And, [0, 0, 0, 1, 0, 0, 0, 1], 1, 3),
    (Gate::Or, [0, 1, 1, 1, 0, 1, 1, 1], 1, 3),
    (Gate::Xor, [0, 1, 1, 0, 0, 1, 1, 0], 1, 4),
    (Gate::Mux, [0, 0, 0, 1, 1, 0, 1, 1], 1, 4),
    (Gate::Sum, [0, 1, 1, 0, 1, 0, 0, 1], 1, 8),
    (Gate::Carry, [0, 0, 0, 1, 0, 1, 1, 1], 1, 6),
    (Gate::All, [0, 0, 0, 0, 0, 0, 0, 1], 2, 6),
    (Gate::Any, [0, 1, 1, 1, 1, 1, 1, 1], 2, 6),
];

fn make<R: Abort + AllocGlobal>(rt: &R, formula: &mut Formula, gate: Gate, lits: [Lit; 3]) -> Lit {
    let alloc = rt.alloc();
    let [a, b, c] = lits;
    assert!(rt; formula.covers(&[a, b, c]));
    let made = match gate {
        Gate::And => and(alloc, formula, a, b),
        Gate::Or => or(alloc, formula, a, b),
        Gate::Xor => xor(alloc, formula, a, b),
        Gate::Mux => mux(alloc, formula, a, b, c),
        Gate::Sum => sum_bit(alloc, formula, a, b, c),
        Gate::Carry => carry_bit(alloc, formula, a, b, c),
        Gate::All => conjunction(alloc, formula, &[a, b, c]),
        Gate::Any => disjunction(alloc, formula, &[a, b, c]),
    };
    made.expect(rt, "memory")
}

/// A formula with three inputs and its true literal, and these with their opposites.
fn inputs<R: Abort + AllocGlobal>(rt: &R) -> (Formula, [Lit; 8]) {
    let alloc = rt.alloc();
    let mut formula = Formula::new(alloc);
    let x = formula.fresh().expect(rt, "memory");
    let y = formula.fresh().expect(rt, "memory");
    let z = formula.fresh().expect(rt, "memory");
    let truth = formula.truth(alloc).expect(rt, "memory");
    let lits = [
        x,
        x.opposite(),
        y,
        y.opposite(),
        z,
        z.opposite(),
        truth,
        truth.opposite(),
    ];
    (formula, lits)
}

// The gate's literal has its value at each value of the three inputs.
fn has_values<R: Abort + AllocGlobal>(rt: &R, gate: Gate, values: [u8; 8], lits: [Lit; 3]) {
    let (mut formula, _) = inputs(rt);
    let made = make(rt, &mut formula, gate, lits);
    for x in [false, true] {
        for y in [false, true] {
            for z in [false, true] {
                let given = Vec::from_slice(rt.alloc(), &[x, y, z]).expect(rt, "memory");
                let a = extended(rt, &formula, List::from_vec(given));
                let row = u8::from(value_of(rt, &a, lits[0]))
                    + 2 * u8::from(value_of(rt, &a, lits[1]))
                    + 4 * u8::from(value_of(rt, &a, lits[2]));
                let value = values.get(row as usize).expect(rt, "a row");
                assert!(rt;
                    value_of(rt, &a, made) == (*value == 1),
                    "{gate:?} {lits:?}"
                );
            }
        }
    }
}

#[test]
fn each_gate_has_the_values_of_its_table(rt: HostRuntime) {
    for (gate, values, _, _) in GATES {
        let (_, lits) = inputs(&rt);
        for a in lits {
            for b in lits {
                for c in lits {
                    has_values(&rt, gate, values, [a, b, c]);
                }
            }
        }
    }
}

#[test]
fn a_gate_over_free_operands_has_its_size(rt: HostRuntime) {
    for (gate, _, variables, clauses) in GATES {
        let (mut formula, lits) = inputs(&rt);
        make(&rt, &mut formula, gate, [lits[0], lits[3], lits[4]]);
        assert!(rt; formula.variables.length() == 4 + variables, "{gate:?}");
        assert!(rt; formula.clauses.length() == 1 + clauses, "{gate:?}");
    }
}

#[test]
fn a_constant_is_made_once(rt: HostRuntime) {
    let alloc = rt.alloc();
    growth_laws();
    let mut formula = Formula::new(alloc);
    let truth = constant_lit(alloc, &mut formula, true).expect(&rt, "memory");
    let untrue = constant_lit(alloc, &mut formula, false).expect(&rt, "memory");
    let all = conjunction(alloc, &mut formula, &[]).expect(&rt, "memory");
    let any = disjunction(alloc, &mut formula, &[]).expect(&rt, "memory");
    assert!(rt; all == truth && any == untrue && untrue == truth.opposite());
    assert!(rt; formula.variables.length() == 1 && formula.clauses.length() == 1);
}
