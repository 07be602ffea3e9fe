// A choice between two literals.
ghost use Rattle.std.specs.Prelude.{◌≡◌, [], ◌∷◌, IfOk, IfSome};
ghost use Rattle.cn_clauses.specs.Extension.{IsGate};
ghost use Rattle.bb_gates.specs.Values.{chosen, of_three};
ghost use Rattle.bb_gates.specs.Growth.{AreOf, IsConservative, Adds, IsChoiceFolded};
ghost use Rattle.bb_gates.specs.Calls.Folding.{IsArm};

use crate::pairs::{and, or};
use crate::relation::{Relation, relation_of};
use crate::signs::opposed;
use crate::table::{Operands, Row, define};
use cn_clauses::{Formula, Lit, extension_laws, literal_laws};
use jv_list::Mem;
use std::alloc::Global;

// The operands are the choice and its two arms.
#[rattlefmt::skip]
const CHOICE: [Row; 4] = [
    Row(false, Some(false), Some(true), None),
    Row(true, Some(false), Some(false), None),
    Row(false, Some(true), None, Some(true)),
    Row(true, Some(true), None, Some(false)),
];

// The value that a literal has wherever the choice is true.
fn arm(formula: &Formula, choice: Lit, lit: Lit) -> Option<bool>
    ensures { IfSome result (λ value. IsArm formula.now choice lit value) }
{
    match relation_of(formula, choice, lit) {
        Relation::Equal => Some(true),
        Relation::Opposite => Some(false),
        Relation::SecondIs(value) => Some(value),
        Relation::FirstIs(_) | Relation::Free => None,
    }
}

fn mux_of_arms(alloc: Global, formula: &mut Formula, choice: Lit, a: Lit, b: Lit) -> Mem<Lit>
    requires { AreOf formula.old (choice ∷ a ∷ b ∷ []) }
    ensures gate { IfOk result (λ lit. IsGate formula.old formula.new lit (of_three chosen choice a b)) }
    ensures keeps { IsConservative formula.old formula.new }
    ensures size { Adds 1 4 formula.old formula.new }
{
    let unless = opposed(choice);
    match (arm(formula, choice, a), arm(formula, unless, b)) {
        (Some(true), _) => or(alloc, formula, choice, b),
        (Some(false), _) => and(alloc, formula, unless, b),
        (None, Some(true)) => or(alloc, formula, unless, a),
        (None, Some(false)) => and(alloc, formula, choice, a),
        (None, None) => define(alloc, formula, Operands(choice, a, b), &CHOICE),
    }
}

/// A literal that is `a` where the choice is true, and else `b`.
pub fn mux(alloc: Global, formula: &mut Formula, choice: Lit, a: Lit, b: Lit) -> Mem<Lit>
    requires { AreOf formula.old (choice ∷ a ∷ b ∷ []) }
    ensures gate { IfOk result (λ lit. IsGate formula.old formula.new lit (of_three chosen choice a b)) }
    ensures keeps { IsConservative formula.old formula.new }
    ensures size { Adds 1 4 formula.old formula.new }
    ensures folds { IsChoiceFolded formula.old choice a b → formula.new ≡ formula.old }
{
    literal_laws();
    extension_laws();
    if a == b {
        return Ok(a);
    }
    match formula.constant(choice) {
        Some(true) => Ok(a),
        Some(false) => Ok(b),
        None => mux_of_arms(alloc, formula, choice, a, b),
    }
}
