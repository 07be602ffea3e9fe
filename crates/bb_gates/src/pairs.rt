// Gates of two operands.
ghost use Rattle.std.specs.Prelude.{◌≡◌, [], ◌∷◌, IfOk};
ghost use Rattle.cn_clauses.specs.Extension.{IsGate};
ghost use Rattle.bb_gates.specs.Values.{both, either, differ, of_two};
ghost use Rattle.bb_gates.specs.Growth.{AreOf, IsConservative, Adds, AreFolded, AddsNoGate};

use crate::constant::constant_lit;
use crate::relation::{Relation, relation_of};
use crate::signs::opposed;
use crate::table::{Operands, Row, define};
use cn_clauses::{Formula, Lit, extension_laws, literal_laws};
use jv_list::Mem;
use std::alloc::Global;

#[rattlefmt::skip]
const AND: [Row; 3] = [
    Row(false, Some(true), None, None),
    Row(false, None, Some(true), None),
    Row(true, Some(false), Some(false), None),
];

#[rattlefmt::skip]
const XOR: [Row; 4] = [
    Row(false, Some(true), Some(true), None),
    Row(false, Some(false), Some(false), None),
    Row(true, Some(false), Some(true), None),
    Row(true, Some(true), Some(false), None),
];

/// A literal that is true exactly where both are.
pub fn and(alloc: Global, formula: &mut Formula, a: Lit, b: Lit) -> Mem<Lit>
    requires { AreOf formula.old (a ∷ b ∷ []) }
    ensures gate { IfOk result (λ lit. IsGate formula.old formula.new lit (of_two both a b)) }
    ensures keeps { IsConservative formula.old formula.new }
    ensures size { Adds 1 3 formula.old formula.new }
    ensures folds { AreFolded formula.old a b → AddsNoGate formula.old formula.new }
{
    extension_laws();
    match relation_of(formula, a, b) {
        Relation::Opposite => constant_lit(alloc, formula, false),
        Relation::Equal | Relation::FirstIs(false) | Relation::SecondIs(true) => Ok(a),
        Relation::FirstIs(true) | Relation::SecondIs(false) => Ok(b),
        Relation::Free => define(alloc, formula, Operands(a, b, b), &AND),
    }
}

/// A literal that is true exactly where one of them is, or both are.
pub fn or(alloc: Global, formula: &mut Formula, a: Lit, b: Lit) -> Mem<Lit>
    requires { AreOf formula.old (a ∷ b ∷ []) }
    ensures gate { IfOk result (λ lit. IsGate formula.old formula.new lit (of_two either a b)) }
    ensures keeps { IsConservative formula.old formula.new }
    ensures size { Adds 1 3 formula.old formula.new }
    ensures folds { AreFolded formula.old a b → AddsNoGate formula.old formula.new }
{
    literal_laws();
    Ok(opposed(and(alloc, formula, opposed(a), opposed(b))?))
}

/// A literal that is true exactly where one of them is and the other is not.
pub fn xor(alloc: Global, formula: &mut Formula, a: Lit, b: Lit) -> Mem<Lit>
    requires { AreOf formula.old (a ∷ b ∷ []) }
    ensures gate { IfOk result (λ lit. IsGate formula.old formula.new lit (of_two differ a b)) }
    ensures keeps { IsConservative formula.old formula.new }
    ensures size { Adds 1 4 formula.old formula.new }
    ensures folds { AreFolded formula.old a b → AddsNoGate formula.old formula.new }
{
    extension_laws();
    match relation_of(formula, a, b) {
        Relation::Equal => constant_lit(alloc, formula, false),
        Relation::Opposite => constant_lit(alloc, formula, true),
        Relation::FirstIs(false) => Ok(b),
        Relation::FirstIs(true) => Ok(opposed(b)),
        Relation::SecondIs(false) => Ok(a),
        Relation::SecondIs(true) => Ok(opposed(a)),
        Relation::Free => define(alloc, formula, Operands(a, b, b), &XOR),
    }
}
