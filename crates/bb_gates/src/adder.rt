// The two bits of a sum of three.
ghost use Rattle.std.specs.Prelude.{◌≡◌, [], ◌∷◌, IfOk};
ghost use Rattle.cn_clauses.specs.Extension.{IsGate};
ghost use Rattle.bb_gates.specs.Values.{parity, majority, of_three};
ghost use Rattle.bb_gates.specs.Growth.{AreOf, IsConservative, Adds, SomeAreRelated};

use crate::pairs::{and, or, xor};
use crate::signs::opposed;
use crate::table::{Operands, Row, define};
use crate::triple::{constant_among, pair_among};
use cn_clauses::{Formula, Lit, extension_laws};
use jv_list::Mem;
use std::alloc::Global;

#[rattlefmt::skip]
const PARITY: [Row; 8] = [
    Row(false, Some(true), Some(true), Some(true)),
    Row(true, Some(false), Some(true), Some(true)),
    Row(true, Some(true), Some(false), Some(true)),
    Row(true, Some(true), Some(true), Some(false)),
    Row(false, Some(false), Some(false), Some(true)),
    Row(false, Some(false), Some(true), Some(false)),
    Row(false, Some(true), Some(false), Some(false)),
    Row(true, Some(false), Some(false), Some(false)),
];

#[rattlefmt::skip]
const MAJORITY: [Row; 6] = [
    Row(true, Some(false), Some(false), None),
    Row(true, Some(false), None, Some(false)),
    Row(true, None, Some(false), Some(false)),
    Row(false, Some(true), Some(true), None),
    Row(false, Some(true), None, Some(true)),
    Row(false, None, Some(true), Some(true)),
];

/// A literal that is true exactly where an odd number of the three is.
pub fn sum_bit(alloc: Global, formula: &mut Formula, a: Lit, b: Lit, c: Lit) -> Mem<Lit>
    requires { AreOf formula.old (a ∷ b ∷ c ∷ []) }
    ensures gate { IfOk result (λ lit. IsGate formula.old formula.new lit (of_three parity a b c)) }
    ensures keeps { IsConservative formula.old formula.new }
    ensures size { Adds 1 8 formula.old formula.new }
    ensures folds { SomeAreRelated a b c → formula.new ≡ formula.old }
{
    extension_laws();
    if let Some(pair) = pair_among(a, b, c) {
        return Ok(if pair.equal {
            pair.other
        } else {
            opposed(pair.other)
        });
    }
    let Some(rest) = constant_among(formula, a, b, c) else {
        return define(alloc, formula, Operands(a, b, c), &PARITY);
    };
    let sum = xor(alloc, formula, rest.x, rest.y)?;
    Ok(if rest.value { opposed(sum) } else { sum })
}

/// A literal that is true exactly where two of the three are, or all.
pub fn carry_bit(alloc: Global, formula: &mut Formula, a: Lit, b: Lit, c: Lit) -> Mem<Lit>
    requires { AreOf formula.old (a ∷ b ∷ c ∷ []) }
    ensures gate { IfOk result (λ lit. IsGate formula.old formula.new lit (of_three majority a b c)) }
    ensures keeps { IsConservative formula.old formula.new }
    ensures size { Adds 1 6 formula.old formula.new }
    ensures folds { SomeAreRelated a b c → formula.new ≡ formula.old }
{
    extension_laws();
    if let Some(pair) = pair_among(a, b, c) {
        return Ok(if pair.equal { pair.one } else { pair.other });
    }
    match constant_among(formula, a, b, c) {
        None => define(alloc, formula, Operands(a, b, c), &MAJORITY),
        Some(rest) => {
            if rest.value {
                or(alloc, formula, rest.x, rest.y)
            } else {
                and(alloc, formula, rest.x, rest.y)
            }
        }
    }
}
