// Three operands of which two are equal or opposite, or one is a constant.
ghost use Rattle.std.specs.Prelude.{◌≡◌, IfSome, IfNone};
ghost use Rattle.bb_gates.specs.Growth.{AreRelated, SomeAreRelated};
ghost use Rattle.bb_gates.specs.Calls.Triple.{IsPair, IsRest};

use crate::signs::opposed;
use cn_clauses::{Formula, Lit};

/// Two of three operands, equal or opposite: one of them, and the third operand.
#[derive(Clone, Copy)]
pub(crate) struct Pair {
    pub equal: bool,
    pub one: Lit,
    pub other: Lit,
}

/// The value of one of three operands, and the two others.
#[derive(Clone, Copy)]
pub(crate) struct Rest {
    pub value: bool,
    pub x: Lit,
    pub y: Lit,
}

fn pair_of(a: Lit, b: Lit, c: Lit) -> Option<Pair>
    ensures found { IfSome result (λ pair. IsPair a b c pair) }
    ensures none { IfNone result (AreRelated a b → ⊥) }
{
    let equal = a == b;
    if equal || a == opposed(b) {
        return Some(Pair {
            equal,
            one: a,
            other: c,
        });
    }
    None
}

pub fn pair_among(a: Lit, b: Lit, c: Lit) -> Option<Pair>
    ensures found { IfSome result (λ pair. IsPair a b c pair) }
    ensures none { IfNone result (SomeAreRelated a b c → ⊥) }
{
    if let Some(pair) = pair_of(a, b, c) {
        return Some(pair);
    }
    if let Some(pair) = pair_of(b, c, a) {
        return Some(pair);
    }
    pair_of(c, a, b)
}

pub fn constant_among(formula: &Formula, a: Lit, b: Lit, c: Lit) -> Option<Rest>
    ensures { IfSome result (λ rest. IsRest formula.now a b c rest) }
{
    if let Some(value) = formula.constant(a) {
        return Some(Rest { value, x: b, y: c });
    }
    if let Some(value) = formula.constant(b) {
        return Some(Rest { value, x: a, y: c });
    }
    let value = formula.constant(c)?;
    Some(Rest { value, x: a, y: b })
}
