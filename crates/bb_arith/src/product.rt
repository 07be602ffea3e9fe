// Products of words.
ghost use Rattle.std.specs.Prelude.{◌≡◌, ◌+◌, ◌*◌, ◌%◌, ◌^◌, IfOk};
ghost use Rattle.bb_gates.specs.Growth.{AreOf, IsConservative, Adds};
ghost use Rattle.bb_arith.specs.Words.{number_of, IsWordGate};

use crate::choice::choose;
use crate::places::moved_up;
use crate::sum::add;
use bb_gates::{constant_lit, growth_laws};
use cn_clauses::{Formula, Lit, extension_laws, value_laws};
use jv_list::Mem;
use std::alloc::Global;

/// The product of two words, modulo 2 to the power W.
pub fn mul<const W: usize>(
    alloc: Global,
    formula: &mut Formula,
    a: &[Lit; W],
    b: &[Lit; W],
) -> Mem<[Lit; W]>
    requires first { AreOf formula.old a.now }
    requires second { AreOf formula.old b.now }
    ensures gate { IfOk result (λ lits. IsWordGate formula.old formula.new lits (λ w. (number_of w a.now * number_of w b.now) % 2 ^ W)) }
    ensures keeps { IsConservative formula.old formula.new }
    ensures size { Adds (W * (3 * W + 1) + 1) (W * (18 * W + 1) + 1) formula.old formula.new }
{
    extension_laws();
    value_laws();
    growth_laws();
    let zero = constant_lit(alloc, formula, false)?;
    let none = [zero; W];
    let mut product = none;
    for i in 0..W {
        let moved = moved_up(a, i, zero);
        let row = choose(alloc, formula, b[i], &moved, &none)?;
        product = add(alloc, formula, &product, &row)?;
    }
    Ok(product)
}
