// The order of words.
ghost use Rattle.std.specs.Prelude.{◌≡◌, ◌+◌, ◌*◌, IfOk, nat_lt, int_lt};
ghost use Rattle.cn_clauses.specs.Extension.{IsGate};
ghost use Rattle.bb_gates.specs.Growth.{AreOf, IsConservative, Adds};
ghost use Rattle.bb_arith.specs.Words.{number_of, signed_of};

use bb_gates::{carry_bit, constant_lit, growth_laws};
use cn_clauses::{Formula, Lit, extension_laws, literal_laws};
use jv_list::Mem;
use std::alloc::Global;

/// A literal that is true exactly where the number of `a` is less than that of `b`, both without a sign.
pub fn below<const W: usize>(
    alloc: Global,
    formula: &mut Formula,
    a: &[Lit; W],
    b: &[Lit; W],
) -> Mem<Lit>
    requires first { AreOf formula.old a.now }
    requires second { AreOf formula.old b.now }
    ensures gate { IfOk result (λ lit. IsGate formula.old formula.new lit (λ w. nat_lt (number_of w a.now) (number_of w b.now))) }
    ensures keeps { IsConservative formula.old formula.new }
    ensures size { Adds (W + 1) (6 * W + 1) formula.old formula.new }
{
    literal_laws();
    extension_laws();
    growth_laws();
    let mut less = constant_lit(alloc, formula, false)?;
    for i in 0..W {
        less = carry_bit(alloc, formula, a[i].opposite(), b[i], less)?;
    }
    Ok(less)
}

/// A literal that is true exactly where the number of `a` is less than that of `b`, both in two's complement.
pub fn less<const W: usize>(
    alloc: Global,
    formula: &mut Formula,
    a: &[Lit; W],
    b: &[Lit; W],
) -> Mem<Lit>
    requires first { AreOf formula.old a.now }
    requires second { AreOf formula.old b.now }
    ensures gate { IfOk result (λ lit. IsGate formula.old formula.new lit (λ w. int_lt (signed_of w a.now) (signed_of w b.now))) }
    ensures keeps { IsConservative formula.old formula.new }
    ensures size { Adds (W + 1) (6 * W + 1) formula.old formula.new }
{
    let mut x = *a;
    let mut y = *b;
    if W > 0 {
        x[W - 1] = b[W - 1];
        y[W - 1] = a[W - 1];
    }
    below(alloc, formula, &x, &y)
}
