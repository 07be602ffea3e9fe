// Operations on the bits of two words.
ghost use Rattle.std.specs.Prelude.{◌≡◌, ◌==◌, [], ◌∷◌, length, IfOk};
ghost use Rattle.cn_clauses.specs.Extension.{IsGate};
ghost use Rattle.bb_gates.specs.Growth.{AreOf, IsConservative};
ghost use Rattle.bb_gates.specs.Values.{of_two};
ghost use Rattle.bb_arith.specs.Words.{number_of};
ghost use Rattle.bb_terms.specs.Calls.Words.{IsWord, joined_bits, bits_number};

use bb_gates::{and, disjunction, growth_laws, or, xor};
use cn_clauses::{Formula, Lit, extension_laws, literal_laws};
use jv_list::{List, Mem};
use std::alloc::Global;

#[derive(Clone, Copy)]
pub(crate) enum BitOp {
    And,
    Or,
    Xor,
}

// A gate over two literals.
pub(crate) fn joined(alloc: Global, formula: &mut Formula, kind: BitOp, a: Lit, b: Lit) -> Mem<Lit>
    requires { AreOf formula.old (a ∷ b ∷ []) }
    ensures gate { IfOk result (λ lit. IsGate formula.old formula.new lit (of_two (joined_bits kind) a b)) }
    ensures keeps { IsConservative formula.old formula.new }
{
    match kind {
        BitOp::And => and(alloc, formula, a, b),
        BitOp::Or => or(alloc, formula, a, b),
        BitOp::Xor => xor(alloc, formula, a, b),
    }
}

// A gate over each two bits.
pub(crate) fn bitwise(
    alloc: Global,
    formula: &mut Formula,
    kind: BitOp,
    a: &[Lit],
    b: &[Lit],
) -> Mem<List<Lit>>
    requires even { length b.now ≡ length a.now }
    requires first { AreOf formula.old a.now }
    requires second { AreOf formula.old b.now }
    ensures gate { IfOk result (λ lits. IsWord (length a.now) formula.old formula.new lits (λ w. bits_number kind (number_of w a.now) (number_of w b.now))) }
    ensures keeps { IsConservative formula.old formula.new }
{
    extension_laws();
    growth_laws();
    let mut lits = List::new(alloc);
    for i in 0..a.len() {
        let lit = joined(alloc, formula, kind, a[i], b[i])?;
        lits.add(lit)?;
    }
    Ok(lits)
}

// A literal that is true exactly where two words are the same.
pub(crate) fn equal(alloc: Global, formula: &mut Formula, a: &[Lit], b: &[Lit]) -> Mem<Lit>
    requires even { length b.now ≡ length a.now }
    requires first { AreOf formula.old a.now }
    requires second { AreOf formula.old b.now }
    ensures gate { IfOk result (λ lit. IsGate formula.old formula.new lit (λ w. number_of w a.now == number_of w b.now)) }
    ensures keeps { IsConservative formula.old formula.new }
{
    literal_laws();
    extension_laws();
    growth_laws();
    let differences = bitwise(alloc, formula, BitOp::Xor, a, b)?;
    let some = disjunction(alloc, formula, differences.as_slice())?;
    Ok(some.opposite())
}
