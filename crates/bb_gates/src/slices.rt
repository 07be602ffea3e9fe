// Gates of as many operands as there are.
ghost use Rattle.std.specs.Prelude.{◌≡◌, ◌+◌, ◌*◌, length, IfOk, true, false};
ghost use Rattle.cn_clauses.specs.Extension.{IsGate};
ghost use Rattle.bb_gates.specs.Values.{all_of, any_of};
ghost use Rattle.bb_gates.specs.Growth.{AreOf, IsConservative, Adds};
ghost use Rattle.bb_gates.specs.Calls.Chain.{all_signed};

use crate::constant::constant_lit;
use crate::pairs::and;
use crate::signs::{opposed, signed};
use cn_clauses::{Formula, Lit, extension_laws, literal_laws};
use jv_list::Mem;
use std::alloc::Global;

// The conjunction of the literals, each as it is or opposed.
fn chain(alloc: Global, formula: &mut Formula, lits: &[Lit], sign: bool) -> Mem<Lit>
    requires { AreOf formula.old lits.now }
    ensures gate { IfOk result (λ lit. IsGate formula.old formula.new lit (all_signed sign lits.now)) }
    ensures keeps { IsConservative formula.old formula.new }
    ensures size { Adds (length lits.now + 1) (3 * length lits.now + 1) formula.old formula.new }
{
    literal_laws();
    extension_laws();
    let Some((first, rest)) = lits.split_first() else {
        return constant_lit(alloc, formula, true);
    };
    let mut result = signed(*first, sign);
    for lit in rest {
        result = and(alloc, formula, result, signed(*lit, sign))?;
    }
    Ok(result)
}

/// A literal that is true exactly where each of them is.
pub fn conjunction(alloc: Global, formula: &mut Formula, lits: &[Lit]) -> Mem<Lit>
    requires { AreOf formula.old lits.now }
    ensures gate { IfOk result (λ lit. IsGate formula.old formula.new lit (all_of lits.now)) }
    ensures keeps { IsConservative formula.old formula.new }
    ensures size { Adds (length lits.now + 1) (3 * length lits.now + 1) formula.old formula.new }
{
    chain(alloc, formula, lits, true)
}

/// A literal that is true exactly where one of them is, or more.
pub fn disjunction(alloc: Global, formula: &mut Formula, lits: &[Lit]) -> Mem<Lit>
    requires { AreOf formula.old lits.now }
    ensures gate { IfOk result (λ lit. IsGate formula.old formula.new lit (any_of lits.now)) }
    ensures keeps { IsConservative formula.old formula.new }
    ensures size { Adds (length lits.now + 1) (3 * length lits.now + 1) formula.old formula.new }
{
    literal_laws();
    Ok(opposed(chain(alloc, formula, lits, false)?))
}
