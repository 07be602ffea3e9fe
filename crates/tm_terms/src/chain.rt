// Sums with constants of sums with constants.
ghost use Rattle.std.specs.Prelude.{◌≡◌, ◌<◌, length, IfSome};
ghost use Rattle.tm_terms.specs.declared.op.Op.TheVariants.{Add};
ghost use Rattle.tm_terms.specs.Terms.{Fits};
ghost use Rattle.tm_terms.specs.Rules.{IsPlus, IsMoreBy};

use crate::bank::Bank;
use crate::constant::constant_at;
use crate::numbers::sum;
use crate::op::{Op, TermId};

// What a term is the sum of: another one and a constant.
fn plus(bank: &Bank, a: TermId) -> Option<(TermId, u64)>
    requires { a.0 < length bank.now }
    ensures { IfSome result (λ r. IsPlus bank.now a r.0 r.1) }
{
    bank.laws();
    match *bank.op(a) {
        Op::Add(x, y) => match constant_at(bank, y) {
            Some(c) => Some((x, c)),
            None => match constant_at(bank, x) {
                Some(c) => Some((y, c)),
                None => None,
            },
        },
        _ => None,
    }
}

// What a sum with a constant of a sum with a constant is: a term and a number more.
pub(crate) fn more_by(bank: &Bank, a: TermId, b: TermId) -> Option<(TermId, u64)>
    requires { Fits bank.now (Add a b) }
    ensures { IfSome result (λ r. IsMoreBy bank.now (Add a b) r.0 r.1) }
{
    if let Some(d) = constant_at(bank, b) {
        let (x, c) = plus(bank, a)?;
        return Some((x, sum(bank.sort(x), c, d)));
    }
    if let Some(d) = constant_at(bank, a) {
        let (x, c) = plus(bank, b)?;
        return Some((x, sum(bank.sort(x), c, d)));
    }
    None
}
