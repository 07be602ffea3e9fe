// Literals.
ghost use Rattle.std.specs.Prelude.{◌≡◌, ◌+◌, ◌*◌, ◌^◌, ◌<◌};

use jv_list::TryCopy;
use std::alloc::{AllocError, Global};

/// A variable or its opposite: twice the variable, plus 1 where it is negated.
#[derive(Clone, Copy, Debug, PartialEq, Eq)]
pub struct Lit(pub u64);

impl TryCopy for Lit {
    fn copy(&self, _alloc: Global) -> Result<Lit, AllocError> {
        Ok(*self)
    }
}

impl Lit {
    ghost use Rattle.cn_clauses.specs.Literals.{literal, opposite_of, variable_of, is_negated};

    #[tactic(auto, unfolding(crate::specs::Literals::literal))]
    pub fn new(variable: u64, negated: bool) -> Lit
        requires { variable < 2 ^ 63 }
        ensures { result ≡ literal variable negated }
    {
        Lit(2 * variable + u64::from(negated))
    }

    #[tactic(auto, unfolding(crate::specs::Literals::variable_of))]
    pub fn variable(self) -> u64
        ensures { result ≡ variable_of self }
    {
        self.0 / 2
    }

    #[tactic(auto, unfolding(crate::specs::Literals::is_negated))]
    pub fn is_negated(self) -> bool
        ensures { result ≡ is_negated self }
    {
        self.0 % 2 == 1
    }

    #[tactic(auto, using(crate::proofs::LiteralLemmas::opposite_even, crate::proofs::LiteralLemmas::opposite_odd))]
    pub fn opposite(self) -> Lit
        ensures { result ≡ opposite_of self }
    {
        if self.0 % 2 == 0 {
            Lit(self.0 + 1)
        } else {
            Lit(self.0 - 1)
        }
    }
}
