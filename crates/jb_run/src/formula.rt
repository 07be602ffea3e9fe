// A formula in conjunctive normal form over numbered variables.
ghost use Rattle.std.specs.Prelude.{◌≡◌, ◌+◌, [], ◌∷◌, ◌++◌, false, not, OnOk, OnErr, IfOk};
ghost use Rattle.jb_run.specs.Clauses.{clauses_of};

use jv_base::Mem;
use std::alloc::{AllocError, Global};

/// A variable, or its opposite.
#[derive(Clone, Copy, Debug, PartialEq, Eq)]
pub struct Lit {
    pub variable: usize,
    pub negated: bool,
}

impl Lit {
    pub fn opposite(self) -> Lit
        ensures { result ≡ record self { negated = not self.negated } }
    {
        Lit {
            variable: self.variable,
            negated: !self.negated,
        }
    }
}

/// A disjunction of literals.
#[derive(Debug, Drop)]
pub struct Clause {
    pub lits: Vec<Lit>,
}

/// A conjunction of clauses over the variables below `variables`.
#[derive(Debug, Drop)]
pub struct Formula {
    pub variables: usize,
    pub clauses: Vec<Clause>,
}

impl Formula {
    /// No variable and no clause. It takes no memory.
    pub fn new(alloc: Global) -> Formula
        ensures variables { result.variables ≡ 0 }
        ensures clauses { clauses_of result ≡ [] }
    {
        Formula {
            variables: 0,
            clauses: Vec::new(alloc),
        }
    }

    /// A new variable, not negated.
    pub fn fresh(&mut self) -> Mem<Lit>
        ensures lit { IfOk result (λ lit. lit ≡ record { variable = self.old.variables; negated = false }) }
        ensures variables { OnOk result (self.new.variables ≡ self.old.variables + 1) }
        ensures unchanged { OnErr result (self.new.variables ≡ self.old.variables) }
        ensures clauses { clauses_of self.new ≡ clauses_of self.old }
    {
        let variable = self.variables;
        let Some(more) = variable.checked_add(1) else {
            return Err(AllocError);
        };
        self.variables = more;
        Ok(Lit {
            variable,
            negated: false,
        })
    }

    /// Adds the clause of these literals.
    pub fn push(&mut self, alloc: Global, lits: &[Lit]) -> Mem<()>
        ensures ok { OnOk result (clauses_of self.new ≡ clauses_of self.old ++ lits.now ∷ []) }
        ensures unchanged { OnErr result (clauses_of self.new ≡ clauses_of self.old) }
        ensures variables { self.new.variables ≡ self.old.variables }
    {
        let clause = Clause {
            lits: Vec::from_slice(alloc, lits)?,
        };
        self.clauses.push(clause)?;
        Ok(())
    }
}
