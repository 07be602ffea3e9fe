// Clauses.
use crate::lit::Lit;
use jv_list::{List, TryCopy};
use std::alloc::{AllocError, Global};

/// A disjunction of literals.
#[derive(Debug, Drop)]
pub struct Clause {
    pub lits: List<Lit>,
}

impl TryCopy for Clause {
    fn copy(&self, alloc: Global) -> Result<Clause, AllocError> {
        Ok(Clause {
            lits: self.lits.copy(alloc)?,
        })
    }
}
