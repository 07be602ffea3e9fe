// The store: the literals of all clauses in one list, and where each clause lies in it.
ghost use Rattle.std.specs.Prelude.{◌≡◌, ◌++◌, ◌∷◌, [], ◌<◌, length, slice_get, Some, OnOk};

use crate::span::Span;
use cn_clauses::Lit;
use jv_list::{List, Mem};
use std::alloc::Global;
use std::marker::Model;

/// Clauses, each found by its place. Contracts see the list of them.
#[derive(Debug, Drop)]
pub struct Store {
    lits: List<Lit>,
    spans: List<Span>,
}

impl Model for Store {
    ghost use Rattle.std.specs.Prelude.{List as list_of};
    ghost use Rattle.cn_clauses.specs.declared.lit.Lit.{Lit};

    ghost Value = { list_of (list_of Lit) };

    ghost use Rattle.sa_core.specs.StoreView.{spanned, AreSpans};

    ghost view = { λ s. spanned s.lits s.spans };

    ghost invariant = { λ s. AreSpans s.lits s.spans };
}

impl Store {
    /// No clause.
    pub fn new(alloc: Global) -> Store
        ensures { result ≡ [] }
    {
        Store {
            lits: List::new(alloc),
            spans: List::new(alloc),
        }
    }

    pub fn length(&self) -> usize
        ensures { result ≡ length self.now }
    {
        self.spans.length()
    }

    /// The literals of the clause at a place.
    pub fn at(&self, place: usize) -> &[Lit]
        requires { place < length self.now }
        ensures { slice_get self.now place ≡ Some result.now }
    {
        let span = *self.spans.at(place);
        &self.lits.as_slice()[span.start..span.end]
    }

    /// Puts a clause at the end.
    pub fn push(&mut self, lits: &[Lit]) -> Mem<()>
        ensures { OnOk result (self.new ≡ self.old ++ lits.now ∷ []) }
    {
        let start = self.lits.length();
        self.lits.extend(lits)?;
        let end = self.lits.length();
        self.spans.add(Span { start, end })?;
        Ok(())
    }
}
