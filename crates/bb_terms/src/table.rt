// Tables of the literals of terms.
ghost use Rattle.std.specs.Prelude.{◌≡◌, ◌<◌, ◌≤◌, ◌↔◌, ℕ, [], length, IfOk, OnOk, IsTrue};
ghost use Rattle.bb_terms.specs.Tables.{HasWord, HasSome};
ghost use Rattle.bb_terms.specs.Calls.Terms.{PutsWord, HasSameWords};

use cn_clauses::Lit;
use jv_list::{List, Mem};
use std::alloc::Global;
use std::marker::Model;

/// The literals of the terms of one bank that stand in one formula. Contracts see a table as the list of the words of
/// the bank's places; a place may have none.
#[derive(Drop)]
pub struct Table {
    words: List<Option<List<Lit>>>,
}

impl Model for Table {
    ghost use Rattle.std.specs.Prelude.{List as list_of, Option as option_of};
    ghost use Rattle.cn_clauses.specs.declared.lit.Lit.{Lit};

    ghost Value = { list_of (option_of (list_of Lit)) };

    ghost view = { λ t. t.words };
}

impl Table {
    ghost use Rattle.std.specs.Prelude.{List as list_of};

    /// A table without words. It takes no memory.
    pub fn new(alloc: Global) -> Table
        ensures { result ≡ [] }
    {
        Table {
            words: List::new(alloc),
        }
    }

    // The words of the places.
    pub(crate) fn words(&self) -> &[Option<List<Lit>>]
        ensures { result.now ≡ self.now }
    {
        self.words.as_slice()
    }

    // Room for the words of so many places.
    pub(crate) fn cover(&mut self, count: usize) -> Mem<()>
        ensures same { HasSameWords self.old self.new }
        ensures within { OnOk result (count ≤ length self.new) }
    {
        while self.words.length() < count {
            self.words.add(None)?;
        }
        Ok(())
    }

    // Whether a place has a word.
    pub(crate) fn has(&self, place: usize) -> bool
        ensures { IsTrue result ↔ HasSome self.now place }
    {
        matches!(self.words.get(place), Some(Some(_)))
    }

    // Gives a place that has none its word.
    pub(crate) fn put(&mut self, place: usize, lits: List<Lit>)
        requires room { place < length self.old }
        requires none { HasSome self.old place → ⊥ }
        ensures word { PutsWord self.old self.new place lits }
        ensures room { length self.new ≡ length self.old }
    {
        self.words.set(place, Some(lits));
    }
}
