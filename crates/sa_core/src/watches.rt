// Watches: two literals of each clause, and for each literal the places of the clauses that it watches.
ghost use Rattle.std.specs.Prelude.{◌≡◌, ◌∷◌, ◌++◌, [], ◌<◌, length, slice_set, IfOk, OnOk};
ghost use Rattle.sa_core.specs.Watching.{IsCount, HasPlace, IsPlaceAt, IsDropped, Drops, Lists, Watches};

use crate::pair::Pair;
use cn_clauses::Lit;
use jv_list::{List, Mem};
use std::alloc::Global;

/// The pair of each clause, and a list of places for the number of each literal.
#[derive(Debug, Drop)]
pub struct Watchers {
    pub pairs: List<Pair>,
    pub lists: Vec<List<usize>>,
}

impl Watchers {
    /// No clause, and empty lists for so many literals.
    pub fn new(alloc: Global, size: usize) -> Mem<Watchers>
        ensures size { IfOk result (λ made. length made.lists.items ≡ size) }
        ensures pairs { IfOk result (λ made. made.pairs ≡ []) }
    {
        let mut lists = Vec::new(alloc);
        for _ in 0..size {
            lists.push(List::new(alloc))?;
        }
        Ok(Watchers {
            pairs: List::new(alloc),
            lists,
        })
    }

    /// How many places are in the list of a literal.
    pub fn count(&self, lit: Lit) -> usize
        requires { lit.0 < length self.now.lists.items }
        ensures { IsCount self.now.lists.items lit.0 result }
    {
        self.lists[lit.0 as usize].length()
    }

    /// The place at an index of the list of a literal.
    pub fn place_at(&self, lit: Lit, index: usize) -> usize
        requires within { lit.0 < length self.now.lists.items }
        requires has { HasPlace self.now.lists.items lit.0 index }
        ensures { IsPlaceAt self.now.lists.items lit.0 index result }
    {
        *self.lists[lit.0 as usize].at(index)
    }

    /// Takes a place out of the list of a literal; the last one comes in its stead.
    pub fn drop_at(&mut self, lit: Lit, index: usize)
        requires within { lit.0 < length self.old.lists.items }
        requires has { HasPlace self.old.lists.items lit.0 index }
        ensures drops { Drops self.old.lists.items self.new.lists.items lit.0 index }
        ensures pairs { self.new.pairs ≡ self.old.pairs }
    {
        take_out(&mut self.lists[lit.0 as usize], index);
    }

    // Puts a place into the list of a literal.
    fn add(&mut self, lit: Lit, place: usize) -> Mem<()>
        requires { lit.0 < length self.old.lists.items }
        ensures ok { OnOk result (Lists self.old.lists.items self.new.lists.items lit.0 place) }
        ensures pairs { self.new.pairs ≡ self.old.pairs }
    {
        let list = &mut self.lists[lit.0 as usize];
        list.add(place)?;
        Ok(())
    }

    /// The clause at a place is watched by the first literal of a pair beside the second, which watched it already.
    pub fn turn(&mut self, place: usize, pair: Pair) -> Mem<()>
        requires place { place < length self.old.pairs }
        requires within { pair.first.0 < length self.old.lists.items }
        ensures lists { OnOk result (Lists self.old.lists.items self.new.lists.items pair.first.0 place) }
        ensures pairs { OnOk result (self.new.pairs ≡ slice_set self.old.pairs place pair) }
    {
        self.add(pair.first, place)?;
        self.pairs.set(place, pair);
        Ok(())
    }

    /// The clause at a place is watched by a pair from now on.
    pub fn watch(&mut self, place: usize, pair: Pair) -> Mem<()>
        requires place { place < length self.old.pairs }
        requires first { pair.first.0 < length self.old.lists.items }
        requires second { pair.second.0 < length self.old.lists.items }
        ensures lists { OnOk result (Watches self.old.lists.items self.new.lists.items pair place) }
        ensures pairs { OnOk result (self.new.pairs ≡ slice_set self.old.pairs place pair) }
    {
        self.add(pair.second, place)?;
        self.turn(place, pair)
    }
}

// Takes the element at an index out of a list; the last one comes in its stead.
fn take_out(list: &mut List<usize>, index: usize)
    requires { index < length list.old }
    ensures { IsDropped list.old list.new index }
{
    if let Some(last) = list.pop() {
        if index < list.length() {
            list.set(index, last);
        }
    }
}
