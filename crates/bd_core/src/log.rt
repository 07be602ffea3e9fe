// The events so far, and who has which item.
ghost use Rattle.std.specs.Prelude.{◌≡◌, ◌<◌, ◌≤◌, ◌+◌, ◌↔◌, [], ◌∷◌, ◌++◌, IsTrue, OnErr, OnOk, None, Some};
ghost use Rattle.std.specs.Vec.{vec_len, vec_capacity};
ghost use Rattle.indexmap.specs.IndexMap.{get, index_map_len, Updates, IsUnchanged};
ghost use Rattle.bd_core.specs.contracts.item.ItemPartialEq.TheImpl as item_eq;
ghost use Rattle.bd_core.specs.declared.item.Event.TheVariants as events;
ghost use Rattle.bd_core.specs.Runs.{holder, IsBusy, IsIdle};
ghost use Rattle.bd_core.specs.Calls.Logs.{IsLogged};

use crate::item::{Event, Item};
use indexmap::IndexMap;
use jv_base::{Mem, TryCopy};
use std::alloc::Global;

/// The events in order, with room for the one that ends each claim, and the worker that has an item.
#[derive(Drop)]
pub(crate) struct Log {
    events: Vec<Event>,
    held: IndexMap<Item, u32>,
}

impl Log {
    /// No event. It takes no memory.
    pub(crate) fn new(alloc: Global) -> Log
        ensures events { result.events.items ≡ [] }
        ensures logged { IsLogged result }
    {
        Log {
            events: Vec::new(alloc),
            held: IndexMap::new(alloc),
        }
    }

    pub(crate) fn events(&self) -> &[Event]
        ensures { result.now ≡ self.now.events.items }
    {
        self.events.as_slice()
    }

    /// Whether a worker has an item.
    pub(crate) fn is_held(&self, item: &Item) -> bool
        requires logged { IsLogged self.now }
        ensures { IsTrue result ↔ (holder self.now.events.items item.now ≡ None → ⊥) }
    {
        self.held.contains_key(item)
    }

    /// Whether no worker has an item.
    pub(crate) fn is_idle(&self) -> bool
        requires logged { IsLogged self.now }
        ensures idle { IsTrue result → IsIdle self.now.events.items }
        ensures busy { (IsTrue result → ⊥) → IsBusy self.now.events.items }
    {
        self.held.is_empty()
    }

    // Puts an event at the end, where there is room.
    fn put(&mut self, event: Event)
        requires room { vec_len self.old.events < vec_capacity self.old.events }
        ensures events { self.new.events.items ≡ self.old.events.items ++ event ∷ [] }
        ensures length { vec_len self.new.events ≡ vec_len self.old.events + 1 }
        ensures room { vec_capacity self.old.events ≤ vec_capacity self.new.events }
        ensures held { self.new.held ≡ self.old.held }
    {
        match self.events.push(event) {
            Ok(()) => (),
            Err(_) => unreachable!(),
        }
    }

    // Notes that a worker has an item.
    fn hold(&mut self, item: Item, worker: u32) -> Mem<()>
        requires not_held { get (item_eq.ghosts).eq self.old.held item ≡ None }
        ensures ok { OnOk result (Updates (item_eq.ghosts).eq self.old.held self.new.held item (Some worker)) }
        ensures length { OnOk result (index_map_len self.new.held ≡ index_map_len self.old.held + 1) }
        ensures unchanged { OnErr result (IsUnchanged self.old.held self.new.held) }
        ensures events { self.new.events ≡ self.old.events }
    {
        self.held.insert(item, worker)?;
        Ok(())
    }

    /// A worker takes an item that none has. There is room then for the event that ends it.
    pub(crate) fn take(&mut self, alloc: Global, worker: u32, item: &Item) -> Mem<()>
        requires logged { IsLogged self.old }
        requires not_held { holder self.old.events.items item.now ≡ None }
        ensures ok { OnOk result (self.new.events.items ≡ self.old.events.items ++ events.Take worker item.now ∷ []) }
        ensures unchanged { OnErr result (self.new.events.items ≡ self.old.events.items) }
        ensures logged { IsLogged self.new }
    {
        let taken = item.copy(alloc)?;
        let key = item.copy(alloc)?;
        self.events.reserve(self.held.len() + 2)?;
        self.hold(key, worker)?;
        self.put(Event::Take(worker, taken));
        Ok(())
    }

    // Notes that no worker has an item that one had.
    fn release(&mut self, item: &Item) -> Item
        requires held { get (item_eq.ghosts).eq self.old.held item.now ≡ None → ⊥ }
        ensures value { result ≡ item.now }
        ensures held { Updates (item_eq.ghosts).eq self.old.held self.new.held item.now None }
        ensures length { index_map_len self.new.held + 1 ≡ index_map_len self.old.held }
        ensures events { self.new.events ≡ self.old.events }
    {
        match self.held.swap_remove_entry(item) {
            Some((key, _)) => key,
            None => unreachable!(),
        }
    }

    /// A worker gives the facts of an item that it has.
    pub(crate) fn give(&mut self, worker: u32, item: &Item)
        requires logged { IsLogged self.old }
        requires held { holder self.old.events.items item.now ≡ Some worker }
        ensures events { self.new.events.items ≡ self.old.events.items ++ events.Give worker item.now ∷ [] }
        ensures logged { IsLogged self.new }
    {
        let ended = self.release(item);
        self.put(Event::Give(worker, ended));
    }

    /// A worker gives back an item that it has.
    pub(crate) fn give_back(&mut self, worker: u32, item: &Item)
        requires logged { IsLogged self.old }
        requires held { holder self.old.events.items item.now ≡ Some worker }
        ensures events { self.new.events.items ≡ self.old.events.items ++ events.Back worker item.now ∷ [] }
        ensures logged { IsLogged self.new }
    {
        let ended = self.release(item);
        self.put(Event::Back(worker, ended));
    }
}
