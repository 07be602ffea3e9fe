// The loading core: workers take what is asked for, and give its facts.
ghost use Rattle.std.specs.Prelude.{◌≡◌, [], ◌∷◌, ◌++◌, IfErr, IfOk, IfNone, IfSome, ℕ, true, OnErr, OnOk, Some, option_copied};
ghost use Rattle.hi_tree.specs.Classes.{class_in};
ghost use Rattle.bd_core.specs.declared.item.Event.TheVariants as events;
ghost use Rattle.bd_core.specs.Told.{Fits, IsTold};
ghost use Rattle.bd_core.specs.Least.{IsLeast};
ghost use Rattle.bd_core.specs.Runs.{holder, AreDerived, IsExhausted};
ghost use Rattle.bd_core.specs.Loading.{job_of, events_of, told_of, IsKept, IsAsBefore, Leaves, Answers};
ghost use Rattle.bd_core.specs.Calls.Cores.{IsKeptBut};

use crate::item::{Event, Facts, Item, Took, Unread};
use crate::job::Job;
use crate::loaded::Loaded;
use crate::log::Log;
use crate::member::Member;
use crate::queue::{asked, members_of, pop_free};
use bd_scan::Fact;
use cf_class::ClassFile;
use hi_tree::{Classes, growth_laws};
use jv_base::{List, Mem, MethodId, Name};
use std::alloc::Global;

/// What is loaded for one entry: what was told, the events, and what is asked for and was found so far.
#[derive(Drop)]
pub struct Core {
    alloc: Global,
    job: Job,
    loaded: Loaded,
    log: Log,
    queue: List<Item>,
    /// Whether all that is pending is in the queue.
    settled: bool,
}

impl Core {
    /// A core that was told nothing.
    pub fn start(alloc: Global, entry: MethodId, depth: u8) -> Mem<Core>
        ensures kept { IfOk result IsKept }
        ensures job { IfOk result (λ core. job_of core ≡ record { entry = entry; depth = depth }) }
        ensures events { IfOk result (λ core. events_of core ≡ []) }
    {
        Ok(Core {
            alloc,
            job: Job { entry, depth },
            loaded: Loaded::new(alloc),
            log: Log::new(alloc),
            queue: List::new(alloc),
            settled: false,
        })
    }

    /// The events so far, in order.
    pub fn events(&self) -> &[Event]
        ensures { result.now ≡ events_of self.now }
    {
        self.log.events()
    }

    /// The class file that was given under a name.
    pub fn class(&self, name: &Name) -> Option<&ClassFile>
        ensures { option_copied result ≡ class_in (told_of self.now).given.classes name.now }
    {
        self.loaded.classes().find(name)
    }

    /// What is loaded for.
    pub fn job(&self) -> &Job
        ensures { result.now ≡ job_of self.now }
    {
        &self.job
    }

    /// The class files that were given, in that order.
    pub fn classes(&self) -> &Classes
        ensures { result.now ≡ (told_of self.now).given.classes }
    {
        self.loaded.classes()
    }

    /// Why there is no class file under a name, where that was given.
    pub fn unread(&self, name: &Name) -> Option<&Unread>
        ensures { option_copied result ≡ (told_of self.now).unread name.now }
    {
        self.loaded.unread(name)
    }

    /// The facts of a method that were given.
    pub fn facts(&self, method: &MethodId) -> Option<&List<Fact>>
        ensures { option_copied result ≡ (told_of self.now).given.facts method.now }
    {
        self.loaded.facts(method)
    }

    /// The least set that the rules allow over what was told so far: just what follows by them.
    pub fn members(&self) -> Mem<List<Member>>
        ensures least { IfOk result (IsLeast (job_of self.now) (told_of self.now).given) }
        ensures derived { IfOk result (AreDerived (job_of self.now) (told_of self.now).given) }
    {
        members_of(self.alloc, &self.job, &self.loaded)
    }

    // Takes a pending item out of the queue, which is filled again where it has none.
    fn next(&mut self) -> Mem<Option<Item>>
        requires { IsKept self.old }
        ensures same { IsAsBefore self.old self.new }
        ensures found { IfOk result (λ o. IfSome o (IsKeptBut self.new)) }
        ensures none { IfOk result (λ o. IfNone o (IsKept self.new × IsExhausted (job_of self.old) (told_of self.old) (events_of self.old))) }
        ensures kept { OnErr result (IsKept self.new) }
    {
        if let Some(item) = pop_free(&mut self.queue, &self.loaded, &self.log) {
            return Ok(Some(item));
        }
        if self.settled {
            return Ok(None);
        }
        self.queue = asked(self.alloc, &self.job, &self.loaded)?;
        self.settled = true;
        Ok(pop_free(&mut self.queue, &self.loaded, &self.log))
    }

    // A worker takes an item that was pending.
    fn claim(&mut self, worker: u32, item: Item) -> Took
        requires { IsKeptBut self.old item }
        ensures answers { Answers (job_of self.old) (told_of self.old) (events_of self.old) worker result (events_of self.new) }
        ensures job { job_of self.new ≡ job_of self.old }
        ensures told { told_of self.new ≡ told_of self.old }
        ensures kept { IsKept self.new }
    {
        if self.log.take(self.alloc, worker, &item).is_ok() {
            Took::Item(item)
        } else {
            self.settled = false;
            Took::NoMemory
        }
    }

    // What a worker is told where nothing is pending.
    fn wait(&self) -> Took
        requires kept { IsKept self.now }
        requires exhausted { IsExhausted (job_of self.now) (told_of self.now) (events_of self.now) }
        ensures { (worker : ℕ) → Answers (job_of self.now) (told_of self.now) (events_of self.now) worker result (events_of self.now) }
    {
        if self.log.is_idle() {
            Took::Closed
        } else {
            Took::Later
        }
    }

    /// A worker asks for an item. An item comes with room for the event that ends its claim.
    pub fn take(&mut self, worker: u32) -> Took
        requires { IsKept self.old }
        ensures answers { Answers (job_of self.old) (told_of self.old) (events_of self.old) worker result (events_of self.new) }
        ensures job { job_of self.new ≡ job_of self.old }
        ensures told { told_of self.new ≡ told_of self.old }
        ensures kept { IsKept self.new }
    {
        match self.next() {
            Ok(Some(item)) => self.claim(worker, item),
            Ok(None) => self.wait(),
            Err(_) => Took::NoMemory,
        }
    }

    /// A worker gives the facts of an item that it has. For want of memory all stays, and the facts are handed back.
    pub fn give(&mut self, worker: u32, item: &Item, facts: Facts) -> Result<(), Facts>
        requires kept { IsKept self.old }
        requires held { holder (events_of self.old) item.now ≡ Some worker }
        requires fits { Fits item.now facts }
        ensures given { OnOk result (Leaves self.old self.new (events.Give worker item.now) × IsTold (told_of self.old) item.now facts (told_of self.new)) }
        ensures unchanged { OnErr result (IsAsBefore self.old self.new) }
        ensures back { IfErr result (λ back. back ≡ facts) }
        ensures kept { IsKept self.new }
    {
        growth_laws();
        self.loaded.tell(self.alloc, item, facts)?;
        self.log.give(worker, item);
        self.settled = false;
        Ok(())
    }

    /// A worker gives back an item that it has. It takes no memory.
    pub fn give_back(&mut self, worker: u32, item: &Item)
        requires kept { IsKept self.old }
        requires held { holder (events_of self.old) item.now ≡ Some worker }
        ensures given { Leaves self.old self.new (events.Back worker item.now) }
        ensures told { told_of self.new ≡ told_of self.old }
        ensures kept { IsKept self.new }
    {
        self.log.give_back(worker, item);
        self.settled = false;
    }
}
