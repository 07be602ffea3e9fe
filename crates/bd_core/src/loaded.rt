// What was told so far: the classes that were read, why others were not, and the facts of methods.
ghost use Rattle.std.specs.Prelude.{◌≡◌, false, IfErr, OnErr, OnOk, option_copied};
ghost use Rattle.bd_core.specs.declared.item.Item.TheVariants as items;
ghost use Rattle.bd_core.specs.declared.item.Facts.TheVariants as told_facts;
ghost use Rattle.bd_core.specs.Told.{IsNothing, IsTold, Fits, is_given};
ghost use Rattle.bd_core.specs.Loads.{given, told};
ghost use Rattle.bd_core.specs.Calls.Tells.{facts_of};

use crate::item::{Facts, Item, Unread};
use bd_scan::Fact;
use cf_class::ClassFile;
use hi_tree::Classes;
use indexmap::IndexMap;
use jv_base::{List, MethodId, Name};
use std::alloc::Global;

/// The classes that were read, why others were not, and the facts of methods, each found by its name in constant time.
#[derive(Drop)]
pub struct Loaded {
    classes: Classes,
    unread: IndexMap<Name, Unread>,
    facts: IndexMap<MethodId, List<Fact>>,
}

// The facts that say why there is no class file.
fn facts_of(why: Unread) -> Facts
    ensures { result ≡ facts_of why }
{
    match why {
        Unread::Absent => Facts::Absent,
        Unread::TooLong => Facts::TooLong,
        Unread::Malformed(fault) => Facts::Malformed(fault),
    }
}

impl Loaded {
    /// Nothing was told. It takes no memory.
    pub(crate) fn new(alloc: Global) -> Loaded
        ensures { IsNothing (told result) }
    {
        Loaded {
            classes: Classes::new(alloc),
            unread: IndexMap::new(alloc),
            facts: IndexMap::new(alloc),
        }
    }

    /// The classes that were read.
    pub(crate) fn classes(&self) -> &Classes
        ensures { result.now ≡ (given self.now).classes }
    {
        &self.classes
    }

    /// The facts of a method, where they were told.
    pub(crate) fn facts(&self, method: &MethodId) -> Option<&List<Fact>>
        ensures { option_copied result ≡ (given self.now).facts method.now }
    {
        self.facts.get(method)
    }

    /// Why there is no class file under a name, where that was told.
    pub(crate) fn unread(&self, name: &Name) -> Option<&Unread>
        ensures { option_copied result ≡ (told self.now).unread name.now }
    {
        self.unread.get(name)
    }

    /// Whether an item was told of.
    pub(crate) fn has(&self, item: &Item) -> bool
        ensures { result ≡ is_given (told self.now) item.now }
    {
        match item {
            Item::Class(name) => {
                self.classes.find(name).is_some() || self.unread.contains_key(name)
            }
            Item::Method(method) => self.facts.contains_key(method),
        }
    }

    // Puts a class file in.
    fn add_class(&mut self, alloc: Global, class: ClassFile) -> Result<(), Facts>
        requires { is_given (told self.old) (items.Class class.this_class.name) ≡ false }
        ensures ok { OnOk result (IsTold (told self.old) (items.Class class.this_class.name) (told_facts.Class class) (told self.new)) }
        ensures unchanged { OnErr result (told self.new ≡ told self.old) }
        ensures back { IfErr result (λ back. back ≡ told_facts.Class class) }
    {
        match self.classes.add(alloc, class) {
            Ok(()) => Ok(()),
            Err(class) => Err(Facts::Class(class)),
        }
    }

    // Puts in why there is no class file.
    fn add_unread(&mut self, alloc: Global, name: &Name, why: Unread) -> Result<(), Facts>
        ensures ok { OnOk result (IsTold (told self.old) (items.Class name.now) (facts_of why) (told self.new)) }
        ensures unchanged { OnErr result (told self.new ≡ told self.old) }
        ensures back { IfErr result (λ back. back ≡ facts_of why) }
    {
        let Ok(key) = name.copy(alloc) else {
            return Err(facts_of(why));
        };
        match self.unread.insert(key, why) {
            Ok(_) => Ok(()),
            Err(refused) => Err(facts_of(refused.value.1)),
        }
    }

    // Puts in the facts of a method.
    fn add_facts(
        &mut self,
        alloc: Global,
        method: &MethodId,
        facts: List<Fact>,
    ) -> Result<(), Facts>
        ensures ok { OnOk result (IsTold (told self.old) (items.Method method.now) (told_facts.Method facts) (told self.new)) }
        ensures unchanged { OnErr result (told self.new ≡ told self.old) }
        ensures back { IfErr result (λ back. back ≡ told_facts.Method facts) }
    {
        let Ok(key) = method.copy(alloc) else {
            return Err(Facts::Method(facts));
        };
        match self.facts.insert(key, facts) {
            Ok(_) => Ok(()),
            Err(refused) => Err(Facts::Method(refused.value.1)),
        }
    }

    // Puts in what is told of a class.
    fn tell_class(&mut self, alloc: Global, name: &Name, facts: Facts) -> Result<(), Facts>
        requires new { is_given (told self.old) (items.Class name.now) ≡ false }
        requires fits { Fits (items.Class name.now) facts }
        ensures ok { OnOk result (IsTold (told self.old) (items.Class name.now) facts (told self.new)) }
        ensures unchanged { OnErr result (told self.new ≡ told self.old) }
        ensures back { IfErr result (λ back. back ≡ facts) }
    {
        match facts {
            Facts::Class(class) => self.add_class(alloc, class),
            Facts::Absent => self.add_unread(alloc, name, Unread::Absent),
            Facts::TooLong => self.add_unread(alloc, name, Unread::TooLong),
            Facts::Malformed(fault) => self.add_unread(alloc, name, Unread::Malformed(fault)),
            Facts::Method(_) => unreachable!(),
        }
    }

    // Puts in what is told of a method.
    fn tell_method(&mut self, alloc: Global, method: &MethodId, facts: Facts) -> Result<(), Facts>
        requires fits { Fits (items.Method method.now) facts }
        ensures ok { OnOk result (IsTold (told self.old) (items.Method method.now) facts (told self.new)) }
        ensures unchanged { OnErr result (told self.new ≡ told self.old) }
        ensures back { IfErr result (λ back. back ≡ facts) }
    {
        match facts {
            Facts::Method(facts) => self.add_facts(alloc, method, facts),
            Facts::Class(_) | Facts::Absent | Facts::TooLong | Facts::Malformed(_) => {
                unreachable!()
            }
        }
    }

    /// Puts in what is told of an item. For want of memory all stays, and the facts are handed back.
    pub(crate) fn tell(&mut self, alloc: Global, item: &Item, facts: Facts) -> Result<(), Facts>
        requires new { is_given (told self.old) item.now ≡ false }
        requires fits { Fits item.now facts }
        ensures ok { OnOk result (IsTold (told self.old) item.now facts (told self.new)) }
        ensures unchanged { OnErr result (told self.new ≡ told self.old) }
        ensures back { IfErr result (λ back. back ≡ facts) }
    {
        match item {
            Item::Class(name) => self.tell_class(alloc, name, facts),
            Item::Method(method) => self.tell_method(alloc, method, facts),
        }
    }
}
