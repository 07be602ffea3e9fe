// What is asked for, found by closing the sets, and taken from the end.
ghost use Rattle.std.specs.Prelude.{◌≡◌, ◌↔◌, Contains, IfNone, IfOk, IfSome, IsTrue, OnOk};
ghost use Rattle.bd_core.specs.declared.item.Item.{Item as an_item};
ghost use Rattle.bd_core.specs.Least.{IsLeast};
ghost use Rattle.bd_core.specs.Runs.{IsAsked, HasCode};
ghost use Rattle.bd_core.specs.Loads.{given, told};
ghost use Rattle.bd_core.specs.Calls.Logs.{IsLogged};
ghost use Rattle.bd_core.specs.Calls.Queues.{IsFree, IsAskedBy, IsPopped, IsSifted};

use crate::closing::close;
use crate::entry::put_entry;
use crate::item::Item;
use crate::job::Job;
use crate::loaded::Loaded;
use crate::log::Log;
use crate::member::Member;
use cf_class::{code_in, member_in};
use hi_tree::Classes;
use jv_base::{List, Mem, MethodId, Name};
use lib_rows::find_class;
use std::alloc::Global;

// Whether the class of a method was read and declares it, with code.
fn has_code(classes: &Classes, method: &MethodId) -> bool
    ensures { IsTrue result ↔ HasCode classes.now method.now }
{
    let Some(class) = classes.read(&method.class) else {
        return false;
    };
    match member_in(class.methods.as_slice(), &method.name, &method.desc) {
        Some(found) => code_in(found.attributes.as_slice()).is_some(),
        None => false,
    }
}

// What is asked for by a member of the sets.
fn item_of(loaded: &Loaded, member: Member) -> Option<Item>
    ensures { (i : an_item) → (result ≡ Some i) ↔ IsAskedBy (given loaded.now) member i }
{
    match member {
        Member::Known(name) => match find_class(&name) {
            Some(_) => None,
            None => Some(Item::Class(name)),
        },
        Member::Method(method) => {
            if has_code(loaded.classes(), &method) {
                Some(Item::Method(method))
            } else {
                None
            }
        }
        _ => None,
    }
}

// What is asked for by the members of a list.
fn items_of(alloc: Global, loaded: &Loaded, members: List<Member>) -> Mem<List<Item>>
    ensures { IfOk result (IsSifted (given loaded.now) members) }
{
    let mut items = List::new(alloc);
    'members: for member in members {
        if let Some(item) = item_of(loaded, member) {
            items.add(item)?;
        }
    }
    Ok(items)
}

/// The least set over what was given.
pub(crate) fn members_of(alloc: Global, job: &Job, loaded: &Loaded) -> Mem<List<Member>>
    ensures { IfOk result (IsLeast job.now (given loaded.now)) }
{
    let mut start = List::new(alloc);
    put_entry(alloc, loaded, job, &mut start)?;
    close(alloc, loaded, start)
}

/// All that is asked for by what was given.
pub(crate) fn asked(alloc: Global, job: &Job, loaded: &Loaded) -> Mem<List<Item>>
    ensures { IfOk result (λ items. (i : an_item) → Contains items i ↔ IsAsked job.now (given loaded.now) i) }
{
    let members = members_of(alloc, job, loaded)?;
    items_of(alloc, loaded, members)
}

// Whether no worker has an item, and it was not given.
fn is_free(loaded: &Loaded, log: &Log, item: &Item) -> bool
    requires { IsLogged log.now }
    ensures { IsTrue result ↔ IsFree (told loaded.now) log.now.events.items item.now }
{
    !log.is_held(item) && !loaded.has(item)
}

/// Takes out the last item that no worker has and that was not given, and those behind it.
pub(crate) fn pop_free(items: &mut List<Item>, loaded: &Loaded, log: &Log) -> Option<Item>
    requires { IsLogged log.now }
    ensures { IsPopped (IsFree (told loaded.now) log.now.events.items) items.old result items.new }
{
    'items: while let Some(item) = items.pop() {
        if is_free(loaded, log, &item) {
            return Some(item);
        }
    }
    None
}
