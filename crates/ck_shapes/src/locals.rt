// The locals of a shape.
ghost use Rattle.std.specs.Prelude.{◌≡◌, ◌≤◌, ◌<◌, ◌↔◌, IsTrue, IsFalse, IfOk, length};
ghost use Rattle.ck_shapes.specs.Shape.{local_at, IsKnownLess, AreStored, HasRoom, HaveSame, Holds};
ghost use Rattle.ck_shapes.specs.Calls.Joins.{AreCommon, IsKnownOnlyHere};
ghost use Rattle.ck_shapes.specs.Calls.Runs.{joined};

use crate::local::{common_locals, has_room, is_known_less};
use crate::run::{
    LocalRun, Run, are_known_less, common_runs, have_at_most, items_of, local_in, shared_runs,
    stored_runs,
};
use crate::shape::{Limits, ValueType};
use jv_list::{List, Mem};
use std::alloc::Global;
use std::marker::Model;

/// So many locals are in a run, but for the last.
const RUN: usize = 1024;

/// What is known of locals, each by its index; behind the end none is known. They are kept in runs, and a copy and what
/// comes of a store share those that stay.
#[derive(Debug, Drop)]
pub struct Locals {
    runs: List<LocalRun>,
}

impl Model for Locals {
    ghost use Rattle.std.specs.Prelude.{List, Option};
    ghost use Rattle.ck_shapes.specs.declared.shape.ValueType.{ValueType};

    ghost Value = { List (Option ValueType) };

    ghost use Rattle.ck_shapes.specs.Calls.Runs.{joined};

    ghost view = { λ l. joined l.runs };
}

/// The runs of a list.
fn runs_of(alloc: Global, items: &[Option<ValueType>]) -> Mem<List<LocalRun>>
    ensures { IfOk result (λ runs. joined runs ≡ items.now) }
{
    let mut runs = List::new(alloc);
    let mut rest = items;
    while !rest.is_empty() {
        let (run, after) = rest.split_at(rest.len().min(RUN));
        runs.add(Run::new(alloc, run)?)?;
        rest = after;
    }
    Ok(runs)
}

impl Locals {
    pub fn new(alloc: Global, items: &[Option<ValueType>]) -> Mem<Locals>
        ensures { IfOk result (λ locals. locals ≡ items.now) }
    {
        Ok(Locals {
            runs: runs_of(alloc, items)?,
        })
    }

    pub fn to_list(&self, alloc: Global) -> Mem<List<Option<ValueType>>>
        ensures { IfOk result (λ items. items ≡ self.now) }
    {
        items_of(alloc, self.runs.as_slice())
    }

    pub fn copy(&self, alloc: Global) -> Mem<Locals>
        ensures { IfOk result (λ copy. copy ≡ self.now) }
    {
        Ok(Locals {
            runs: shared_runs(alloc, self.runs.as_slice())?,
        })
    }

    /// What is known of a local.
    pub fn at(&self, index: u16) -> Option<ValueType>
        ensures { result ≡ local_at self.now index }
    {
        local_in(self.runs.as_slice(), usize::from(index))
    }

    /// Whether they are so many at most.
    pub(crate) fn are_at_most(&self, count: u16) -> bool
        ensures { IsTrue result ↔ (length self.now ≤ count) }
    {
        have_at_most(self.runs.as_slice(), usize::from(count))
    }

    /// The same, with ones of which nothing is known behind them, up to a count.
    fn padded(&self, alloc: Global, count: usize) -> Mem<Locals>
        ensures same { IfOk result (λ new. HaveSame self.now new) }
        ensures long { IfOk result (λ new. count ≤ length new) }
        ensures within { IfOk result (λ new. length self.now ≤ count → length new ≤ count) }
    {
        let items = self.to_list(alloc)?;
        let mut items = items.into_vec();
        if items.len() < count {
            items.resize(count, None)?;
        }
        Locals::new(alloc, items.as_slice())
    }

    /// The locals where a value is stored in one of them.
    fn after_store(&self, alloc: Global, of: ValueType, index: u16) -> Mem<Locals>
        requires { index < length self.now }
        ensures stored { IfOk result (λ new. AreStored self.now of index new) }
        ensures long { IfOk result (λ new. length new ≡ length self.now) }
    {
        Ok(Locals {
            runs: stored_runs(alloc, self.runs.as_slice(), of, usize::from(index) + 2)?,
        })
    }
}

/// Whether a local has a value of a type.
pub(crate) fn holds(limits: Limits, locals: &Locals, of: ValueType, index: u16) -> bool
    ensures { IsTrue result ↔ Holds limits locals.now of index }
{
    has_room(limits, of, index) && locals.at(index) == Some(of)
}

/// The locals where a value of a type is stored in one of them.
pub(crate) fn store(
    alloc: Global,
    limits: Limits,
    locals: &Locals,
    of: ValueType,
    index: u16,
) -> Mem<Locals>
    requires { HasRoom limits of index }
    ensures stored { IfOk result (λ new. AreStored locals.now of index new) }
    ensures within { IfOk result (λ new. length locals.now ≤ limits.max_locals → length new ≤ limits.max_locals) }
{
    if !locals.are_at_most(index) {
        return locals.after_store(alloc, of, index);
    }
    let all = locals.padded(alloc, usize::from(limits.max_locals))?;
    all.after_store(alloc, of, index)
}

/// What two frames both know of their locals.
pub(crate) fn common(alloc: Global, left: &Locals, right: &Locals) -> Mem<Locals>
    ensures common { IfOk result (λ both. AreCommon left.now right.now both) }
    ensures within { IfOk result (λ both. length both ≤ length left.now) }
{
    if let Some(runs) = common_runs(alloc, left.runs.as_slice(), right.runs.as_slice())? {
        return Ok(Locals { runs });
    }
    let left = left.to_list(alloc)?;
    let right = right.to_list(alloc)?;
    let both = common_locals(alloc, left.as_slice(), right.as_slice())?;
    Locals::new(alloc, both.as_slice())
}

/// Whether less is known of the first locals than of the second, or the same.
pub(crate) fn are_less(alloc: Global, less: &Locals, more: &Locals) -> Mem<bool>
    ensures yes { IfOk result (λ is. IsTrue is → IsKnownLess less.now more.now) }
    ensures no { IfOk result (λ is. IsFalse is → IsKnownOnlyHere less.now more.now) }
{
    if let Some(is) = are_known_less(less.runs.as_slice(), more.runs.as_slice()) {
        return Ok(is);
    }
    let less = less.to_list(alloc)?;
    let more = more.to_list(alloc)?;
    Ok(is_known_less(less.as_slice(), more.as_slice()))
}
