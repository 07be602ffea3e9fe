// Runs of locals, which shapes share.
ghost use Rattle.std.specs.Prelude.{◌≡◌, ◌≤◌, ◌<◌, ◌+◌, ◌⊎◌, ◌↔◌, true, false, IsTrue, IfOk, IfSome, Some, length};
ghost use Rattle.ck_shapes.specs.Shape.{local_at, IsKnownLess};
ghost use Rattle.ck_shapes.specs.Calls.Joins.{AreCommon, IsKnownOnlyHere};
ghost use Rattle.ck_shapes.specs.Calls.Runs.{joined, stored_near, stored_from};

use crate::local::{common_locals, is_known_less, is_long, local_of};
use crate::shape::ValueType;
use jv_list::{List, Mem};
use std::alloc::Global;
use std::marker::Model;
use std::sync::Arc;

/// A run of locals, or of values on a stack. A copy shares its memory.
#[derive(Debug, Drop)]
pub(crate) struct Run<T> {
    shared: Arc<List<T>, Global>,
}

impl<T> Model for Run<T> {
    ghost use Rattle.std.specs.Prelude.{List as list_of};

    ghost Value = { list_of T };

    ghost view = { λ r. r.shared.value };
}

pub(crate) type LocalRun = Run<Option<ValueType>>;

impl<T: Copy + Drop> Run<T> {
    pub(crate) fn new(alloc: Global, items: &[T]) -> Mem<Run<T>>
        ensures { IfOk result (λ run. run ≡ items.now) }
    {
        let items = List::copied(alloc, items)?;
        Ok(Run {
            shared: Arc::new(alloc, items)?,
        })
    }

    pub(crate) fn share(&self) -> Mem<Run<T>>
        ensures { IfOk result (λ run. run ≡ self.now) }
    {
        Ok(Run {
            shared: Arc::try_clone(&self.shared)?,
        })
    }

    pub(crate) fn items(&self) -> &[T]
        ensures { result.now ≡ self.now }
    {
        self.shared.as_slice()
    }

    pub(crate) fn length(&self) -> usize
        ensures { result ≡ length self.now }
    {
        self.shared.length()
    }
}

/// Whether runs have so many locals at most.
pub(crate) fn have_at_most(runs: &[LocalRun], count: usize) -> bool
    ensures { IsTrue result ↔ (length (joined runs.now) ≤ count) }
{
    let mut room = count;
    let mut rest = runs;
    while let [run, after @ ..] = rest {
        let length = run.length();
        if room < length {
            return false;
        }
        room -= length;
        rest = after;
    }
    true
}

/// What is known of a local of runs.
pub(crate) fn local_in(runs: &[LocalRun], index: usize) -> Option<ValueType>
    ensures { result ≡ local_at (joined runs.now) index }
{
    let mut at = index;
    let mut rest = runs;
    while let [run, after @ ..] = rest {
        let length = run.length();
        if at < length {
            return local_of(run.items(), at);
        }
        at -= length;
        rest = after;
    }
    None
}

/// What is in runs as one list.
pub(crate) fn items_of<T: Copy + Drop>(alloc: Global, runs: &[Run<T>]) -> Mem<List<T>>
    ensures { IfOk result (λ items. items ≡ joined runs.now) }
{
    let mut items = List::new(alloc);
    for run in runs {
        items.extend(run.items())?;
    }
    Ok(items)
}

/// The same runs.
pub(crate) fn shared_runs<T: Copy + Drop>(alloc: Global, runs: &[Run<T>]) -> Mem<List<Run<T>>>
    ensures { IfOk result (λ new. new ≡ runs.now) }
{
    let mut new = List::with_capacity(alloc, runs.len())?;
    for run in runs {
        new.add(run.share()?)?;
    }
    Ok(new)
}

/// What is known of a local where a value was stored to one near it.
fn stored_near(local: Option<ValueType>, of: ValueType, reach: usize) -> Option<ValueType>
    ensures { result ≡ stored_near local of reach }
{
    match reach {
        1 if is_long(Some(of)) => None,
        2 => Some(of),
        3 if is_long(local) => None,
        _ => local,
    }
}

/// Locals after a store.
fn stored_items(
    alloc: Global,
    items: &[Option<ValueType>],
    of: ValueType,
    reach: usize,
) -> Mem<List<Option<ValueType>>>
    ensures { IfOk result (λ new. new ≡ stored_from items.now of reach) }
{
    let mut new = List::with_capacity(alloc, items.len())?;
    let mut left = reach;
    let mut rest = items;
    while let [local, after @ ..] = rest {
        new.add(stored_near(*local, of, left))?;
        left = left.saturating_sub(1);
        rest = after;
    }
    Ok(new)
}

/// Whether a store changes none of so many locals.
fn is_far(length: usize, reach: usize) -> bool
    ensures { IsTrue result → (reach ≡ 0) ⊎ (length + 2 < reach) }
{
    reach == 0 || length < reach.saturating_sub(2)
}

/// A run after a store, which is the same where the store is far from it.
fn stored_run(alloc: Global, run: &LocalRun, of: ValueType, reach: usize) -> Mem<LocalRun>
    ensures { IfOk result (λ new. new ≡ stored_from run.now of reach) }
{
    if is_far(run.length(), reach) {
        return run.share();
    }
    let items = stored_items(alloc, run.items(), of, reach)?;
    Run::new(alloc, items.as_slice())
}

/// Runs after a store.
pub(crate) fn stored_runs(
    alloc: Global,
    runs: &[LocalRun],
    of: ValueType,
    reach: usize,
) -> Mem<List<LocalRun>>
    ensures { IfOk result (λ new. joined new ≡ stored_from (joined runs.now) of reach) }
{
    let mut new = List::with_capacity(alloc, runs.len())?;
    let mut left = reach;
    let mut rest = runs;
    while let Some((run, after)) = rest.split_first() {
        new.add(stored_run(alloc, run, of, left)?)?;
        left = left.saturating_sub(run.length());
        rest = after;
    }
    Ok(new)
}

/// What two frames both know of the locals of a run, which is one of the two if it can be.
fn common_run(alloc: Global, left: &LocalRun, right: &LocalRun) -> Mem<LocalRun>
    requires { length left.now ≡ length right.now }
    ensures common { IfOk result (λ both. AreCommon left.now right.now both) }
    ensures long { IfOk result (λ both. length both ≡ length left.now) }
{
    let (lefts, rights) = (left.items(), right.items());
    if is_known_less(lefts, rights) {
        return left.share();
    }
    if is_known_less(rights, lefts) {
        return right.share();
    }
    let both = common_locals(alloc, lefts, rights)?;
    Run::new(alloc, both.as_slice())
}

/// What two frames both know of the locals of runs. None where the runs are not of the same lengths.
pub(crate) fn common_runs(
    alloc: Global,
    left: &[LocalRun],
    right: &[LocalRun],
) -> Mem<Option<List<LocalRun>>>
    ensures common { IfOk result (λ o. IfSome o (λ both. AreCommon (joined left.now) (joined right.now) (joined both))) }
    ensures long { IfOk result (λ o. IfSome o (λ both. length (joined both) ≡ length (joined left.now))) }
{
    let mut both = List::with_capacity(alloc, left.len())?;
    let mut lefts = left;
    let mut rights = right;
    while let Some((l, lefts_after)) = lefts.split_first() {
        let Some((r, rights_after)) = rights.split_first() else {
            return Ok(None);
        };
        if l.length() != r.length() {
            return Ok(None);
        }
        both.add(common_run(alloc, l, r)?)?;
        lefts = lefts_after;
        rights = rights_after;
    }
    Ok(Some(both))
}

/// Whether less is known of the locals of the first runs than of the second, or the same. None where the runs are not of
/// the same lengths.
pub(crate) fn are_known_less(less: &[LocalRun], more: &[LocalRun]) -> Option<bool>
    ensures yes { result ≡ Some true → IsKnownLess (joined less.now) (joined more.now) }
    ensures no { result ≡ Some false → IsKnownOnlyHere (joined less.now) (joined more.now) }
{
    let mut lefts = less;
    let mut rights = more;
    while let Some((l, lefts_after)) = lefts.split_first() {
        let Some((r, rights_after)) = rights.split_first() else {
            return None;
        };
        if l.length() != r.length() {
            return None;
        }
        if !is_known_less(l.items(), r.items()) {
            return Some(false);
        }
        lefts = lefts_after;
        rights = rights_after;
    }
    Some(true)
}
