// Operand stacks, and what instructions do to them.
ghost use Rattle.std.specs.Prelude.{◌≡◌, ◌↔◌, ◌≤◌, ◌+◌, ◌++◌, ◌∷◌, [], ◌⊎◌, ℕ, IsTrue, IfOk, IfSome, IfNone, OnOk, length, drop, Some};
ghost use Rattle.ck_shapes.specs.Shape.{kept, words};
ghost use Rattle.ck_shapes.specs.Calls.Joins.{reordered, GivesMoved, GivesReplaced};
ghost use Rattle.ck_shapes.specs.Calls.Runs.{joined};

use crate::effect::Move;
use crate::run::{Run, items_of, shared_runs};
use crate::shape::ValueType;
use jv_list::{List, Mem};
use std::alloc::Global;
use std::marker::Model;

/// So many values are in a run.
const RUN: usize = 512;

/// The values on an operand stack, the top last. Those far from the top are kept in runs, which a copy, and what comes of
/// an instruction, share.
#[derive(Debug, Drop)]
pub struct Stack {
    deep: List<Run<ValueType>>,
    top: List<ValueType>,
}

impl Model for Stack {
    ghost use Rattle.std.specs.Prelude.{List, ◌++◌};
    ghost use Rattle.ck_shapes.specs.declared.shape.ValueType.{ValueType};

    ghost Value = { List ValueType };

    ghost use Rattle.ck_shapes.specs.Calls.Runs.{joined};

    ghost view = { λ s. joined s.deep ++ s.top };
}

/// Runs, and the values above them.
#[derive(Debug, Drop)]
struct Parts {
    deep: List<Run<ValueType>>,
    top: List<ValueType>,
}

/// The same values, so many of them above the runs, unless there are fewer.
fn opened(alloc: Global, deep: &[Run<ValueType>], top: &[ValueType], count: usize) -> Mem<Parts>
    ensures same { IfOk result (λ p. joined p.deep ++ p.top ≡ joined deep.now ++ top.now) }
    ensures above { IfOk result (λ p. (count ≤ length p.top) ⊎ (p.deep ≡ [])) }
{
    let mut lower = deep;
    let mut upper = List::copied(alloc, top)?;
    while let Some((run, below)) = lower.split_last() {
        if count <= upper.length() {
            let deep = shared_runs(alloc, lower)?;
            return Ok(Parts { deep, top: upper });
        }
        let mut more = List::copied(alloc, run.items())?;
        more.extend(upper.as_slice())?;
        upper = more;
        lower = below;
    }
    let deep = List::new(alloc);
    Ok(Parts { deep, top: upper })
}

/// A stack of runs and the values above them. Where these are two runs or more, the lowest become one.
fn packed(alloc: Global, parts: Parts) -> Mem<Stack>
    ensures { IfOk result (λ stack. stack ≡ joined parts.deep ++ parts.top) }
{
    let Parts { mut deep, top } = parts;
    if top.length() < 2 * RUN {
        return Ok(Stack { deep, top });
    }
    let (lower, upper) = top.as_slice().split_at(RUN);
    deep.add(Run::new(alloc, lower)?)?;
    let top = List::copied(alloc, upper)?;
    Ok(Stack { deep, top })
}

impl Stack {
    /// A stack with nothing on it.
    pub fn new(alloc: Global) -> Stack
        ensures { result ≡ [] }
    {
        Stack {
            deep: List::new(alloc),
            top: List::new(alloc),
        }
    }

    pub fn to_list(&self, alloc: Global) -> Mem<List<ValueType>>
        ensures { IfOk result (λ items. items ≡ self.now) }
    {
        let mut items = items_of(alloc, self.deep.as_slice())?;
        items.extend(self.top.as_slice())?;
        Ok(items)
    }

    pub fn copy(&self, alloc: Global) -> Mem<Stack>
        ensures { IfOk result (λ copy. copy ≡ self.now) }
    {
        Ok(Stack {
            deep: shared_runs(alloc, self.deep.as_slice())?,
            top: List::copied(alloc, self.top.as_slice())?,
        })
    }

    /// The stack with one value more.
    pub fn pushed(&self, alloc: Global, of: ValueType) -> Mem<Stack>
        ensures { IfOk result (λ new. new ≡ self.now ++ of ∷ []) }
    {
        let mut top = List::copied(alloc, self.top.as_slice())?;
        top.add(of)?;
        let deep = shared_runs(alloc, self.deep.as_slice())?;
        packed(alloc, Parts { deep, top })
    }

    /// Whether the values are the same.
    pub(crate) fn is_same(&self, alloc: Global, other: &Stack) -> Mem<bool>
        ensures { IfOk result (λ is. IsTrue is ↔ (self.now ≡ other.now)) }
    {
        if self.deep.is_empty() && other.deep.is_empty() {
            return Ok(self.top.as_slice() == other.top.as_slice());
        }
        let these = self.to_list(alloc)?;
        let those = other.to_list(alloc)?;
        Ok(these.as_slice() == those.as_slice())
    }

    /// Whether there are so many words at most.
    pub(crate) fn has_words(&self, max: u16) -> bool
        ensures { IsTrue result ↔ (words self.now ≤ max) }
    {
        match room_above_runs(self.deep.as_slice(), usize::from(max)) {
            Some(room) => room_above(self.top.as_slice(), room).is_some(),
            None => false,
        }
    }

    /// The stack after a move. None where there are not so many words, or a long would be parted.
    pub(crate) fn moved(&self, alloc: Global, how: Move) -> Mem<Option<Stack>>
        ensures { IfOk result (GivesMoved how self.now) }
    {
        let count = usize::from(how.top) + usize::from(how.under);
        let parts = opened(alloc, self.deep.as_slice(), self.top.as_slice(), count)?;
        let Parts { deep, top } = parts;
        match moved(alloc, top.as_slice(), how)? {
            Some(top) => Ok(Some(packed(alloc, Parts { deep, top })?)),
            None => Ok(None),
        }
    }

    /// The stack after values of some types are popped and values of others pushed. None where the first are not on top.
    pub(crate) fn replaced(
        &self,
        alloc: Global,
        takes: &[ValueType],
        leaves: &[ValueType],
    ) -> Mem<Option<Stack>>
        ensures { IfOk result (GivesReplaced takes.now leaves.now self.now) }
    {
        let (deep, top) = (self.deep.as_slice(), self.top.as_slice());
        let parts = opened(alloc, deep, top, takes.len())?;
        let Parts { deep, top } = parts;
        match replaced(alloc, top.as_slice(), takes, leaves)? {
            Some(top) => Ok(Some(packed(alloc, Parts { deep, top })?)),
            None => Ok(None),
        }
    }
}

/// How many words there is room for above these values. None where there is no room for them.
fn room_above(stack: &[ValueType], room: usize) -> Option<usize>
    ensures found { IfSome result (λ left. words stack.now + left ≡ room) }
    ensures none { IfNone result (words stack.now ≤ room → ⊥) }
{
    let mut left = room;
    for of in stack {
        let width = of.width();
        if left < width {
            return None;
        }
        left -= width;
    }
    Some(left)
}

/// The same of what is in runs.
fn room_above_runs(runs: &[Run<ValueType>], room: usize) -> Option<usize>
    ensures found { IfSome result (λ left. words (joined runs.now) + left ≡ room) }
    ensures none { IfNone result (words (joined runs.now) ≤ room → ⊥) }
{
    let mut left = room;
    let mut rest = runs;
    while let Some((run, after)) = rest.split_first() {
        left = room_above(run.items(), left)?;
        rest = after;
    }
    Some(left)
}

/// How many values of a stack are below so many words on top. None where a long would be parted, or there are not so
/// many.
fn below(stack: &[ValueType], count: u8) -> Option<usize>
    ensures found { IfSome result (λ k. (k ≤ length stack.now) × (words (drop k stack.now) ≡ count)) }
    ensures only { (k : ℕ) → k ≤ length stack.now → words (drop k stack.now) ≡ count → result ≡ Some k }
{
    let mut rest = stack.len();
    let mut left = usize::from(count);
    while left > 0 {
        if rest == 0 {
            return None;
        }
        let width = stack[rest - 1].width();
        if left < width {
            return None;
        }
        left -= width;
        rest -= 1;
    }
    Some(rest)
}

/// Puts values at the end, if so it is said.
fn extend_if(list: &mut List<ValueType>, test: bool, items: &[ValueType]) -> Mem<()>
    ensures { OnOk result (list.new ≡ list.old ++ kept test items.now) }
{
    if test {
        list.extend(items)?;
    }
    Ok(())
}

/// A stack, where values under those on top are put in another order.
fn rearranged(
    alloc: Global,
    rest: &[ValueType],
    under: &[ValueType],
    top: &[ValueType],
    how: Move,
) -> Mem<List<ValueType>>
    ensures { IfOk result (λ new. new ≡ reordered how rest.now under.now top.now) }
{
    let mut new = List::copied(alloc, rest)?;
    extend_if(&mut new, how.puts_below, top)?;
    new.extend(under)?;
    extend_if(&mut new, how.puts_above, top)?;
    Ok(new)
}

/// The stack after a move. None where there are not so many words, or a long would be parted.
fn moved(alloc: Global, stack: &[ValueType], how: Move) -> Mem<Option<List<ValueType>>>
    ensures { IfOk result (GivesMoved how stack.now) }
{
    let Some(above) = below(stack, how.top) else {
        return Ok(None);
    };
    let (lower, top) = stack.split_at(above);
    let Some(kept) = below(lower, how.under) else {
        return Ok(None);
    };
    let (rest, under) = lower.split_at(kept);
    Ok(Some(rearranged(alloc, rest, under, top, how)?))
}

/// The stack after values of some types are popped and values of others pushed. None where the first are not on top.
fn replaced(
    alloc: Global,
    stack: &[ValueType],
    takes: &[ValueType],
    leaves: &[ValueType],
) -> Mem<Option<List<ValueType>>>
    ensures { IfOk result (GivesReplaced takes.now leaves.now stack.now) }
{
    let Some(rest) = stack.strip_suffix(takes) else {
        return Ok(None);
    };
    let mut new = List::copied(alloc, rest)?;
    new.extend(leaves)?;
    Ok(Some(new))
}
