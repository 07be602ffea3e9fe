// The shape after an instruction.
ghost use Rattle.std.specs.Prelude.{◌≡◌, ◌≤◌, IfOk, IfSome, MatchOption, None, length};
ghost use Rattle.ck_shapes.specs.declared.effect.Effect.{Effect};
ghost use Rattle.ck_shapes.specs.Shape.{IsAfter};
ghost use Rattle.ck_shapes.specs.Calls.Joins.{HasStack, KeepsCount};

use crate::effect::Effect;
use crate::local::has_room;
use crate::locals::{holds, store};
use crate::shape::{Limits, Shape, ValueType};
use crate::stack::Stack;
use jv_list::Mem;
use std::alloc::Global;

impl Shape {
    /// The shape after an instruction with an effect. None where the instruction does not find what it takes, or
    /// where it names a local that there is not.
    pub fn after(&self, alloc: Global, effect: &Effect, limits: Limits) -> Mem<Option<Shape>>
        ensures steps { IfOk result (IsAfter limits effect.now self.now) }
        ensures within { IfOk result (λ found. IfSome found (λ new. KeepsCount limits self.now new)) }
    {
        match effect {
            Effect::Moves(how) => {
                let stack = self.stack.moved(alloc, *how)?;
                self.with_stack(alloc, stack)
            }
            Effect::Loads(of, index) => self.loaded(alloc, limits, *of, *index),
            Effect::Stores(of, index) => self.stored(alloc, limits, *of, *index),
            Effect::Increments(index) => self.incremented(alloc, limits, *index),
            Effect::Replaces(takes, leaves) => {
                let (takes, leaves) = (takes.as_slice(), leaves.as_slice());
                let stack = self.stack.replaced(alloc, takes, leaves)?;
                self.with_stack(alloc, stack)
            }
        }
    }

    /// The shape with another stack, if there is one.
    fn with_stack(&self, alloc: Global, stack: Option<Stack>) -> Mem<Option<Shape>>
        ensures { IfOk result (λ found. MatchOption found (stack ≡ None) (HasStack self.now stack)) }
    {
        let Some(stack) = stack else {
            return Ok(None);
        };
        let locals = self.locals.copy(alloc)?;
        Ok(Some(Shape { locals, stack }))
    }

    fn loaded(&self, alloc: Global, limits: Limits, of: ValueType, index: u16) -> Mem<Option<Shape>>
        ensures steps { IfOk result (IsAfter limits (Effect.Loads of index) self.now) }
        ensures within { IfOk result (λ found. IfSome found (λ new. KeepsCount limits self.now new)) }
    {
        if !holds(limits, &self.locals, of, index) {
            return Ok(None);
        }
        Ok(Some(Shape {
            locals: self.locals.copy(alloc)?,
            stack: self.stack.pushed(alloc, of)?,
        }))
    }

    fn stored(&self, alloc: Global, limits: Limits, of: ValueType, index: u16) -> Mem<Option<Shape>>
        ensures steps { IfOk result (IsAfter limits (Effect.Stores of index) self.now) }
        ensures within { IfOk result (λ found. IfSome found (λ new. KeepsCount limits self.now new)) }
    {
        if !has_room(limits, of, index) {
            return Ok(None);
        }
        let Some(stack) = self.stack.replaced(alloc, &[of], &[])? else {
            return Ok(None);
        };
        let locals = store(alloc, limits, &self.locals, of, index)?;
        Ok(Some(Shape { locals, stack }))
    }

    fn incremented(&self, alloc: Global, limits: Limits, index: u16) -> Mem<Option<Shape>>
        ensures steps { IfOk result (IsAfter limits (Effect.Increments index) self.now) }
        ensures within { IfOk result (λ found. IfSome found (λ new. KeepsCount limits self.now new)) }
    {
        if !holds(limits, &self.locals, ValueType::Int, index) {
            return Ok(None);
        }
        Ok(Some(self.copy(alloc)?))
    }
}
