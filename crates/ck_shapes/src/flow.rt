// Code as a flow of shapes: what each instruction does to the shape of a frame, and where it goes.
ghost use Rattle.std.specs.Prelude.{◌≡◌, IfOk};
ghost use Rattle.ck_shapes.specs.Rules.{at_handler};

use crate::effect::Effect;
use crate::shape::{Limits, Shape, ValueType};
use crate::stack::Stack;
use jv_list::{List, Mem};
use std::alloc::Global;

/// What an instruction does to a shape, and the pcs that can be next in its frame.
#[derive(Debug, Drop)]
pub struct Action {
    pub effect: Effect,
    pub nexts: List<u16>,
}

/// An instruction at a pc. It has no action where no frame may come to it.
#[derive(Debug, Drop)]
pub struct Step {
    pub pc: u16,
    pub action: Option<Action>,
}

/// The handler of what is thrown from the start on, below the end (JVM Specification SE 8, 4.7.3).
#[derive(Clone, Copy, Debug, PartialEq, Eq)]
pub struct Handler {
    pub start: u16,
    pub end: u16,
    pub handler: u16,
}

/// The code of a method: its instructions, its handlers, how much a frame may have, and the shape that a frame begins
/// with.
#[derive(Debug, Drop)]
pub struct Flow {
    pub steps: List<Step>,
    pub handlers: List<Handler>,
    pub limits: Limits,
    pub start: Shape,
}

impl Shape {
    /// The shape at a handler of an instruction that has this shape: the locals before the instruction, and on the
    /// stack what was thrown (JVM Specification SE 8, 2.10).
    pub(crate) fn at_handler(&self, alloc: Global) -> Mem<Shape>
        ensures { IfOk result (λ shape. shape ≡ at_handler self.now) }
    {
        Ok(Shape {
            locals: self.locals.copy(alloc)?,
            stack: Stack::new(alloc).pushed(alloc, ValueType::Reference)?,
        })
    }
}
