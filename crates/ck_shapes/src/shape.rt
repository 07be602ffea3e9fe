// The shape of a frame: the types of its locals and of its operand stack.
ghost use Rattle.std.specs.Prelude.{◌≡◌, IfOk};
ghost use Rattle.ck_shapes.specs.Shape.{width};

use crate::locals::Locals;
use crate::stack::Stack;
use jv_list::Mem;
use std::alloc::Global;

/// The type of a value in a frame (JVM Specification SE 8, 2.11.1): an int stands for the smaller types too. Float and
/// double are not in the profile.
#[derive(Clone, Copy, Debug, PartialEq, Eq)]
pub enum ValueType {
    Int,
    Long,
    Reference,
}

impl ValueType {
    /// The words that it takes, in the locals and on the stack (JVM Specification SE 8, 2.6.1 and 2.6.2).
    pub fn width(self) -> usize
        ensures { result ≡ width self }
    {
        match self {
            ValueType::Long => 2,
            ValueType::Int | ValueType::Reference => 1,
        }
    }
}

/// What is known of a frame where an instruction begins (JVM Specification SE 8, 4.10.1.2). A long stands at the first
/// of its two locals, and nothing at the second. The stack's top is last, and a long is one value there.
#[derive(Debug, Drop)]
pub struct Shape {
    pub locals: Locals,
    pub stack: Stack,
}

impl Shape {
    pub fn copy(&self, alloc: Global) -> Mem<Shape>
        ensures { IfOk result (λ copy. copy ≡ self.now) }
    {
        Ok(Shape {
            locals: self.locals.copy(alloc)?,
            stack: self.stack.copy(alloc)?,
        })
    }
}

/// How much a frame may have: words on its stack, and locals (JVM Specification SE 8, 4.7.3).
#[derive(Clone, Copy, Debug, PartialEq, Eq)]
pub struct Limits {
    pub max_stack: u16,
    pub max_locals: u16,
}
