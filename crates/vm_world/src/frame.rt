// Frames (JVM Specification SE 8, 2.6).
use jv_base::{List, Mem, MethodId, TryCopy, Value};
use std::alloc::Global;

/// A frame: the method that runs, the pc of its next instruction, its locals and its operand stack.
#[derive(Debug, Drop)]
pub struct Frame {
    pub method: MethodId,
    pub pc: u16,
    /// What each local holds. A long stands in the first of its two places, and the second holds nothing. A local past
    /// the end of the list holds nothing.
    pub locals: List<Option<Value>>,
    /// The operand stack, its top last.
    pub stack: List<Value>,
    /// Whether it is the `<clinit>` frame of the initialisation of its method's class (5.5).
    pub initialises: bool,
}

impl TryCopy for Frame {
    fn copy(&self, alloc: Global) -> Mem<Frame> {
        Ok(Frame {
            method: self.method.copy(alloc)?,
            pc: self.pc,
            locals: List::copied(alloc, self.locals.as_slice())?,
            stack: List::copied(alloc, self.stack.as_slice())?,
            initialises: self.initialises,
        })
    }
}
