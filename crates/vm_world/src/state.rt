// The state of the machine between two steps.
ghost use Rattle.std.specs.Prelude.{◌≡◌, IfOk};
ghost use Rattle.vm_world.specs.State.{nothing, literal_in, mirror_in};

use crate::classes::ClassStates;
use crate::fields::Fields;
use crate::frame::Frame;
use crate::heap::Heap;
use jv_base::{List, Mem, Name, TryCopy};
use st_text::Text;
use std::alloc::Global;

/// The String object of all literals of one content (JVM Specification SE 8, 5.1).
#[derive(Debug, Drop)]
pub struct Literal {
    pub text: Text,
    pub object: u64,
}

impl TryCopy for Literal {
    fn copy(&self, alloc: Global) -> Mem<Literal> {
        Ok(Literal {
            text: self.text.copy(alloc)?,
            object: self.object,
        })
    }
}

/// The Class object of a class, by its name, or of an array type, by its descriptor.
#[derive(Debug, Drop)]
pub struct Mirror {
    pub class: Name,
    pub object: u64,
}

impl TryCopy for Mirror {
    fn copy(&self, alloc: Global) -> Mem<Mirror> {
        Ok(Mirror {
            class: self.class.copy(alloc)?,
            object: self.object,
        })
    }
}

/// The state of the machine between two steps.
#[derive(Debug, Drop)]
pub struct State {
    /// The frames, the entry's first and the running one last.
    pub frames: List<Frame>,
    pub heap: Heap,
    pub statics: Fields,
    pub classes: ClassStates,
    /// The number of an exception on its way.
    pub thrown: Option<u64>,
    pub literals: List<Literal>,
    pub mirrors: List<Mirror>,
}

impl State {
    /// The state with nothing in it. It takes no memory.
    pub fn start(alloc: Global) -> State
        ensures { result ≡ nothing }
    {
        State {
            frames: List::new(alloc),
            heap: Heap::new(alloc),
            statics: Fields::new(alloc),
            classes: ClassStates::new(alloc),
            thrown: None,
            literals: List::new(alloc),
            mirrors: List::new(alloc),
        }
    }

    pub fn copy(&self, alloc: Global) -> Mem<State>
        ensures { IfOk result (λ copy. copy ≡ self.now) }
    {
        Ok(State {
            frames: self.frames.copy(alloc)?,
            heap: self.heap.copy(alloc)?,
            statics: self.statics.copy(alloc)?,
            classes: self.classes.copy(alloc)?,
            thrown: self.thrown,
            literals: self.literals.copy(alloc)?,
            mirrors: self.mirrors.copy(alloc)?,
        })
    }

    /// The number of the String object of the literals of this content, if one was made.
    pub fn literal(&self, text: &Text) -> Option<u64>
        ensures { result ≡ literal_in self.now.literals text.now }
    {
        literal_of(self.literals.as_slice(), text)
    }

    /// The number of the Class object of this name, if one was made.
    pub fn mirror(&self, class: &Name) -> Option<u64>
        ensures { result ≡ mirror_in self.now.mirrors class.now }
    {
        mirror_of(self.mirrors.as_slice(), class)
    }
}

fn literal_of(literals: &[Literal], text: &Text) -> Option<u64>
    ensures { result ≡ literal_in literals.now text.now }
{
    literals
        .iter()
        .find(|literal| literal.text.units() == text.units())
        .map(|literal| literal.object)
}

fn mirror_of(mirrors: &[Mirror], class: &Name) -> Option<u64>
    ensures { result ≡ mirror_in mirrors.now class.now }
{
    mirrors
        .iter()
        .find(|mirror| mirror.class.as_str() == class.as_str())
        .map(|mirror| mirror.object)
}
