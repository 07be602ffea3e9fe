// How far the initialisation of classes is.
ghost use Rattle.std.specs.Prelude.{◌≡◌, ◌++◌, ◌∷◌, [], is_some, IfOk, OnOk, OnErr};
ghost use Rattle.std.specs.Option.{option_copied};
ghost use Rattle.vm_world.specs.Classes.{place_of_class, state_of_class, stage_of, with_stage};

use crate::copies::copied;
use jv_base::{Mem, Name, TryCopy};
use std::alloc::Global;
use std::marker::Model;

/// How far the initialisation of a class is (JVM Specification SE 8, 5.5). A class that is not listed is fresh.
#[derive(Clone, Copy, Debug, PartialEq, Eq)]
pub enum Stage {
    InProgress,
    Done,
}

/// A class whose initialisation has begun.
#[derive(Debug, Drop)]
pub struct ClassState {
    pub name: Name,
    pub stage: Stage,
}

impl TryCopy for ClassState {
    fn copy(&self, alloc: Global) -> Mem<ClassState> {
        Ok(ClassState {
            name: self.name.copy(alloc)?,
            stage: self.stage,
        })
    }
}

/// The classes whose initialisation has begun, in that order.
#[derive(Debug, Drop)]
pub struct ClassStates {
    states: Vec<ClassState>,
}

impl Model for ClassStates {
    ghost use Rattle.std.specs.Prelude.{List};
    ghost use Rattle.vm_world.specs.declared.classes.ClassState.{ClassState};

    ghost Value = { List ClassState };

    ghost view = { λ s. s.states.items };
}

fn place_of(states: &[ClassState], name: &Name) -> Option<usize>
    ensures { result ≡ place_of_class states.now name.now }
{
    states
        .iter()
        .position(|state| state.name.as_str() == name.as_str())
}

fn state_of<'a>(states: &'a [ClassState], name: &Name) -> Option<&'a ClassState>
    ensures { option_copied result ≡ state_of_class states.now name.now }
{
    states
        .iter()
        .find(|state| state.name.as_str() == name.as_str())
}

impl ClassStates {
    /// No class: each is fresh. It takes no memory.
    pub fn new(alloc: Global) -> ClassStates
        ensures { result ≡ [] }
    {
        ClassStates {
            states: Vec::new(alloc),
        }
    }

    pub fn copy(&self, alloc: Global) -> Mem<ClassStates>
        ensures { IfOk result (λ copy. copy ≡ self.now) }
    {
        Ok(ClassStates {
            states: copied(alloc, self.states.as_slice())?,
        })
    }

    pub fn as_slice(&self) -> &[ClassState]
        ensures { result.now ≡ self.now }
    {
        self.states.as_slice()
    }

    /// Puts a class at the end.
    pub fn add(&mut self, state: ClassState) -> Mem<()>
        ensures ok { OnOk result (self.new ≡ self.old ++ state ∷ []) }
        ensures unchanged { OnErr result (self.new ≡ self.old) }
    {
        self.states.push(state)?;
        Ok(())
    }

    /// How far a class is, and `None` for a fresh one.
    pub fn stage(&self, name: &Name) -> Option<Stage>
        ensures { result ≡ stage_of self.now name.now }
    {
        match state_of(self.states.as_slice(), name) {
            Some(state) => Some(state.stage),
            None => None,
        }
    }

    /// Moves a class to another stage, and answers whether it is listed. Where it is not, nothing changes.
    pub fn put(&mut self, name: &Name, stage: Stage) -> bool
        ensures found { result ≡ is_some (stage_of self.old name.now) }
        ensures value { self.new ≡ with_stage self.old name.now stage }
    {
        match place_of(self.states.as_slice(), name) {
            Some(place) => {
                self.states[place].stage = stage;
                true
            }
            None => false,
        }
    }
}
