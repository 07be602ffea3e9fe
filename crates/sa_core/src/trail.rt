// The trail: the literals that are true, in the order in which they became it. The place of each is found by its number.
ghost use Rattle.std.specs.Prelude.{◌≡◌, ◌+◌, ◌*◌, ◌^◌, ◌++◌, ◌∷◌, [], ◌-◌, ◌<◌, ◌≤◌, length, take, slice_get, Some, OnOk, IfOk};
ghost use Rattle.std.proofs.Props.{props};
ghost use Rattle.cn_clauses.specs.Literals.{variable_of};
ghost use Rattle.sa_core.specs.TrailView.{lits_of, IsOpen, IsPlaced, HasValue};

use crate::step::Step;
use cn_clauses::{Lit, literal_laws};
use jv_list::{List, Mem};
use std::alloc::{AllocError, Global};

/// The steps, and for the number of each literal its place among them.
#[derive(Debug, Drop)]
pub struct Trail {
    pub variables: usize,
    pub steps: List<Step>,
    pub places: List<Option<usize>>,
    pub ghost few: { variables < 2 ^ 63 },
    pub ghost size: { length places ≡ 2 * variables },
    pub ghost placed: { IsPlaced steps places } by { Prim.hlevel props },
}

impl Trail {
    /// No step, and room for the literals of so many variables.
    pub fn new(alloc: Global, variables: usize) -> Mem<Trail>
        ensures variables { IfOk result (λ trail. trail.variables ≡ variables) }
        ensures steps { IfOk result (λ trail. trail.steps ≡ []) }
    {
        let size = variables.checked_mul(2).ok_or(AllocError)?;
        let mut places = Vec::new(alloc);
        places.resize(size, None)?;
        Ok(Trail {
            variables,
            steps: List::new(alloc),
            places: List::from_vec(places),
        })
    }

    /// The place of a literal that is true.
    pub fn place_of(&self, lit: Lit) -> Option<usize>
        requires { variable_of lit < self.now.variables }
        ensures { slice_get self.now.places lit.0 ≡ Some result }
    {
        *self.places.at(lit.0 as usize)
    }

    /// The value of a literal, where it has one.
    pub fn value(&self, lit: Lit) -> Option<bool>
        requires { variable_of lit < self.now.variables }
        ensures { HasValue (lits_of self.now.steps) lit result }
    {
        literal_laws();
        if self.place_of(lit).is_some() {
            Some(true)
        } else if self.place_of(lit.opposite()).is_some() {
            Some(false)
        } else {
            None
        }
    }

    /// Makes an open literal true.
    pub fn push(&mut self, step: Step) -> Mem<()>
        requires within { variable_of step.lit < self.old.variables }
        requires open { IsOpen (lits_of self.old.steps) (length (lits_of self.old.steps)) step.lit }
        ensures ok { OnOk result (self.new.steps ≡ self.old.steps ++ step ∷ []) }
        ensures variables { self.new.variables ≡ self.old.variables }
    {
        literal_laws();
        let place = self.steps.length();
        self.steps.add(step)?;
        self.places.set(step.lit.0 as usize, Some(place));
        Ok(())
    }

    // Takes the last step back.
    fn pop(&mut self)
        ensures steps { self.new.steps ≡ take (length self.old.steps - 1) self.old.steps }
        ensures variables { self.new.variables ≡ self.old.variables }
    {
        if let Some(step) = self.steps.pop() {
            self.places.set(step.lit.0 as usize, None);
        }
    }

    /// Keeps the first steps.
    pub fn cut(&mut self, count: usize)
        ensures steps { self.new.steps ≡ take count self.old.steps }
        ensures variables { self.new.variables ≡ self.old.variables }
    {
        while self.steps.length() > count {
            self.pop();
        }
    }
}
