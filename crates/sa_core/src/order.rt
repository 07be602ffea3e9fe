// The order of decisions: the open variable of most activity comes next, with the value that it had last. It is a hint: no clause
// speaks of it, and a decision looks whether the variable is open. After MiniSat: the variables of each conflict rise,
// by more than those of the conflicts before, and stand in a heap.

use crate::step::Step;
use crate::trail::Trail;
use cn_clauses::Lit;
use jv_list::Mem;
use std::alloc::Global;

// From this step on all activities are divided by `SCALE`.
const LARGE: u64 = 1 << 58;

const SCALE: u64 = 1 << 32;

/// The activity of each variable, and its last value; the variables in a heap by activity, and the place of each in it.
#[derive(Debug, Drop)]
pub struct Order {
    activities: Vec<u64>,
    step: u64,
    negated: Vec<bool>,
    heap: Vec<usize>,
    places: Vec<Option<usize>>,
}

impl Order {
    /// An order of so many variables, each with activity 0 and the value false.
    pub fn new(alloc: Global, variables: usize) -> Mem<Order> {
        let mut activities = Vec::new(alloc);
        activities.resize(variables, 0)?;
        let mut negated = Vec::new(alloc);
        negated.resize(variables, true)?;
        let mut heap = Vec::with_capacity(alloc, variables)?;
        let mut places = Vec::with_capacity(alloc, variables)?;
        for variable in 0..variables {
            heap.push(variable)?;
            places.push(Some(variable))?;
        }
        Ok(Order {
            activities,
            step: SCALE,
            negated,
            heap,
            places,
        })
    }

    /// Raises the activity of a literal's variable.
    pub fn raise(&mut self, lit: Lit) {
        let variable = lit.variable() as usize;
        if let Some(activity) = self.activities.get_mut(variable) {
            *activity = activity.saturating_add(self.step);
        }
        if let Some(place) = self.place_of(variable) {
            self.rise(place);
        }
    }

    /// Makes what is raised from now on count for more, by a sixteenth.
    pub fn age(&mut self) {
        self.step = self.step.saturating_add(self.step / 16);
        if self.step >= LARGE {
            self.step /= SCALE;
            for activity in self.activities.iter_mut() {
                *activity /= SCALE;
            }
        }
    }

    /// Takes the variables of the steps from a place on back into the heap, and keeps their values.
    pub fn reopen(&mut self, trail: &Trail, from: usize) -> Mem<()> {
        for place in from..trail.steps.length() {
            self.insert(trail.steps.at(place).lit)?;
        }
        Ok(())
    }

    /// Takes the variable of most activity out of the heap.
    pub fn next_variable(&mut self) -> Option<usize> {
        let last = self.heap.pop()?;
        let first = match self.heap.get_mut(0) {
            Some(slot) => std::mem::replace(slot, last),
            None => last,
        };
        self.note(0);
        self.sink();
        if let Some(slot) = self.places.get_mut(first) {
            *slot = None;
        }
        Some(first)
    }

    /// Whether a variable was false last, or never had a value.
    pub fn is_negated(&self, variable: usize) -> bool {
        self.negated.get(variable).copied().unwrap_or(true)
    }

    // Puts the variable of a literal that was true into the heap, unless it is there.
    fn insert(&mut self, lit: Lit) -> Mem<()> {
        let variable = lit.variable() as usize;
        if let Some(negated) = self.negated.get_mut(variable) {
            *negated = lit.is_negated();
        }
        if self.place_of(variable).is_none() {
            let place = self.heap.len();
            self.heap.push(variable)?;
            self.note(place);
            self.rise(place);
        }
        Ok(())
    }

    // The place of a variable in the heap.
    fn place_of(&self, variable: usize) -> Option<usize> {
        *self.places.get(variable)?
    }

    // The activity of the variable at a place of the heap; 0 where there is none.
    fn activity_at(&self, place: usize) -> u64 {
        match self.heap.get(place) {
            Some(variable) => self.activities.get(*variable).copied().unwrap_or(0),
            None => 0,
        }
    }

    // Notes the place of the variable that stands there.
    fn note(&mut self, place: usize) {
        if let Some(variable) = self.heap.get(place) {
            if let Some(slot) = self.places.get_mut(*variable) {
                *slot = Some(place);
            }
        }
    }

    fn exchange(&mut self, first: usize, second: usize) {
        if first < self.heap.len() && second < self.heap.len() {
            self.heap.swap(first, second);
            self.note(first);
            self.note(second);
        }
    }

    // Moves the variable at a place up until the one above it has no less activity.
    fn rise(&mut self, start: usize) {
        let mut place = start;
        while place > 0 {
            let above = (place - 1) / 2;
            if self.activity_at(place) <= self.activity_at(above) {
                return;
            }
            self.exchange(place, above);
            place = above;
        }
    }

    // Moves the first variable down until those below it have no more activity.
    fn sink(&mut self) {
        let half = self.heap.len() / 2;
        let mut place = 0;
        while place < half {
            let left = 2 * place + 1;
            let below = if self.activity_at(left + 1) > self.activity_at(left) {
                left + 1
            } else {
                left
            };
            if self.activity_at(below) <= self.activity_at(place) {
                return;
            }
            self.exchange(place, below);
            place = below;
        }
    }
}
