// A search: its clauses, what watches them, and its trail.
ghost use Rattle.std.specs.Prelude.{◌≡◌, ◌+◌, ◌*◌, ◌∷◌, ◌++◌, [], ◌<◌, length, IfOk, OnOk};
ghost use Rattle.cn_clauses.specs.Literals.{variable_of};
ghost use Rattle.cn_clauses.specs.Formulas.{value_at};
ghost use Rattle.cn_clauses.specs.Satisfaction.{Satisfies};
ghost use Rattle.sa_core.specs.SpentLog.{all_clauses};
ghost use Rattle.sa_core.specs.TrailView.{lits_of, IsOpen, AllGiven};
ghost use Rattle.sa_core.specs.SolverView.{IsWithin, AreWithin, AreSettled, IsFound, IsLastDecision, NoDecision};
ghost use Rattle.sa_core.specs.Analysis.{IsLearnedClause};
ghost use Rattle.sa_core.specs.Watching.{IsEnded};
ghost use Rattle.sa_core.specs.SearchView.{clauses_of, trail_of, IsReady, Stores, IsLoaded, GoesOn};

use crate::backtrack::{first_decision, height, pair_of};
use crate::decide::last_decision;
use crate::log::LogEntry;
use crate::order::Order;
use crate::pair::Pair;
use crate::propagate::propagate;
use crate::start::start;
use crate::step::Step;
use crate::store::Store;
use crate::trail::Trail;
use crate::watches::Watchers;
use cn_clauses::{Assignment, Lit, literal_laws};
use jv_list::{List, Mem};
use std::alloc::{AllocError, Global};

#[derive(Debug, Drop)]
pub struct Search {
    pub store: Store,
    pub watchers: Watchers,
    pub trail: Trail,
}

impl Search {
    /// A search over the clauses of these entries, with nothing assigned.
    pub fn new(alloc: Global, variables: usize, entries: &[LogEntry]) -> Mem<Search>
        requires { AreWithin variables (all_clauses entries.now) }
        ensures { IfOk result (λ search. IsLoaded search variables (all_clauses entries.now)) }
    {
        let size = variables.checked_mul(2).ok_or(AllocError)?;
        let mut search = Search {
            store: Store::new(alloc),
            watchers: Watchers::new(alloc, size)?,
            trail: Trail::new(alloc, variables)?,
        };
        for entry in entries {
            search.store_clause(entry.lits())?;
        }
        Ok(search)
    }

    // Puts a clause at the end of the store. No literal watches it.
    fn store_clause(&mut self, lits: &[Lit]) -> Mem<()>
        requires { IsWithin self.old.trail.variables lits.now }
        ensures { OnOk result (Stores self.old self.new lits.now) }
    {
        let first = Lit(0);
        self.watchers.pairs.add(Pair {
            first,
            second: first,
            hint: 0,
        })?;
        self.store.push(lits)
    }

    /// Looks at each clause, and propagates.
    pub fn start(&mut self) -> Mem<Option<usize>>
        requires { IsReady self.old }
        ensures ready { IfOk result (λ found. IsReady self.new) }
        ensures finds { IfOk result (λ found. IsFound (clauses_of self.new) (trail_of self.new) found) }
        ensures ended { IfOk result (λ found. IsEnded (clauses_of self.new) self.new.watchers.pairs (trail_of self.new) found) }
        ensures keeps { (self.new.store ≡ self.old.store) × (self.new.trail.variables ≡ self.old.trail.variables) }
    {
        let conflict = start(&self.store, &mut self.watchers, &mut self.trail)?;
        if conflict.is_some() {
            return Ok(conflict);
        }
        propagate(&self.store, &mut self.watchers, &mut self.trail, 0)
    }

    /// Makes an open literal true by decision, and propagates.
    pub fn decide(&mut self, lit: Lit) -> Mem<Option<usize>>
        requires ready { IsReady self.old }
        requires settled { IsFound (clauses_of self.old) (trail_of self.old) None }
        requires ended { IsEnded (clauses_of self.old) self.old.watchers.pairs (trail_of self.old) None }
        requires within { variable_of lit < self.old.trail.variables }
        requires open { IsOpen (trail_of self.old) (length (trail_of self.old)) lit }
        ensures goes { IfOk result (λ found. GoesOn self.old self.new found) }
        ensures keeps { self.new.store ≡ self.old.store }
    {
        let from = self.trail.steps.length();
        self.trail.push(Step { lit, reason: None })?;
        propagate(&self.store, &mut self.watchers, &mut self.trail, from)
    }

    /// Takes a learned clause in: the trail is cut to where the clause forces its first literal, which is made true.
    pub fn learn(&mut self, lits: &[Lit], mark: usize, order: &mut Order) -> Mem<Option<usize>>
        requires ready { IsReady self.old }
        requires mark { IsLastDecision self.old.trail.steps mark }
        requires learned { IsLearnedClause (clauses_of self.old) (trail_of self.old) mark lits.now }
        ensures goes { IfOk result (λ found. GoesOn self.old self.new found) }
        ensures stores { OnOk result (self.new.store ≡ self.old.store ++ lits.now ∷ []) }
    {
        literal_laws();
        let limit = height(&self.trail, &lits[1..]);
        let from = first_decision(&self.trail, limit, mark);
        let place = self.store.length();
        let pair = pair_of(&self.trail, lits, limit);
        order.reopen(&self.trail, from)?;
        self.trail.cut(from);
        self.store_clause(lits)?;
        self.watchers.watch(place, pair)?;
        self.trail.push(Step {
            lit: lits[0],
            reason: Some(place),
        })?;
        propagate(&self.store, &mut self.watchers, &mut self.trail, from)
    }

    /// Takes all decisions back.
    pub fn restart(&mut self, order: &mut Order) -> Mem<()>
        requires ready { IsReady self.old }
        requires settled { IsFound (clauses_of self.old) (trail_of self.old) None }
        requires ended { IsEnded (clauses_of self.old) self.old.watchers.pairs (trail_of self.old) None }
        ensures ready { IsReady self.new }
        ensures settled { IsFound (clauses_of self.new) (trail_of self.new) None }
        ensures ended { IsEnded (clauses_of self.new) self.new.watchers.pairs (trail_of self.new) None }
        ensures keeps { (self.new.store ≡ self.old.store) × (self.new.trail.variables ≡ self.old.trail.variables) }
        ensures none { OnOk result (NoDecision self.new.trail.steps) }
    {
        let Some(mark) = last_decision(&self.trail) else {
            return Ok(());
        };
        let from = first_decision(&self.trail, 0, mark);
        order.reopen(&self.trail, from)?;
        self.trail.cut(from);
        Ok(())
    }

    /// The assignment that the trail gives.
    pub fn assignment(&self, alloc: Global) -> Mem<Assignment>
        requires within { AreWithin self.now.trail.variables (clauses_of self.now) }
        requires settled { IsFound (clauses_of self.now) (trail_of self.now) None }
        requires given { AllGiven self.now.trail.variables (trail_of self.now) }
        ensures number { IfOk result (λ a. length a.values ≡ self.now.trail.variables) }
        ensures satisfies { IfOk result (λ a. Satisfies (value_at a.values) (clauses_of self.now)) }
    {
        literal_laws();
        let mut values = List::new(alloc);
        for variable in 0..self.trail.variables {
            let lit = Lit::new(variable as u64, false);
            values.add(self.trail.place_of(lit).is_some())?;
        }
        Ok(Assignment { values })
    }
}
