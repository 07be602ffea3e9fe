// The solver: its log, and the loop of the search.
ghost use Rattle.std.specs.Prelude.{◌≡◌, ◌+◌, ◌<◌, ◌≤◌, ◌∷◌, ◌++◌, [], Some, OnOk, OnErr, IfOk};
ghost use Rattle.cn_clauses.specs.declared.lit.Lit.{Lit};
ghost use Rattle.cn_clauses.specs.Literals.{variable_of};
ghost use Rattle.cn_clauses.specs.Satisfaction.{AreClausesBelow};
ghost use Rattle.cn_clauses.specs.Clauses.{AreClausesBelow-prop};
ghost use Rattle.cn_clauses.specs.Formulas.{variables_of, clauses_of};
ghost use Rattle.sa_core.specs.declared.log.LogEntry.{LogEntry};
ghost use Rattle.sa_core.specs.SpentLog.{all_clauses, added_clauses, learned_count, AreLearnable, IsLearnable};
ghost use Rattle.sa_core.specs.LogView.{LearnedHold, added_all, variables_with, Learns, LearnsOne};

use crate::analyze::analyze;
use crate::decide::{last_decision, open_literal};
use crate::log::{Log, LogEntry};
use crate::order::Order;
use crate::restarts::Restarts;
use crate::search::Search;
use cn_clauses::{Assignment, Clause, Formula, Lit, literal_laws, propagation_laws};
use jv_list::{List, Mem, TryCopy};
use std::alloc::Global;

/// The answer of a solver.
#[derive(Debug, Drop)]
pub enum Solved {
    /// An assignment that satisfies all added clauses, with a value for each variable.
    Sat(Assignment),
    /// No assignment satisfies the added clauses.
    Unsat,
    /// As many clauses were learned as the budget allows.
    Spent,
    NoMemory,
}

/// A solver that learns clauses, and keeps them.
#[derive(Debug, Drop)]
pub struct Solver {
    alloc: Global,
    variables: usize,
    log: Log,
    pub ghost named: { AreClausesBelow variables (all_clauses log.entries) } by { AreClausesBelow-prop variables (all_clauses log.entries) },
    pub ghost holds: { LearnedHold log.entries },
    pub ghost learnable: { ∥ AreLearnable variables log.entries ∥₁ },
}

impl Solver {
    ghost use Rattle.sa_core.specs.Solvers.{number_of, entries_of};
    ghost use Rattle.sa_core.specs.Answers.{IsAnswered, IsWithinBudget, IsLeft};
    ghost use Rattle.sa_core.specs.SolverView.{IsLastDecision};
    ghost use Rattle.sa_core.specs.SearchView.{IsSearching, reached};

    /// A solver whose added clauses are those of a formula.
    pub fn new(alloc: Global, formula: &Formula) -> Mem<Solver>
        ensures variables { IfOk result (λ solver. number_of solver ≡ variables_of formula.now) }
        ensures entries { IfOk result (λ solver. entries_of solver ≡ added_all formula.now.clauses) }
        ensures added { IfOk result (λ solver. added_clauses (entries_of solver) ≡ clauses_of formula.now) }
        ensures count { IfOk result (λ solver. learned_count (entries_of solver) ≡ 0) }
    {
        let mut entries = List::new(alloc);
        for clause in formula.clauses.as_slice() {
            entries.add(LogEntry::Added(clause.copy(alloc)?))?;
        }
        Ok(Solver {
            alloc,
            variables: formula.variables.length(),
            log: Log { entries },
        })
    }

    /// Adds a clause, and the variables that it names for the first time. For want of memory the solver stays.
    pub fn add(&mut self, clause: &Clause) -> Mem<()>
        ensures variables { OnOk result (number_of self.new ≡ variables_with (number_of self.old) clause.now.lits) }
        ensures entries { OnOk result (entries_of self.new ≡ entries_of self.old ++ LogEntry.Added clause.now ∷ []) }
        ensures added { OnOk result (added_clauses (entries_of self.new) ≡ added_clauses (entries_of self.old) ++ clause.now.lits ∷ []) }
        ensures count { learned_count (entries_of self.new) ≡ learned_count (entries_of self.old) }
        ensures unchanged { OnErr result (self.new ≡ self.old) }
    {
        let copy = clause.copy(self.alloc)?;
        let variables = variables_named(self.variables, clause.lits.as_slice());
        self.log.entries.add(LogEntry::Added(copy))?;
        self.variables = variables;
        Ok(())
    }

    /// Searches for an assignment that satisfies all added clauses, until so many clauses were learned over all calls;
    /// with budget 0 until one is found or there is none. After `NoMemory` it may be called again.
    pub fn solve(&mut self, budget: u32) -> Solved
        requires { IsWithinBudget budget (entries_of self.old) }
        ensures answer { IsAnswered (number_of self.old) (added_clauses (entries_of self.old)) (entries_of self.new) budget result }
        ensures learns { Learns (entries_of self.old) (entries_of self.new) }
        ensures added { added_clauses (entries_of self.new) ≡ added_clauses (entries_of self.old) }
        ensures within { IsWithinBudget budget (entries_of self.new) }
        ensures variables { number_of self.new ≡ number_of self.old }
    {
        match self.run(budget) {
            Ok(solved) => solved,
            Err(_) => Solved::NoMemory,
        }
    }

    /// The clauses that were added and learned, in order.
    pub fn log(&self) -> &Log
        ensures entries { result.now.entries ≡ entries_of self.now }
        ensures learnable { ∥ AreLearnable (number_of self.now) (entries_of self.now) ∥₁ }
    {
        &self.log
    }

    // How many more clauses may be learned.
    fn left(&self, budget: u32) -> usize
        requires { IsWithinBudget budget (entries_of self.now) }
        ensures { IsLeft budget (entries_of self.now) result }
    {
        let learned = self
            .log
            .entries
            .iter()
            .filter(|entry| entry.is_learned())
            .count();
        (budget as usize).saturating_sub(learned)
    }

    // Puts a learned clause at the end of the log.
    fn record(&mut self, lits: &List<Lit>) -> Mem<()>
        requires { IsLearnable (number_of self.old) (entries_of self.old) lits.now }
        ensures entries { OnOk result (LearnsOne (entries_of self.old) (entries_of self.new) lits.now) }
        ensures variables { number_of self.new ≡ number_of self.old }
        ensures unchanged { OnErr result (entries_of self.new ≡ entries_of self.old) }
    {
        let lits = lits.copy(self.alloc)?;
        self.log.entries.add(LogEntry::Learned(Clause { lits }))
    }

    // The search, from an empty trail.
    fn run(&mut self, budget: u32) -> Mem<Solved>
        requires { IsWithinBudget budget (entries_of self.old) }
        ensures answer { IfOk result (IsAnswered (number_of self.old) (added_clauses (entries_of self.old)) (entries_of self.new) budget) }
        ensures learns { Learns (entries_of self.old) (entries_of self.new) }
        ensures within { IsWithinBudget budget (entries_of self.new) }
        ensures variables { number_of self.new ≡ number_of self.old }
    {
        propagation_laws();
        let mut left = self.left(budget);
        let mut search = Search::new(self.alloc, self.variables, self.log.entries.as_slice())?;
        let mut order = Order::new(self.alloc, self.variables)?;
        let mut restarts = Restarts::new();
        let mut found = search.start()?;
        loop {
            match found {
                Some(conflict) => {
                    let Some(mark) = last_decision(&search.trail) else {
                        return Ok(Solved::Unsat);
                    };
                    if budget != 0 {
                        if left == 0 {
                            return Ok(Solved::Spent);
                        }
                        left -= 1;
                    }
                    restarts.count();
                    found = self.learn(&mut search, &mut order, conflict, mark)?;
                }
                None if restarts.are_due() => {
                    restarts.advance();
                    search.restart(&mut order)?;
                }
                None => {
                    let Some(lit) = open_literal(&search.trail, &mut order) else {
                        return Ok(Solved::Sat(search.assignment(self.alloc)?));
                    };
                    found = search.decide(lit)?;
                }
            }
        }
    }

    // Learns a clause from the false one at a place, puts it into the log, and goes on with it.
    fn learn(
        &mut self,
        search: &mut Search,
        order: &mut Order,
        conflict: usize,
        mark: usize,
    ) -> Mem<Option<usize>>
        requires searching { IsSearching search.old (number_of self.old) (all_clauses (entries_of self.old)) (Some conflict) }
        requires mark { IsLastDecision search.old.trail.steps mark }
        ensures goes { IfOk result (λ found. IsSearching search.new (number_of self.new) (all_clauses (entries_of self.new)) found) }
        ensures rises { OnOk result (reached search.old < reached search.new) }
        ensures learns { Learns (entries_of self.old) (entries_of self.new) }
        ensures count { OnOk result (learned_count (entries_of self.new) ≡ learned_count (entries_of self.old) + 1) }
        ensures within { learned_count (entries_of self.new) ≤ learned_count (entries_of self.old) + 1 }
        ensures variables { number_of self.new ≡ number_of self.old }
    {
        literal_laws();
        propagation_laws();
        let lits = analyze(
            self.alloc,
            &search.store,
            &search.trail,
            conflict,
            mark,
            order,
        )?;
        self.record(&lits)?;
        order.age();
        search.learn(lits.as_slice(), mark, order)
    }
}

// The number of variables, with those that these literals name.
fn variables_named(count: usize, lits: &[Lit]) -> usize
    ensures { result ≡ variables_with count lits.now }
{
    let mut variables = count;
    for lit in lits {
        variables = variables.max(least_count(*lit));
    }
    variables
}

// The least number of variables with that of a literal.
#[tactic(auto, unfolding(cn_clauses::specs::Literals::variable_of))]
fn least_count(lit: Lit) -> usize
    ensures { result ≡ variable_of lit + 1 }
{
    lit.variable() as usize + 1
}
