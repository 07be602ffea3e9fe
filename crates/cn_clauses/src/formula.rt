// Formulas in conjunctive normal form.
ghost use Rattle.std.specs.Prelude.{◌≡◌, ◌+◌, ◌<◌, ◌∷◌, [], ◌++◌, true, false, length, take, ◌-◌, Some, None, OnOk, OnErr, IfOk, IfErr, IfSome, IfNone, IsTrue, ◌↔◌, nat_lt, map};
ghost use Rattle.std.specs.List.{list_all};
ghost use Rattle.cn_clauses.specs.declared.lit.Lit.{Lit};
ghost use Rattle.cn_clauses.specs.Clauses.{lits_of_all, IsFixed, AreClausesBelow-prop};
ghost use Rattle.cn_clauses.specs.Literals.{variable_of, literal, lit_value};
ghost use Rattle.cn_clauses.specs.Satisfaction.{Satisfies, IsClauseBelow, AreClausesBelow};

use crate::clause::Clause;
use crate::lit::Lit;
use jv_list::{List, Mem};
use std::alloc::{AllocError, Global};
use std::mem;

/// A conjunction of clauses.
#[derive(Debug, Drop)]
pub struct Formula {
    /// An entry for each variable, without a meaning.
    pub variables: List<bool>,
    pub clauses: List<Clause>,
    truth: Option<Lit>,
    pub ghost named: { AreClausesBelow (length variables) (lits_of_all clauses) } by { AreClausesBelow-prop (length variables) (lits_of_all clauses) },
    pub ghost fixed: { IsFixed (length variables) (lits_of_all clauses) truth },
}

impl Formula {
    ghost use Rattle.cn_clauses.specs.Formulas.{variables_of, clauses_of, known_of, constant_of, GetsTruth};
    ghost use Rattle.cn_clauses.specs.Extension.{Continues, Extends, IsFresh, Shows};

    /// No variable and no clause. It takes no memory.
    pub fn new(alloc: Global) -> Formula
        ensures variables { variables_of result ≡ 0 }
        ensures clauses { clauses_of result ≡ [] }
        ensures known { known_of result ≡ None }
    {
        Formula {
            variables: List::new(alloc),
            clauses: List::new(alloc),
            truth: None,
        }
    }

    /// A new variable, not negated.
    pub fn fresh(&mut self) -> Mem<Lit>
        ensures lit { IfOk result (λ lit. lit ≡ literal (variables_of self.old) false) }
        ensures variables { OnOk result (variables_of self.new ≡ variables_of self.old + 1) }
        ensures clauses { clauses_of self.new ≡ clauses_of self.old }
        ensures known { known_of self.new ≡ known_of self.old }
        ensures input { IfOk result (λ lit. IsFresh self.old self.new lit) }
        ensures unchanged { OnErr result (self.new ≡ self.old) }
    {
        let variable = self.variables.as_slice().len();
        match self.variables.push(false) {
            Ok(()) => Ok(Lit::new(variable as u64, false)),
            Err(_) => Err(AllocError),
        }
    }

    /// Whether the literals are of variables of this formula.
    pub fn covers(&self, lits: &[Lit]) -> bool
        ensures { IsTrue result ↔ IsClauseBelow (variables_of self.now) lits.now }
    {
        let variables = self.variables.length() as u64;
        are_below(variables, lits)
    }

    /// Puts a clause at the end. For want of memory the formula stays, and the clause is handed back.
    pub fn push(&mut self, clause: Clause) -> Result<(), Clause>
        requires { IsClauseBelow (variables_of self.old) clause.lits }
        ensures ok { OnOk result (clauses_of self.new ≡ clauses_of self.old ++ clause.lits ∷ []) }
        ensures variables { variables_of self.new ≡ variables_of self.old }
        ensures known { known_of self.new ≡ known_of self.old }
        ensures keeps { Continues self.old self.new }
        ensures unchanged { OnErr result (self.new ≡ self.old) }
        ensures back { IfErr result (λ back. back ≡ clause) }
    {
        self.clauses.push(clause)
    }

    /// Puts the clause of these literals at the end.
    pub fn push_lits(&mut self, alloc: Global, lits: &[Lit]) -> Mem<()>
        requires { IsClauseBelow (variables_of self.old) lits.now }
        ensures ok { OnOk result (clauses_of self.new ≡ clauses_of self.old ++ lits.now ∷ []) }
        ensures variables { variables_of self.new ≡ variables_of self.old }
        ensures known { known_of self.new ≡ known_of self.old }
        ensures keeps { Continues self.old self.new }
        ensures unchanged { OnErr result (self.new ≡ self.old) }
    {
        let lits = List::from_vec(Vec::from_slice(alloc, lits)?);
        match self.push(Clause { lits }) {
            Ok(()) => Ok(()),
            Err(_) => Err(AllocError),
        }
    }

    /// Puts the clauses of these literals at the end, in order. For want of memory some of them may be there.
    pub fn push_all(&mut self, alloc: Global, clauses: &[&[Lit]]) -> Mem<()>
        requires { AreClausesBelow (variables_of self.old) (map (λ lits. lits.now) clauses.now) }
        ensures ok { OnOk result (clauses_of self.new ≡ clauses_of self.old ++ map (λ lits. lits.now) clauses.now) }
        ensures variables { variables_of self.new ≡ variables_of self.old }
        ensures known { known_of self.new ≡ known_of self.old }
        ensures keeps { Continues self.old self.new }
    {
        for lits in clauses {
            self.push_lits(alloc, lits)?;
        }
        Ok(())
    }

    /// The literal that the formula knows to be true, if it was asked for one.
    pub fn known(&self) -> Option<Lit>
        ensures { result ≡ known_of self.now }
    {
        self.truth
    }

    /// The value of a literal that is the known one or its opposite.
    pub fn constant(&self, lit: Lit) -> Option<bool>
        ensures value { result ≡ constant_of (known_of self.now) lit }
        ensures shows { IfSome result (λ value. Shows self.now lit (λ a. value)) }
    {
        let known = self.truth?;
        if lit == known {
            Some(true)
        } else if lit == known.opposite() {
            Some(false)
        } else {
            None
        }
    }

    /// The literal that the formula knows to be true. The first call adds a variable and the clause of its literal alone.
    pub fn truth(&mut self, alloc: Global) -> Mem<Lit>
        ensures again { IfSome (known_of self.old) (λ known. (self.new ≡ self.old) × (result ≡ Ok known)) }
        ensures first { IfNone (known_of self.old) (IfOk result (λ lit. GetsTruth self.old self.new lit)) }
        ensures known { IfOk result (λ lit. known_of self.new ≡ Some lit) }
        ensures shows { IfOk result (λ lit. Shows self.new lit (λ a. true)) }
        ensures extends { Extends self.old self.new }
        ensures unchanged { OnErr result (self.new ≡ self.old) }
    {
        if let Some(known) = self.truth {
            return Ok(known);
        }
        let variable = self.variables.as_slice().len();
        let lit = Lit::new(variable as u64, false);
        let unit = Clause {
            lits: List::from_vec(Vec::from_slice(alloc, &[lit])?),
        };
        let Ok(()) = self.variables.push(false) else {
            return Err(AllocError);
        };
        match self.clauses.push(unit) {
            Ok(()) => {
                self.truth = Some(lit);
                Ok(lit)
            }
            Err(_) => {
                forget_last(alloc, &mut self.variables);
                Err(AllocError)
            }
        }
    }
}

fn are_below(variables: u64, lits: &[Lit]) -> bool
    ensures { result ≡ list_all (λ (lit : Lit). nat_lt (variable_of lit) variables) lits.now }
{
    lits.iter().all(|lit| lit.variable() < variables)
}

// The list without its last entry.
fn forget_last(alloc: Global, entries: &mut List<bool>)
    ensures { entries.new ≡ take (length entries.old - 1) entries.old }
{
    let mut items = mem::replace(entries, List::new(alloc)).into_vec();
    let _ = items.pop();
    *entries = List::from_vec(items);
}
