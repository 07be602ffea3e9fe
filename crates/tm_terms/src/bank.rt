// A bank of terms.
ghost use Rattle.std.specs.Prelude.{◌≡◌, ◌<◌, ◌+◌, ◌^◌, [], ◌∷◌, ◌++◌, ℕ, true, false, length, slice_get, Some, None, IfOk, OnOk, IfSome, IfNone, OnErr, ◌⊎◌};
ghost use Rattle.tm_terms.specs.declared.op.Op.TheVariants.{Free};

use crate::chain::more_by;
use crate::fold::{simplified, sort_of};
use crate::op::{Op, TermId};
use crate::places::{copied, place_of, put_at};
use crate::rewrite::rewritten;
use crate::same::same_term;
use crate::sort::Sort;
use crate::values::{Valuation, first_values};
use jv_base::{List, Mem};
use std::alloc::{AllocError, Global};
use std::collections::HashMap;
use std::marker::Model;

/// Terms over one another, each at its place. Contracts see a bank as the list of its operations.
#[derive(Drop)]
pub struct Bank {
    ops: List<Op>,
    sorts: List<Sort>,
    places: HashMap<Op, u64>,
}

impl Model for Bank {
    ghost use Rattle.std.specs.Prelude.{List as list_of};
    ghost use Rattle.tm_terms.specs.declared.op.Op.{Op};

    ghost Value = { list_of Op };

    ghost use Rattle.tm_terms.specs.BankView.{IsBank};

    ghost view = { λ b. b.ops };

    ghost invariant = { λ b. IsBank b.ops b.sorts b.places };
}

// Puts an operation and its sort at the end.
fn push_both(ops: &mut List<Op>, sorts: &mut List<Sort>, op: Op, sort: Sort) -> Mem<()>
    ensures ops { OnOk result (ops.new ≡ ops.old ++ op ∷ []) }
    ensures sorts { OnOk result (sorts.new ≡ sorts.old ++ sort ∷ []) }
    ensures unchanged { OnErr result ((ops.new ≡ ops.old) × (sorts.new ≡ sorts.old)) }
{
    let count = ops.length();
    ops.add(op)?;
    if sorts.add(sort).is_err() {
        ops.truncate(count);
        return Err(AllocError);
    }
    Ok(())
}

impl Bank {
    ghost use Rattle.std.specs.Prelude.{List as list_of};
    ghost use Rattle.tm_terms.specs.declared.op.Op.{Op};
    ghost use Rattle.tm_terms.specs.Operations.{operands_of};
    ghost use Rattle.tm_terms.specs.Terms.{term_sort, term_value, op_sort, op_value, Fits, Continues, is_free, free_count, AreTerms};
    ghost use Rattle.tm_terms.specs.Sharing.{on_constants, IsReduced, AreShared, AreFolded, AreReduced};
    ghost use Rattle.tm_terms.specs.Words.{width_of};
    ghost use Rattle.tm_terms.specs.Rules.{IsMade, IsMoreBy, Replaces};

    /// A bank without terms. It takes no memory.
    pub fn new(alloc: Global) -> Bank
        ensures { result ≡ [] }
    {
        Bank {
            ops: List::new(alloc),
            sorts: List::new(alloc),
            places: HashMap::new(alloc),
        }
    }

    /// A bank with the same terms.
    pub fn copy(&self, alloc: Global) -> Mem<Bank>
        ensures { IfOk result (λ copy. copy ≡ self.now) }
    {
        Ok(Bank {
            ops: List::copied(alloc, self.ops.as_slice())?,
            sorts: List::copied(alloc, self.sorts.as_slice())?,
            places: copied(&self.places)?,
        })
    }

    /// How many terms there are. Their places are the numbers below that.
    pub fn count(&self) -> u64
        ensures { result ≡ length self.now }
    {
        self.ops.length() as u64
    }

    /// The operation that stands at a place.
    pub fn op(&self, id: TermId) -> &Op
        requires { id.0 < length self.now }
        ensures { slice_get self.now id.0 ≡ Some result.now }
    {
        self.ops.at(id.0 as usize)
    }

    /// The sort of a term.
    pub fn sort(&self, id: TermId) -> Sort
        requires { id.0 < length self.now }
        ensures { result ≡ term_sort self.now id.0 }
    {
        *self.sorts.at(id.0 as usize)
    }

    /// What holds of every bank.
    pub fn laws(&self)
        ensures terms { AreTerms self.now }
        ensures shared { AreShared self.now }
        ensures folded { AreFolded self.now }
        ensures reduced { AreReduced self.now }
    {
        let _ = &self.ops;
    }

    /// The value of a term under a valuation. It takes time and memory for each term up to its place.
    pub fn value(&self, alloc: Global, v: &Valuation, id: TermId) -> Mem<u64>
        requires { id.0 < length self.now }
        ensures { IfOk result (λ number. number ≡ term_value self.now v.now.numbers id.0) }
    {
        let last = id.0 as usize;
        let ops = self.ops.as_slice();
        let sorts = self.sorts.as_slice();
        let values = first_values(alloc, ops, sorts, v.numbers.as_slice(), last + 1)?;
        Ok(*values.at(last))
    }

    // A new free term.
    fn add_free(&mut self, sort: Sort) -> Mem<TermId>
        ensures ok { OnOk result (self.new ≡ self.old ++ Free sort ∷ []) }
        ensures made { IfOk result (λ id. IsMade self.old self.new (Free sort) id) }
        ensures keeps { Continues self.old self.new }
    {
        let place = self.ops.length() as u64;
        push_both(&mut self.ops, &mut self.sorts, Op::Free(sort), sort)?;
        Ok(TermId(place))
    }

    // The place of an operation of this sort, which is put at the end if it has none.
    fn share(&mut self, op: Op, sort: Sort) -> Mem<TermId>
        requires fits { Fits self.old op }
        requires sort { sort ≡ op_sort self.old op }
        requires kept { is_free op ≡ false }
        requires folded { on_constants self.old (operands_of op) ≡ false }
        requires reduced { IsReduced op }
        ensures made { (of : Op) → Replaces self.old of op → is_free of ≡ false → IfOk result (λ id. IsMade self.old self.new of id) }
        ensures keeps { Continues self.old self.new }
    {
        if let Some(place) = place_of(&self.places, op) {
            return Ok(TermId(place));
        }
        let count = self.ops.length();
        push_both(&mut self.ops, &mut self.sorts, op, sort)?;
        match put_at(&mut self.places, op, count as u64) {
            Ok(()) => Ok(TermId(count as u64)),
            Err(refused) => {
                self.ops.truncate(count);
                self.sorts.truncate(count);
                Err(refused)
            }
        }
    }

    // A term with the value of the operation, by the rules that make no term on the way.
    fn simplest(&mut self, op: Op) -> Mem<TermId>
        requires fits { Fits self.old op }
        requires kept { is_free op ≡ false }
        ensures made { IfOk result (λ id. IsMade self.old self.new op id) }
        ensures keeps { Continues self.old self.new }
    {
        let op = rewritten(self, op);
        if let Some(id) = same_term(self, op) {
            return Ok(id);
        }
        let op = simplified(self, op);
        let sort = sort_of(self, op);
        self.share(op, sort)
    }

    // The sum of a term and a constant.
    fn add_number(&mut self, x: TermId, number: u64) -> Mem<TermId>
        requires within { x.0 < length self.old }
        requires number { number < 2 ^ width_of (term_sort self.old x.0) }
        ensures made { (of : Op) → IsMoreBy self.old of x number → is_free of ≡ false → IfOk result (λ id. IsMade self.old self.new of id) }
        ensures keeps { Continues self.old self.new }
    {
        let sort = self.sort(x);
        let constant = self.share(Op::Const(sort, number), sort)?;
        self.simplest(Op::Add(x, constant))
    }

    /// A term with the value of the operation: one that stands already, one that is simpler, or a new one. That of a free
    /// term is always new, and one whose operation stands already is the one that stands. For want of memory the bank may have
    /// further terms.
    pub fn make(&mut self, op: Op) -> Mem<TermId>
        requires { Fits self.old op }
        ensures made { IfOk result (λ id. IsMade self.old self.new op id) }
        ensures keeps { Continues self.old self.new }
        ensures free { is_free op ≡ true → OnOk result (self.new ≡ self.old ++ op ∷ []) }
        ensures again { (k : ℕ) → is_free op ≡ false → slice_get self.old k ≡ Some op → (result ≡ Ok (record { 0 = k })) × (self.new ≡ self.old) }
    {
        if let Op::Free(sort) = op {
            return self.add_free(sort);
        }
        if let Some(place) = place_of(&self.places, op) {
            return Ok(TermId(place));
        }
        if let Op::Add(a, b) = op {
            if let Some((x, number)) = more_by(self, a, b) {
                return self.add_number(x, number);
            }
        }
        self.simplest(op)
    }
}
