// The values of terms.
ghost use Rattle.std.specs.Prelude.{◌≡◌, ◌<◌, ◌≤◌, ◌%◌, ◌^◌, length, IfOk, slice_index};
ghost use Rattle.tm_terms.specs.declared.sort.Sort.TheVariants.{Bool as Truth};
ghost use Rattle.tm_terms.specs.Operations.{operands_of, first_of, second_of, third_of, AreBelow};
ghost use Rattle.tm_terms.specs.Equations.{number_by};
ghost use Rattle.tm_terms.specs.Terms.{term_value, AreTerms};
ghost use Rattle.tm_terms.specs.BankView.{AreSorts};
ghost use Rattle.tm_terms.specs.Listed.{listed_sort, IsOnListed, AreValues};

use crate::numbers::Given;
use crate::op::{Op, Operands, TermId};
use crate::sort::Sort;
use jv_base::{List, Mem};
use std::alloc::Global;

/// A number for each free term of a bank, in the order of making. One that is wanting counts as 0, and each is taken
/// modulo 2 to the power of its term's width.
#[derive(Debug, Drop)]
pub struct Valuation {
    pub numbers: List<u64>,
}

// What stands at the places of the operands.
fn given_at(operands: Operands, sorts: &[Sort], numbers: &[u64]) -> Given
    requires below { AreBelow (length numbers.now) operands }
    requires enough { length numbers.now ≤ length sorts.now }
    ensures s { result.s ≡ first_of Truth (listed_sort sorts.now) operands }
    ensures t { result.t ≡ second_of Truth (listed_sort sorts.now) operands }
    ensures x { result.x ≡ first_of 0 (slice_index numbers.now) operands }
    ensures y { result.y ≡ second_of 0 (slice_index numbers.now) operands }
    ensures z { result.z ≡ third_of 0 (slice_index numbers.now) operands }
{
    let sort = |id: TermId| sorts[id.0 as usize];
    let number = |id: TermId| numbers[id.0 as usize];
    let (s, t, x, y, z) = match operands {
        Operands::Nothing => (Sort::Bool, Sort::Bool, 0, 0, 0),
        Operands::One(a) => (sort(a), Sort::Bool, number(a), 0, 0),
        Operands::Two(a, b) => (sort(a), sort(b), number(a), number(b), 0),
        Operands::Three(a, b, c) => (sort(a), sort(b), number(a), number(b), number(c)),
    };
    Given { s, t, x, y, z }
}

// The number of an operation on terms whose sorts and numbers are listed.
fn number_on(op: Op, sorts: &[Sort], numbers: &[u64], input: u64) -> u64
    requires { IsOnListed op sorts.now numbers.now }
    ensures { result ≡ number_by (listed_sort sorts.now) (slice_index numbers.now) input op }
{
    op.number_over(given_at(op.operands(), sorts, numbers), input)
}

// The number of a free term, the first one being at place 0.
fn input_at(v: &[u64], place: usize) -> u64
    ensures { result ≡ slice_index v.now place }
{
    match v.get(place) {
        Some(number) => *number,
        None => 0,
    }
}

// The values of the first terms of a bank.
pub(crate) fn first_values(
    alloc: Global,
    ops: &[Op],
    sorts: &[Sort],
    v: &[u64],
    count: usize,
) -> Mem<List<u64>>
    requires terms { AreTerms ops.now }
    requires sorts { AreSorts ops.now sorts.now }
    requires within { count ≤ length ops.now }
    ensures { IfOk result (λ numbers. AreValues ops.now v.now count numbers) }
{
    let mut numbers = List::with_capacity(alloc, count)?;
    let mut inputs = 0;
    for k in 0..count {
        let op = ops[k];
        let input = input_at(v, inputs);
        let number = number_on(op, sorts, numbers.as_slice(), input);
        numbers.add(number)?;
        if op.is_free() {
            inputs += 1;
        }
    }
    Ok(numbers)
}
