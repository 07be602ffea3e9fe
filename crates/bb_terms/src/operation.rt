// The literals of a term, from those of its operands.
ghost use Rattle.std.specs.Prelude.{◌≡◌, ◌+◌, ◌-◌, ◌%◌, ◌^◌, ◌<◌, ◌≤◌, ◌==◌, ◌∷◌, [], true, false, length, IfOk, if◌then◌else◌};
ghost use Rattle.std.specs.Prelude.{List as list_of};
ghost use Rattle.cn_clauses.specs.declared.lit.Lit.{Lit};
ghost use Rattle.bb_gates.specs.Growth.{IsConservative};
ghost use Rattle.tm_terms.specs.Words.{width_of};
ghost use Rattle.jv_list.specs.Numbers.{bit_number, signed_number, wrapped_number};
ghost use Rattle.tm_terms.specs.Operations.{operands_of};
ghost use Rattle.tm_terms.specs.Terms.{term_sort, term_value, op_sort, op_value, is_free, Fits};
ghost use Rattle.tm_terms.specs.declared.sort.Sort.TheVariants.{Bool as Truth};
ghost use Rattle.bb_terms.specs.Tables.{HasWord, HasSome, IsTable};
ghost use Rattle.bb_terms.specs.Calls.Words.{arithmetic_number, bits_number, is_in_order};
ghost use Rattle.bb_terms.specs.Calls.Terms.{IsTermWord, AreReady};

use crate::arithmetic::{WordOp, arithmetic};
use crate::bits::{BitOp, bitwise, equal};
use crate::choice::chosen_word;
use crate::constant::constant_word;
use crate::order::order;
use crate::widths::longer;
use bb_gates::{constant_lit, growth_laws};
use cn_clauses::{Formula, Lit, extension_laws, literal_laws};
use jv_list::{List, Mem};
use std::alloc::Global;
use tm_terms::{Bank, Op, Sort, TermId, term_laws};

// The literals that a table has for a term.
pub(crate) fn word_at(words: &[Option<List<Lit>>], id: TermId) -> &[Lit]
    requires { HasSome words.now id.0 }
    ensures { HasWord words.now id.0 result.now }
{
    match words.get(id.0 as usize) {
        Some(Some(lits)) => lits.as_slice(),
        _ => &[],
    }
}

// The literal of a word of one bit.
fn lit_at(words: &[Option<List<Lit>>], id: TermId) -> Lit
    requires some { HasSome words.now id.0 }
    requires wide { (lits : list_of Lit) → HasWord words.now id.0 lits → length lits ≡ 1 }
    ensures { HasWord words.now id.0 (result ∷ []) }
{
    let lits = word_at(words, id);
    lits[0]
}

// A literal as a word.
fn bit(alloc: Global, lit: Lit) -> Mem<List<Lit>>
    ensures { IfOk result (λ lits. lits ≡ lit ∷ []) }
{
    List::copied(alloc, &[lit])
}

// An operation on two words of one sort.
fn arithmetic_term(
    alloc: Global,
    formula: &mut Formula,
    bank: &Bank,
    words: &[Option<List<Lit>>],
    kind: WordOp,
    operands: (TermId, TermId),
) -> Mem<List<Lit>>
    requires table { IsTable formula.old bank.now words.now }
    requires first { HasSome words.now operands.0.0 }
    requires second { HasSome words.now operands.1.0 }
    requires sorts { term_sort bank.now operands.1.0 ≡ term_sort bank.now operands.0.0 }
    ensures word { IfOk result (λ lits. IsTermWord bank.now words.now (width_of (term_sort bank.now operands.0.0)) formula.old formula.new lits (λ v. arithmetic_number (width_of (term_sort bank.now operands.0.0)) kind (term_value bank.now v operands.0.0) (term_value bank.now v operands.1.0) % 2 ^ width_of (term_sort bank.now operands.0.0))) }
    ensures keeps { IsConservative formula.old formula.new }
{
    let a = word_at(words, operands.0);
    let b = word_at(words, operands.1);
    arithmetic(alloc, formula, kind, bank.sort(operands.0), a, b)
}

// An operation on the bits of two words.
fn bits_term(
    alloc: Global,
    formula: &mut Formula,
    bank: &Bank,
    words: &[Option<List<Lit>>],
    kind: BitOp,
    operands: (TermId, TermId),
) -> Mem<List<Lit>>
    requires table { IsTable formula.old bank.now words.now }
    requires first { HasSome words.now operands.0.0 }
    requires second { HasSome words.now operands.1.0 }
    requires sorts { term_sort bank.now operands.1.0 ≡ term_sort bank.now operands.0.0 }
    ensures word { IfOk result (λ lits. IsTermWord bank.now words.now (width_of (term_sort bank.now operands.0.0)) formula.old formula.new lits (λ v. bits_number kind (term_value bank.now v operands.0.0) (term_value bank.now v operands.1.0))) }
    ensures keeps { IsConservative formula.old formula.new }
{
    let a = word_at(words, operands.0);
    let b = word_at(words, operands.1);
    bitwise(alloc, formula, kind, a, b)
}

// Whether two words of one sort are the same.
fn equal_term(
    alloc: Global,
    formula: &mut Formula,
    bank: &Bank,
    words: &[Option<List<Lit>>],
    operands: (TermId, TermId),
) -> Mem<List<Lit>>
    requires table { IsTable formula.old bank.now words.now }
    requires first { HasSome words.now operands.0.0 }
    requires second { HasSome words.now operands.1.0 }
    requires sorts { term_sort bank.now operands.1.0 ≡ term_sort bank.now operands.0.0 }
    ensures word { IfOk result (λ lits. IsTermWord bank.now words.now 1 formula.old formula.new lits (λ v. bit_number (term_value bank.now v operands.0.0 == term_value bank.now v operands.1.0))) }
    ensures keeps { IsConservative formula.old formula.new }
{
    let a = word_at(words, operands.0);
    let b = word_at(words, operands.1);
    let lit = equal(alloc, formula, a, b)?;
    bit(alloc, lit)
}

// Whether the first of two words of one sort is the lesser, with a sign or without.
fn order_term(
    alloc: Global,
    formula: &mut Formula,
    bank: &Bank,
    words: &[Option<List<Lit>>],
    signed: bool,
    operands: (TermId, TermId),
) -> Mem<List<Lit>>
    requires table { IsTable formula.old bank.now words.now }
    requires first { HasSome words.now operands.0.0 }
    requires second { HasSome words.now operands.1.0 }
    requires sorts { term_sort bank.now operands.1.0 ≡ term_sort bank.now operands.0.0 }
    ensures word { IfOk result (λ lits. IsTermWord bank.now words.now 1 formula.old formula.new lits (λ v. bit_number (is_in_order (width_of (term_sort bank.now operands.0.0)) signed (term_value bank.now v operands.0.0) (term_value bank.now v operands.1.0)))) }
    ensures keeps { IsConservative formula.old formula.new }
{
    let a = word_at(words, operands.0);
    let b = word_at(words, operands.1);
    let lit = order(alloc, formula, signed, bank.sort(operands.0), a, b)?;
    bit(alloc, lit)
}

// The opposite of a truth value.
fn not_term(
    alloc: Global,
    formula: &Formula,
    bank: &Bank,
    words: &[Option<List<Lit>>],
    operand: TermId,
) -> Mem<List<Lit>>
    requires table { IsTable formula.now bank.now words.now }
    requires operand { HasSome words.now operand.0 }
    requires sort { term_sort bank.now operand.0 ≡ Truth }
    ensures word { IfOk result (λ lits. IsTermWord bank.now words.now 1 formula.now formula.now lits (λ v. 1 - term_value bank.now v operand.0)) }
{
    literal_laws();
    extension_laws();
    bit(alloc, lit_at(words, operand).opposite())
}

// The second word where the truth value holds, and else the third.
fn choice_term(
    alloc: Global,
    formula: &mut Formula,
    bank: &Bank,
    words: &[Option<List<Lit>>],
    choice: TermId,
    arms: (TermId, TermId),
) -> Mem<List<Lit>>
    requires table { IsTable formula.old bank.now words.now }
    requires choice { HasSome words.now choice.0 }
    requires first { HasSome words.now arms.0.0 }
    requires second { HasSome words.now arms.1.0 }
    requires truth { term_sort bank.now choice.0 ≡ Truth }
    requires sorts { term_sort bank.now arms.1.0 ≡ term_sort bank.now arms.0.0 }
    ensures word { IfOk result (λ lits. IsTermWord bank.now words.now (width_of (term_sort bank.now arms.0.0)) formula.old formula.new lits (λ v. if term_value bank.now v choice.0 == 0 then term_value bank.now v arms.1.0 else term_value bank.now v arms.0.0)) }
    ensures keeps { IsConservative formula.old formula.new }
{
    let c = lit_at(words, choice);
    let a = word_at(words, arms.0);
    let b = word_at(words, arms.1);
    chosen_word(alloc, formula, c, a, b)
}

// The word of a signed number in more bits.
fn widened_term(
    alloc: Global,
    formula: &Formula,
    bank: &Bank,
    words: &[Option<List<Lit>>],
    sort: Sort,
    operand: TermId,
) -> Mem<List<Lit>>
    requires table { IsTable formula.now bank.now words.now }
    requires operand { HasSome words.now operand.0 }
    requires sort { width_of (term_sort bank.now operand.0) ≤ width_of sort }
    ensures word { IfOk result (λ lits. IsTermWord bank.now words.now (width_of sort) formula.now formula.now lits (λ v. wrapped_number (width_of sort) (signed_number (width_of (term_sort bank.now operand.0)) (term_value bank.now v operand.0)))) }
{
    extension_laws();
    let a = word_at(words, operand);
    longer(alloc, a, a[a.len() - 1], sort.width())
}

// The word of a number in more bits.
fn widened_zero_term(
    alloc: Global,
    formula: &mut Formula,
    bank: &Bank,
    words: &[Option<List<Lit>>],
    sort: Sort,
    operand: TermId,
) -> Mem<List<Lit>>
    requires table { IsTable formula.old bank.now words.now }
    requires operand { HasSome words.now operand.0 }
    requires sort { width_of (term_sort bank.now operand.0) ≤ width_of sort }
    ensures word { IfOk result (λ lits. IsTermWord bank.now words.now (width_of sort) formula.old formula.new lits (λ v. term_value bank.now v operand.0)) }
    ensures keeps { IsConservative formula.old formula.new }
{
    let zero = constant_lit(alloc, formula, false)?;
    longer(alloc, word_at(words, operand), zero, sort.width())
}

// The lowest bits of a word.
fn cut_term(
    alloc: Global,
    formula: &Formula,
    bank: &Bank,
    words: &[Option<List<Lit>>],
    sort: Sort,
    operand: TermId,
) -> Mem<List<Lit>>
    requires table { IsTable formula.now bank.now words.now }
    requires operand { HasSome words.now operand.0 }
    requires sort { width_of sort ≤ width_of (term_sort bank.now operand.0) }
    ensures word { IfOk result (λ lits. IsTermWord bank.now words.now (width_of sort) formula.now formula.now lits (λ v. term_value bank.now v operand.0 % 2 ^ width_of sort)) }
{
    extension_laws();
    let mut lits = List::copied(alloc, word_at(words, operand))?;
    lits.truncate(sort.width() as usize);
    Ok(lits)
}

// The literals of a term that is not free, from those of its operands.
pub(crate) fn operation(
    alloc: Global,
    formula: &mut Formula,
    bank: &Bank,
    words: &[Option<List<Lit>>],
    op: Op,
) -> Mem<List<Lit>>
    requires table { IsTable formula.old bank.now words.now }
    requires fits { Fits bank.now op }
    requires ready { AreReady words.now (operands_of op) }
    requires kept { is_free op ≡ false }
    ensures word { IfOk result (λ lits. IsTermWord bank.now words.now (width_of (op_sort bank.now op)) formula.old formula.new lits (λ v. op_value bank.now v op)) }
    ensures keeps { IsConservative formula.old formula.new }
{
    growth_laws();
    extension_laws();
    term_laws();
    match op {
        Op::Free(_) => Ok(List::new(alloc)),
        Op::Const(sort, number) => constant_word(alloc, formula, sort.width(), number),
        Op::Not(a) => not_term(alloc, formula, bank, words, a),
        Op::And(a, b) => bits_term(alloc, formula, bank, words, BitOp::And, (a, b)),
        Op::Or(a, b) => bits_term(alloc, formula, bank, words, BitOp::Or, (a, b)),
        Op::If(c, a, b) => choice_term(alloc, formula, bank, words, c, (a, b)),
        Op::Equal(a, b) => equal_term(alloc, formula, bank, words, (a, b)),
        Op::Below(a, b) => order_term(alloc, formula, bank, words, false, (a, b)),
        Op::Less(a, b) => order_term(alloc, formula, bank, words, true, (a, b)),
        Op::Add(a, b) => arithmetic_term(alloc, formula, bank, words, WordOp::Add, (a, b)),
        Op::Sub(a, b) => arithmetic_term(alloc, formula, bank, words, WordOp::Sub, (a, b)),
        Op::Mul(a, b) => arithmetic_term(alloc, formula, bank, words, WordOp::Mul, (a, b)),
        Op::Div(a, b) => arithmetic_term(alloc, formula, bank, words, WordOp::Div, (a, b)),
        Op::Rem(a, b) => arithmetic_term(alloc, formula, bank, words, WordOp::Rem, (a, b)),
        Op::Shl(a, b) => arithmetic_term(alloc, formula, bank, words, WordOp::Shl, (a, b)),
        Op::Shr(a, b) => arithmetic_term(alloc, formula, bank, words, WordOp::Shr, (a, b)),
        Op::Ushr(a, b) => arithmetic_term(alloc, formula, bank, words, WordOp::Ushr, (a, b)),
        Op::BitAnd(a, b) => bits_term(alloc, formula, bank, words, BitOp::And, (a, b)),
        Op::BitOr(a, b) => bits_term(alloc, formula, bank, words, BitOp::Or, (a, b)),
        Op::BitXor(a, b) => bits_term(alloc, formula, bank, words, BitOp::Xor, (a, b)),
        Op::Widen(sort, a) => widened_term(alloc, formula, bank, words, sort, a),
        Op::WidenZero(sort, a) => widened_zero_term(alloc, formula, bank, words, sort, a),
        Op::Cut(sort, a) => cut_term(alloc, formula, bank, words, sort, a),
    }
}
