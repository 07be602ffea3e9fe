// Operations, and the terms that they are applied to.
ghost use Rattle.std.specs.Prelude.{◌≡◌};

use crate::sort::Sort;
use jv_base::List;

/// The place of a term in its bank.
#[derive(Clone, Copy, Debug, PartialEq, Eq, Hash)]
pub struct TermId(pub u64);

/// What a term is: an input, a constant, or an operation on terms that stand before it.
#[derive(Clone, Copy, Debug, PartialEq, Eq, Hash)]
pub enum Op {
    Free(Sort),
    Const(Sort, u64),
    Not(TermId),
    And(TermId, TermId),
    Or(TermId, TermId),
    If(TermId, TermId, TermId),
    Equal(TermId, TermId),
    Add(TermId, TermId),
    Sub(TermId, TermId),
    Mul(TermId, TermId),
    Div(TermId, TermId),
    Rem(TermId, TermId),
    Shl(TermId, TermId),
    Shr(TermId, TermId),
    Ushr(TermId, TermId),
    BitAnd(TermId, TermId),
    BitOr(TermId, TermId),
    BitXor(TermId, TermId),
    Less(TermId, TermId),
    Below(TermId, TermId),
    Widen(Sort, TermId),
    WidenZero(Sort, TermId),
    Cut(Sort, TermId),
}

/// A text: its length, and its units, of which those below the length count.
#[derive(Debug, Drop)]
pub struct StrTerm {
    pub length: TermId,
    pub units: List<TermId>,
}

/// The terms that an operation is applied to, in order.
#[derive(Clone, Copy, Debug)]
pub enum Operands {
    Nothing,
    One(TermId),
    Two(TermId, TermId),
    Three(TermId, TermId, TermId),
}

impl Op {
    ghost use Rattle.tm_terms.specs.Operations.{operands_of, sort_over};
    ghost use Rattle.tm_terms.specs.Terms.{is_free};

    /// The operands, in order.
    pub fn operands(self) -> Operands
        ensures { result ≡ operands_of self }
    {
        match self {
            Op::Free(_) | Op::Const(_, _) => Operands::Nothing,
            Op::Not(a) | Op::Widen(_, a) | Op::WidenZero(_, a) | Op::Cut(_, a) => Operands::One(a),
            Op::If(c, a, b) => Operands::Three(c, a, b),
            Op::And(a, b)
            | Op::Or(a, b)
            | Op::Equal(a, b)
            | Op::Add(a, b)
            | Op::Sub(a, b)
            | Op::Mul(a, b)
            | Op::Div(a, b)
            | Op::Rem(a, b)
            | Op::Shl(a, b)
            | Op::Shr(a, b)
            | Op::Ushr(a, b)
            | Op::BitAnd(a, b)
            | Op::BitOr(a, b)
            | Op::BitXor(a, b)
            | Op::Less(a, b)
            | Op::Below(a, b) => Operands::Two(a, b),
        }
    }

    /// Whether the term is an input.
    pub fn is_free(self) -> bool
        ensures { result ≡ is_free self }
    {
        matches!(self, Op::Free(_))
    }

    /// The sort, where the first and the second operand have the sorts `s` and `t`.
    pub(crate) fn sort_over(self, s: Sort, t: Sort) -> Sort
        ensures { result ≡ sort_over s t self }
    {
        match self {
            Op::Free(u) | Op::Const(u, _) | Op::Widen(u, _) | Op::WidenZero(u, _) | Op::Cut(u, _) =>
                { u }
            Op::Not(_)
            | Op::And(_, _)
            | Op::Or(_, _)
            | Op::Equal(_, _)
            | Op::Less(_, _)
            | Op::Below(_, _) => Sort::Bool,
            Op::If(_, _, _) => t,
            _ => s,
        }
    }
}
