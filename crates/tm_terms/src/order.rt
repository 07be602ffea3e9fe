// Operations whose operands may change places.
ghost use Rattle.std.specs.Prelude.{◌≡◌, false, List as list_of};
ghost use Rattle.tm_terms.specs.declared.op.Op.{Op as OpOf};
ghost use Rattle.tm_terms.specs.Terms.{Fits, is_free};
ghost use Rattle.tm_terms.specs.Rules.{Replaces};

use crate::op::Op;

// The operation with the earlier operand first, where its operands may change places.
#[tactic(auto, using(crate::proofs::OrderRules::ordered_rules, crate::proofs::MakeLemmas::replaces_itself))]
pub(crate) fn ordered(op: Op) -> Op
    ensures { (ops : list_of OpOf) → Fits ops op → is_free op ≡ false → Replaces ops op result }
{
    match op {
        Op::And(a, b) if a.0 > b.0 => Op::And(b, a),
        Op::Or(a, b) if a.0 > b.0 => Op::Or(b, a),
        Op::Equal(a, b) if a.0 > b.0 => Op::Equal(b, a),
        Op::Add(a, b) if a.0 > b.0 => Op::Add(b, a),
        Op::Mul(a, b) if a.0 > b.0 => Op::Mul(b, a),
        Op::BitAnd(a, b) if a.0 > b.0 => Op::BitAnd(b, a),
        Op::BitOr(a, b) if a.0 > b.0 => Op::BitOr(b, a),
        Op::BitXor(a, b) if a.0 > b.0 => Op::BitXor(b, a),
        _ => op,
    }
}
