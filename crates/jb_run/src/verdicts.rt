// A verdict for each site of a thin method.
ghost use Rattle.std.specs.Prelude.{◌≡◌, ◌≤◌, ℕ, ℤ, Bool, List, length, map, IfOk};
ghost use Rattle.cf_thin.specs.Thin.{int_descriptor};
ghost use Rattle.jv_base.specs.declared.method.Bounds.{Bounds};
ghost use Rattle.cf_thin.specs.ThinCode.{HasInstrs, ThinCode};
ghost use Rattle.jb_run.specs.Verdicts.{IsVerdictBy, AreVerdictsBy};
ghost use Rattle.jb_run.specs.Justified.{AreJustified};
ghost use Rattle.jb_run.specs.Satisfies.{bit_value};
ghost use Rattle.jb_run.specs.Shown.{ShowsInt, ShowInts};
ghost use Rattle.jb_run.specs.Sites.{IsSites};
ghost use Rattle.jb_run.specs.Solved.{value_at};
ghost use Rattle.jb_run.specs.Violates.{HasInts, HaveRoom, RunsGoOn};

use crate::encoding::{Encoding, encode};
use crate::gates::Bit;
use crate::int_bits::IntBits;
use crate::report::{Line, Verdict};
use crate::sites::sites;
use crate::solver::{Answer, solve};
use cf_thin::ThinInstr;
use jv_base::{Goal, Input, List, Mem, MethodId, Tree};
use std::alloc::Global;

// The value of a bit. A variable past the list is false.
fn bit_value(assignment: &[bool], bit: Bit) -> bool
    ensures { result ≡ bit_value (value_at assignment.now) bit }
{
    match bit {
        Bit::Known(value) => value,
        Bit::Of(lit) => match assignment.get(lit.variable) {
            Some(value) => *value != lit.negated,
            None => lit.negated,
        },
    }
}

// The int that the bits show.
fn word_value(assignment: &[bool], word: &IntBits) -> i32
    ensures { ShowsInt (value_at assignment.now) word.now result }
{
    let mut pattern = 0u32;
    'bits: for i in 0..32 {
        if bit_value(assignment, word.bits[i]) {
            pattern |= 1 << i;
        }
    }
    pattern.cast_signed()
}

// The ints that the words show, as an input.
fn input_of(alloc: Global, inputs: &[IntBits], assignment: &[bool]) -> Mem<Input>
    ensures { IfOk result (λ input. (ints : List ℤ) × HasInts input ints × ShowInts (value_at assignment.now) inputs.now ints) }
{
    let mut args = Vec::new(alloc);
    'words: for word in inputs {
        args.push(Tree::Int(word_value(assignment, word)))?;
    }
    Ok(Input {
        args: List::from_vec(args),
    })
}

// The verdict for a goal, from the solver's answer.
fn decide(alloc: Global, encoding: &Encoding, goal: &Goal) -> Mem<Verdict>
    ensures { IfOk result (λ verdict. IsVerdictBy encoding.now goal.now verdict) }
{
    let bit = encoding.goal(goal.site.pc, goal.kind);
    match solve(alloc, &encoding.formula, bit)? {
        Answer::Unsat => Ok(Verdict::Success),
        Answer::Sat(assignment) => {
            let input = input_of(alloc, encoding.inputs.as_slice(), assignment.as_slice())?;
            Ok(Verdict::Failure(input))
        }
    }
}

/// A line for each site of the method, in order, with a verdict that is true of the method.
pub fn verdicts(
    alloc: Global,
    method: &MethodId,
    code: &[Option<(ThinInstr, u16)>],
    params: usize,
) -> Mem<List<Line>>
    requires short { length code.now ≤ 65535 }
    requires instrs { HasInstrs code.now }
    ensures sites { IfOk result (λ lines. IsSites method.now code.now (map (λ line. line.goal) lines)) }
    ensures goes_on { IfOk result (λ lines. (gives_int : Bool) (max_stack max_locals : ℕ) → method.now.desc ≡ int_descriptor params gives_int → ThinCode code.now params gives_int max_stack max_locals → RunsGoOn code.now method.now) }
    ensures justified { IfOk result (λ lines. (gives_int : Bool) (max_stack max_locals : ℕ) → method.now.desc ≡ int_descriptor params gives_int → ThinCode code.now params gives_int max_stack max_locals → (bounds : Bounds) → HaveRoom bounds → AreJustified bounds code.now method.now lines) }
{
    let encoding = encode(alloc, code, params)?;
    let goals = sites(alloc, method, code)?;
    lines_for(alloc, &encoding, goals)
}

// A line for each goal, in order.
fn lines_for(alloc: Global, encoding: &Encoding, goals: List<Goal>) -> Mem<List<Line>>
    ensures goals { IfOk result (λ lines. map (λ line. line.goal) lines ≡ goals) }
    ensures justified { IfOk result (AreVerdictsBy encoding.now) }
{
    let mut lines = List::new(alloc);
    'goals: for goal in goals {
        let verdict = decide(alloc, encoding, &goal)?;
        lines.add(Line { goal, verdict })?;
    }
    Ok(lines)
}
