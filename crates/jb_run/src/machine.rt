// The machine of thin code: a plain interpreter, which runs a method on the ints of an input.
ghost use Rattle.std.specs.Prelude.{◌≡◌, ℕ, ◌↔◌, ◌≤◌, length, IfOk};
ghost use Rattle.jb_run.specs.Machine as machine;
ghost use Rattle.jb_run.specs.Stack as operands;
ghost use Rattle.jb_run.specs.Violates.{RunViolates};

use crate::locals::{local_at, with_local};
use cf_thin::{ThinInstr, go_forward, thin_instr_at};
use jv_base::{Kind, List, Mem, Value};
use std::alloc::Global;

/// The state of a run: its only frame (JVM Specification SE 8, 2.6). A local that is None, or past the end of the list,
/// holds nothing. The top of the operand stack is the last.
#[derive(Debug, Drop)]
pub struct State {
    pub pc: u16,
    pub locals: List<Option<Value>>,
    pub stack: List<Value>,
}

/// What a step comes to.
#[derive(Debug, Drop)]
pub enum Outcome {
    /// The run goes on from this state.
    Next(State),
    /// The instruction raises a fault of this kind.
    Raised(Kind),
    /// The method returns.
    Ended,
    /// There is no instruction, or it does not find what it needs. Code that passes the shape rules never comes here.
    Stuck,
}

// The value on top of the stack, and what is below it.
fn pop(stack: List<Value>) -> (Option<Value>, List<Value>)
    ensures top { result.0 ≡ operands.top stack }
    ensures below { result.1 ≡ operands.below stack }
{
    let mut values = stack.into_vec();
    let top = values.pop();
    (top, List::from_vec(values))
}

// The int on top of the stack, where there is one, and what is below it.
fn pop_int(stack: List<Value>) -> (Option<i32>, List<Value>)
    ensures int { result.0 ≡ machine.int_inside (operands.top stack) }
    ensures below { result.1 ≡ operands.below stack }
{
    let (top, below) = pop(stack);
    (int_inside(top), below)
}

fn int_inside(value: Option<Value>) -> Option<i32>
    ensures { result ≡ machine.int_inside value }
{
    match value {
        Some(Value::Int(n)) => Some(n),
        _ => None,
    }
}

// A value is pushed: the constants.
fn push(state: State, value: Value, next: u16) -> Mem<Outcome>
    ensures { IfOk result (λ o. o ≡ machine.push value next state) }
{
    let State {
        pc: _,
        locals,
        mut stack,
    } = state;
    stack.add(value)?;
    Ok(Outcome::Next(State {
        pc: next,
        locals,
        stack,
    }))
}

fn load(state: State, index: u8, next: u16) -> Mem<Outcome>
    ensures { IfOk result (λ o. o ≡ machine.load index next state) }
{
    match int_inside(local_at(state.locals.as_slice(), usize::from(index))) {
        Some(n) => push(state, Value::Int(n), next),
        None => Ok(Outcome::Stuck),
    }
}

fn store(state: State, index: u8, next: u16) -> Mem<Outcome>
    ensures { IfOk result (λ o. o ≡ machine.store index next state) }
{
    let State {
        pc: _,
        locals,
        stack,
    } = state;
    match pop_int(stack) {
        (Some(n), rest) => Ok(Outcome::Next(State {
            pc: next,
            locals: with_local(locals, usize::from(index), Value::Int(n))?,
            stack: rest,
        })),
        (None, _) => Ok(Outcome::Stuck),
    }
}

// The two ints on top of the stack, where they are ints, and what is below them. The second was on top.
fn pop_ints(stack: List<Value>) -> (Option<i32>, Option<i32>, List<Value>)
    ensures first { result.0 ≡ machine.int_inside (operands.top (operands.below stack)) }
    ensures second { result.1 ≡ machine.int_inside (operands.top stack) }
    ensures below { result.2 ≡ operands.below (operands.below stack) }
{
    let (b, rest) = pop_int(stack);
    let (a, rest) = pop_int(rest);
    (a, b, rest)
}

fn exclusive_or(state: State, next: u16) -> Mem<Outcome>
    ensures { IfOk result (λ o. o ≡ machine.exclusive_or next state) }
{
    let State {
        pc: _,
        locals,
        stack,
    } = state;
    match pop_ints(stack) {
        (Some(a), Some(b), mut stack) => {
            stack.add(Value::Int(a ^ b))?;
            Ok(Outcome::Next(State {
                pc: next,
                locals,
                stack,
            }))
        }
        _ => Ok(Outcome::Stuck),
    }
}

// An int is popped: the run goes on at the first pc where it is 0, else at the other.
fn branch_on_zero(state: State, zero_pc: u16, other_pc: u16) -> Outcome
    ensures { result ≡ machine.branch_on_zero zero_pc other_pc state }
{
    let State {
        pc: _,
        locals,
        stack,
    } = state;
    match pop_int(stack) {
        (Some(n), stack) => {
            let pc = if n == 0 { zero_pc } else { other_pc };
            Outcome::Next(State { pc, locals, stack })
        }
        (None, _) => Outcome::Stuck,
    }
}

// Two ints are popped: the run goes on at the first pc where they are equal, else at the other.
fn branch_on_equal(state: State, equal_pc: u16, other_pc: u16) -> Outcome
    ensures { result ≡ machine.branch_on_equal equal_pc other_pc state }
{
    let State {
        pc: _,
        locals,
        stack,
    } = state;
    match pop_ints(stack) {
        (Some(a), Some(b), stack) => {
            let pc = if a == b { equal_pc } else { other_pc };
            Outcome::Next(State { pc, locals, stack })
        }
        _ => Outcome::Stuck,
    }
}

fn jumps_to(state: State, pc: u16) -> Outcome
    ensures { result ≡ machine.goes_to state pc state.stack }
{
    let State {
        pc: _,
        locals,
        stack,
    } = state;
    Outcome::Next(State { pc, locals, stack })
}

fn throw(state: State) -> Outcome
    ensures { result ≡ machine.throw (operands.top state.stack) }
{
    let State {
        pc: _,
        locals: _,
        stack,
    } = state;
    match pop(stack) {
        (Some(Value::Ref(None)), _) => Outcome::Raised(Kind::Null),
        _ => Outcome::Stuck,
    }
}

fn give(state: State) -> Outcome
    ensures { result ≡ machine.give state }
{
    let State {
        pc: _,
        locals: _,
        stack,
    } = state;
    match pop_int(stack) {
        (Some(_), _) => Outcome::Ended,
        (None, _) => Outcome::Stuck,
    }
}

// What an instruction does to the state.
fn execute(state: State, instr: ThinInstr, next: u16) -> Mem<Outcome>
    ensures { IfOk result (λ o. o ≡ machine.step_of instr next state) }
{
    match instr {
        ThinInstr::AconstNull => push(state, Value::Ref(None), next),
        ThinInstr::Iconst(value) => push(state, Value::Int(value), next),
        ThinInstr::Iload(index) => load(state, index, next),
        ThinInstr::Istore(index) => store(state, index, next),
        ThinInstr::Ixor => exclusive_or(state, next),
        ThinInstr::Ifeq(target) => Ok(branch_on_zero(state, target, next)),
        ThinInstr::Ifne(target) => Ok(branch_on_zero(state, next, target)),
        ThinInstr::IfIcmpeq(target) => Ok(branch_on_equal(state, target, next)),
        ThinInstr::IfIcmpne(target) => Ok(branch_on_equal(state, next, target)),
        ThinInstr::Goto(target) => Ok(jumps_to(state, target)),
        ThinInstr::Ireturn => Ok(give(state)),
        ThinInstr::Return => Ok(Outcome::Ended),
        ThinInstr::Athrow => Ok(throw(state)),
    }
}

/// One step of thin code.
pub fn step(code: &[Option<(ThinInstr, u16)>], state: State) -> Mem<Outcome>
    requires { length code.now ≤ 65535 }
    ensures { IfOk result (λ o. o ≡ machine.step code.now state) }
{
    match thin_instr_at(code, state.pc) {
        Some((instr, next)) => execute(state, instr, next),
        None => Ok(Outcome::Stuck),
    }
}

/// The state where a method begins with these ints as its parameters.
pub fn start(alloc: Global, ints: &[i32]) -> Mem<State>
    ensures { IfOk result (λ s. s ≡ machine.start ints.now) }
{
    let mut locals = Vec::new(alloc);
    for n in ints {
        locals.push(Some(Value::Int(*n)))?;
    }
    Ok(State {
        pc: 0,
        locals: List::from_vec(locals),
        stack: List::new(alloc),
    })
}

/// Where the run of these ints raises a fault, and the kind. None where it raises none. The run ends: it has no more steps
/// than the code has bytes.
#[tactic(auto, using(crate::proofs::MachineLemmas::run_ends))]
pub fn violated(
    alloc: Global,
    code: &[Option<(ThinInstr, u16)>],
    ints: &[i32],
) -> Mem<Option<(u16, Kind)>>
    requires { length code.now ≤ 65535 }
    ensures violates { IfOk result (λ found. (pc : ℕ) (kind : Kind) → (found ≡ Some (pc, kind)) ↔ RunViolates code.now ints.now pc kind) }
    ensures ends { (n : ℕ) (state : State) → machine.after code.now n (machine.start ints.now) ≡ Some state → n ≤ length code.now }
{
    go_forward();
    let mut state = start(alloc, ints)?;
    'run: loop {
        let pc = state.pc;
        match step(code, state)? {
            Outcome::Next(next) => state = next,
            Outcome::Raised(kind) => return Ok(Some((pc, kind))),
            Outcome::Ended | Outcome::Stuck => return Ok(None),
        }
    }
}

#[cfg(test)]
mod tests {
    use super::*;
    use crate::random_runs::RANDOM;
    use cf_code::decode;
    use cf_thin::places_of_code;
    use std::process::Abort;
    use std::test::Fail;

    // What the JVM answers for these methods: a line `code` with the bytes of one, and under it a row for each run, with the
    // ints for its first locals, and the pc where it throws null, or `-`.
    const METHODS: &str = "
        // A throw where two ints are equal.
        code 1a1ba0000501bfb1
        7 7 | 6
        7 1 | -
        // A throw where an int differs from itself.
        code 1a1a8299000501bfb1
        7 | -
        -2147483648 | -
        // javac of `if (a == b) { if (c == 0) throw null; }`.
        code 1a1ba000091c9a000501bfb1
        3 3 0 | 10
        3 3 1 | -
        3 4 0 | -
        // javac of `int c = a ^ b; if (c != 300) return c; throw null;`.
        code 1a1b823d1c11012c9f00051cac01bf
        2147483647 2147483347 | 14
        -1 -301 | 14
        301 1 | 14
        300 300 | -
        1 300 | -
        // javac of `int t = a ^ -32768; if (t == 0) throw null; return t;`.
        code 1a118000823c1b9a000501bf1bac
        -32768 | 11
        32768 | -
        0 | -
        // javac of `if (a == 5) throw null; if (b != 1000) return; throw null;`.
        code 1a08a0000501bf1b1103e89f0004b101bf
        5 1000 | 6
        5 0 | 6
        4 1000 | 16
        4 1001 | -
        // javac of `int y; if (a == b) y = c; else y = d; int z = y ^ x; if (z == -1) throw null; return z;`.
        code 1a1ba000091c3605a700061d360515051504823606150602a0000501bf1506ac
        1 1 -2147483648 9 2147483647 | 28
        1 2 -2147483648 9 2147483647 | -
        1 2 3 -10 9 | 28
        2 2 3 -10 9 | -
        0 0 0 0 -1 | 28
    ";

    // Code with no next instruction, or whose instruction does not find what it needs; and code past such places.
    const ROUGH: &str = "
        code
        | -
        code 60
        | -
        code 1aac
        | -
        code 0199000401bf
        | -
        code 82
        | -
        code bf
        | -
        code 04bf
        | -
        code a700040001bf
        | 5
        code 043e01bf
        | 3
        code 043e1c01bf
        | -
    ";

    // One run of code, against its row.
    fn check<R: Abort + AllocGlobal>(
        rt: &R,
        bytes: &[u8],
        ints: &str,
        pc: &str,
    ) -> Result<(), Fail> {
        let mut numbers = Vec::new(rt.alloc());
        for word in ints.split_whitespace() {
            numbers.push(word.parse::<i32>()?)?;
        }
        assert!(rt; bytes.len() <= 65535);
        let placed = decode(rt.alloc(), bytes).expect(rt, "code");
        let code = places_of_code(rt.alloc(), placed.as_slice())?;
        assert!(rt; code.length() <= 65535);
        let found = match violated(rt.alloc(), code.as_slice(), numbers.as_slice())? {
            Some((pc, Kind::Null)) => format!(in rt.alloc(); "{pc}")?,
            other => format!(in rt.alloc();
                "{}",
                if other.is_none() { "-" } else { "another kind" }
            )?,
        };
        assert!(rt; found.as_str() == pc, "{bytes:?} {ints}");
        Ok(())
    }

    #[test]
    fn answers_as_the_jvm(rt: HostRuntime) -> Result<(), Fail> {
        let mut code = Vec::new(rt.alloc());
        for line in [METHODS, ROUGH, RANDOM]
            .iter()
            .flat_map(|table| table.lines())
        {
            let row = line.trim();
            if let Some(digits) = row.strip_prefix("code") {
                code = hex::decode(rt.alloc(), digits.trim())?;
            } else if let Some(digits) = row.strip_prefix("also") {
                code.extend_from_slice(hex::decode(rt.alloc(), digits.trim())?.as_slice())?;
            } else if let Some((ints, pc)) = row.split_once('|') {
                check(&rt, code.as_slice(), ints, pc.trim())?;
            }
        }
        Ok(())
    }
}
