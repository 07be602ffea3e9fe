// The instructions of thin code over frames of bits: each takes the frame that waits at its pc, and puts frames where the
// run may go on.
ghost use Rattle.std.specs.Prelude.{◌≡◌, [], ◌∷◌, IfOk, OnOk};
ghost use Rattle.cf_thin.specs.declared.instr.ThinInstr.TheVariants as instrs;
ghost use Rattle.cf_thin.specs.declared.shape.OperandType.TheVariants as kinds;
ghost use Rattle.jb_run.specs.Encoder as specs;
ghost use Rattle.jb_run.specs.Machine as machine;

use crate::formula::Formula;
use crate::frame::{Frame, Operand, merge};
use crate::gates::{Bit, and};
use crate::int_bits::{are_equal, is_zero, known, xor_ints};
use cf_thin::ThinInstr;
use jv_base::Mem;
use std::alloc::Global;

/// The formula so far, the frame that waits at each pc, and the bit of each pc that is true where null is thrown there.
#[derive(Drop)]
pub struct Encoder {
    pub alloc: Global,
    pub formula: Formula,
    pub pending: Vec<Option<Frame>>,
    pub raised: Vec<Bit>,
}

// A frame that meets the one that waits, if any.
fn meet(alloc: Global, formula: &mut Formula, frame: Frame, earlier: Option<Frame>) -> Mem<Frame>
    ensures { IfOk result (λ met. specs.Meets formula.old formula.new frame earlier met) }
{
    match earlier {
        None => Ok(frame),
        Some(earlier) => merge(alloc, formula, &frame, &earlier),
    }
}

impl Encoder {
    /// A way comes to a pc with this frame.
    pub fn arrive(&mut self, pc: u16, frame: Frame) -> Mem<()>
        ensures { OnOk result (specs.Arrives self.old self.new pc frame) }
    {
        let at = usize::from(pc);
        if at >= self.pending.len() {
            return Ok(());
        }
        let earlier = self.pending[at].take();
        let met = meet(self.alloc, &mut self.formula, frame, earlier)?;
        self.pending[at] = Some(met);
        Ok(())
    }

    // A conditional jump: to the first pc where the condition is true, else to the second.
    fn branch(&mut self, frame: Frame, condition: Bit, true_pc: u16, false_pc: u16) -> Mem<()>
        ensures { OnOk result (specs.Branches self.old self.new frame condition true_pc false_pc) }
    {
        let taken = and(self.alloc, &mut self.formula, frame.guard, condition)?;
        let passed = and(self.alloc, &mut self.formula, frame.guard, condition.not())?;
        self.arrive(true_pc, frame.copy_under(self.alloc, taken)?)?;
        self.arrive(false_pc, frame.under(passed))
    }

    // An int is popped: to the first pc where it is 0, else to the second.
    fn branch_on_zero(&mut self, frame: Frame, zero_pc: u16, other_pc: u16) -> Mem<()>
        ensures { OnOk result (specs.BranchesBy self.old self.new frame (kinds.Int ∷ []) (machine.branch_on_zero zero_pc other_pc) zero_pc other_pc) }
    {
        let (Some(word), rest) = frame.pop_int() else {
            return Ok(());
        };
        let zero = is_zero(self.alloc, &mut self.formula, &word)?;
        self.branch(rest, zero, zero_pc, other_pc)
    }

    // Two ints are popped: to the first pc where they are equal, else to the second.
    fn branch_on_equal(&mut self, frame: Frame, equal_pc: u16, other_pc: u16) -> Mem<()>
        ensures { OnOk result (specs.BranchesBy self.old self.new frame (kinds.Int ∷ kinds.Int ∷ []) (machine.branch_on_equal equal_pc other_pc) equal_pc other_pc) }
    {
        let (Some(b), rest) = frame.pop_int() else {
            return Ok(());
        };
        let (Some(a), rest) = rest.pop_int() else {
            return Ok(());
        };
        let equal = are_equal(self.alloc, &mut self.formula, &a, &b)?;
        self.branch(rest, equal, equal_pc, other_pc)
    }

    // The null reference is pushed.
    fn push_null(&mut self, frame: Frame, pc: u16, next: u16) -> Mem<()>
        ensures { OnOk result (specs.Executes self.old self.new pc frame instrs.AconstNull next) }
    {
        self.arrive(next, frame.with_operand(Operand::Null)?)
    }

    // An int is pushed that is known.
    fn push_int(&mut self, frame: Frame, pc: u16, value: i32, next: u16) -> Mem<()>
        ensures { OnOk result (specs.Executes self.old self.new pc frame (instrs.Iconst value) next) }
    {
        self.arrive(next, frame.with_operand(Operand::Int(known(value)))?)
    }

    fn load(&mut self, frame: Frame, pc: u16, index: u8, next: u16) -> Mem<()>
        ensures { OnOk result (specs.Executes self.old self.new pc frame (instrs.Iload index) next) }
    {
        let Some(word) = frame.local(index) else {
            return Ok(());
        };
        self.arrive(next, frame.with_operand(Operand::Int(word))?)
    }

    fn store(&mut self, frame: Frame, pc: u16, index: u8, next: u16) -> Mem<()>
        ensures { OnOk result (specs.Executes self.old self.new pc frame (instrs.Istore index) next) }
    {
        let (Some(word), rest) = frame.pop_int() else {
            return Ok(());
        };
        self.arrive(next, rest.with_local(index, word)?)
    }

    fn exclusive_or(&mut self, frame: Frame, pc: u16, next: u16) -> Mem<()>
        ensures { OnOk result (specs.Executes self.old self.new pc frame instrs.Ixor next) }
    {
        let (Some(b), rest) = frame.pop_int() else {
            return Ok(());
        };
        let (Some(a), rest) = rest.pop_int() else {
            return Ok(());
        };
        let word = xor_ints(self.alloc, &mut self.formula, &a, &b)?;
        self.arrive(next, rest.with_operand(Operand::Int(word))?)
    }

    // By the shape rules the reference on top is null.
    fn throw(&mut self, frame: Frame, pc: u16, next: u16) -> Mem<()>
        ensures { OnOk result (specs.Executes self.old self.new pc frame instrs.Athrow next) }
    {
        if usize::from(pc) < self.raised.len() {
            self.raised[usize::from(pc)] = frame.guard;
        }
        Ok(())
    }

    /// One instruction, from the frame before it to the frames after it.
    pub fn execute(&mut self, frame: Frame, pc: u16, instr: ThinInstr, next: u16) -> Mem<()>
        ensures { OnOk result (specs.Executes self.old self.new pc frame instr next) }
    {
        match instr {
            ThinInstr::AconstNull => self.push_null(frame, pc, next),
            ThinInstr::Iconst(value) => self.push_int(frame, pc, value, next),
            ThinInstr::Iload(index) => self.load(frame, pc, index, next),
            ThinInstr::Istore(index) => self.store(frame, pc, index, next),
            ThinInstr::Ixor => self.exclusive_or(frame, pc, next),
            ThinInstr::Ifeq(target) => self.branch_on_zero(frame, target, next),
            ThinInstr::Ifne(target) => self.branch_on_zero(frame, next, target),
            ThinInstr::IfIcmpeq(target) => self.branch_on_equal(frame, target, next),
            ThinInstr::IfIcmpne(target) => self.branch_on_equal(frame, next, target),
            ThinInstr::Goto(target) => self.arrive(target, frame),
            ThinInstr::Athrow => self.throw(frame, pc, next),
            ThinInstr::Ireturn | ThinInstr::Return => Ok(()),
        }
    }
}
