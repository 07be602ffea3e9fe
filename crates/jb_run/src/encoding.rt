// All runs of a thin method as one formula: the frames that wait, in the order of the pcs.
ghost use Rattle.std.specs.Prelude.{◌≡◌, ◌≤◌, ℕ, Bool, true, false, length, replicate, map, Some, None, [], IfOk, OnOk, IfSome, IfNone};
ghost use Rattle.cf_thin.specs.ThinCode.{ThinCode};
ghost use Rattle.jb_run.specs.declared.gates.Bit.TheVariants as bits;
ghost use Rattle.jb_run.specs.Encoder as specs;
ghost use Rattle.jb_run.specs.Represents.{goal_bit, Represents};

use crate::encoder::Encoder;
use crate::formula::Formula;
use crate::frame::Frame;
use crate::gates::Bit;
use crate::int_bits::{IntBits, unknown};
use cf_thin::{ThinInstr, go_forward, thin_instr_at, weaker_order};
use jv_base::{Kind, List, Mem};
use std::alloc::Global;

/// The formula of a method: an assignment that satisfies it shows the ints of an input, and the run of that input. The
/// bit of each pc is true exactly where the instruction there raises null.
#[derive(Debug, Drop)]
pub struct Encoding {
    pub formula: Formula,
    pub inputs: List<IntBits>,
    pub raised: List<Bit>,
}

impl Encoding {
    /// The bit of a goal at a pc. No object is thrown in thin code, so no assertion fails there.
    pub fn goal(&self, pc: u16, kind: Kind) -> Bit
        ensures { result ≡ goal_bit self.now.raised pc kind }
    {
        match (kind, self.raised.as_slice().get(usize::from(pc))) {
            (Kind::Null, Some(bit)) => *bit,
            _ => Bit::Known(false),
        }
    }
}

fn inputs_of(alloc: Global, formula: &mut Formula, params: usize) -> Mem<List<IntBits>>
    ensures { specs.IsEmpty formula.old → IfOk result (λ inputs. specs.HasInputs params formula.new inputs) }
{
    let mut inputs = Vec::new(alloc);
    for _ in 0..params {
        inputs.push(unknown(formula)?)?;
    }
    Ok(List::from_vec(inputs))
}

// The frame at the entry: the inputs are in the first locals.
fn first_frame(alloc: Global, inputs: &[IntBits]) -> Mem<Frame>
    ensures guard { IfOk result (λ frame. frame.guard ≡ bits.Known true) }
    ensures locals { IfOk result (λ frame. frame.locals ≡ map (λ word. Some word) inputs.now) }
    ensures stack { IfOk result (λ frame. frame.stack ≡ []) }
{
    let mut locals = Vec::new(alloc);
    for word in inputs {
        locals.push(Some(*word))?;
    }
    Ok(Frame {
        guard: Bit::Known(true),
        locals: List::from_vec(locals),
        stack: List::new(alloc),
    })
}

// An encoder of code of a length where nothing waits.
fn nothing_encoded(alloc: Global, formula: Formula, length: usize) -> Mem<Encoder>
    ensures formula { IfOk result (λ encoder. encoder.formula ≡ formula) }
    ensures pending { IfOk result (λ encoder. encoder.pending.items ≡ replicate length None) }
    ensures raised { IfOk result (λ encoder. encoder.raised.items ≡ replicate length (bits.Known false)) }
{
    let mut pending = Vec::with_capacity(alloc, length)?;
    for _ in 0..length {
        pending.push(None)?;
    }
    let mut raised = Vec::with_capacity(alloc, length)?;
    raised.resize(length, Bit::Known(false))?;
    Ok(Encoder {
        alloc,
        formula,
        pending,
        raised,
    })
}

// Takes the frame that waits at a pc, if any.
fn take_at(encoder: &mut Encoder, pc: u16) -> Option<Frame>
    ensures taken { IfSome result (λ frame. (specs.pending_at encoder.old.pending.items pc ≡ Some frame) × specs.IsTaken encoder.old encoder.new pc) }
    ensures none { IfNone result (specs.pending_at encoder.old.pending.items pc ≡ None) }
    ensures unchanged { IfNone result (encoder.new ≡ encoder.old) }
{
    let at = usize::from(pc);
    if at >= encoder.pending.len() || encoder.pending[at].is_none() {
        return None;
    }
    encoder.pending[at].take()
}

// The instruction at a pc, where a frame waits for it.
fn visit(encoder: &mut Encoder, code: &[Option<(ThinInstr, u16)>], pc: u16) -> Mem<()>
    requires { length code.now ≤ 65535 }
    ensures { OnOk result (specs.Visits code.now encoder.old encoder.new pc) }
{
    let Some(frame) = take_at(encoder, pc) else {
        return Ok(());
    };
    let Some((instr, next)) = thin_instr_at(code, pc) else {
        return Ok(());
    };
    go_forward();
    encoder.execute(frame, pc, instr, next)
}

/// The encoding of thin code whose first locals are `params` ints.
pub fn encode(alloc: Global, code: &[Option<(ThinInstr, u16)>], params: usize) -> Mem<Encoding>
    requires { length code.now ≤ 65535 }
    ensures { IfOk result (λ encoding. (gives_int : Bool) (max_stack max_locals : ℕ) → ThinCode code.now params gives_int max_stack max_locals → Represents code.now params encoding) }
{
    go_forward();
    weaker_order();
    let mut formula = Formula::new(alloc);
    let inputs = inputs_of(alloc, &mut formula, params)?;
    let frame = first_frame(alloc, inputs.as_slice())?;
    let mut encoder = nothing_encoded(alloc, formula, code.len())?;
    encoder.arrive(0, frame)?;
    'pcs: for pc in 0..code.len() as u16 {
        visit(&mut encoder, code, pc)?;
    }
    let Encoder {
        alloc: _,
        formula,
        pending: _,
        raised,
    } = encoder;
    Ok(Encoding {
        formula,
        inputs,
        raised: List::from_vec(raised),
    })
}
