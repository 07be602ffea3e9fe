// The search for shapes: what is known of each pc becomes less, until each instruction leads to shapes that stand.
ghost use Rattle.std.specs.Prelude.{◌≡◌, ◌≤◌, ◌++◌, ◌∷◌, [], ℕ, IsTrue, IfOk, Contains, length, option_copied};
ghost use Rattle.ck_shapes.specs.Rules.{shape_at, IsLed, MeetsRules, GivenShapes};
ghost use Rattle.ck_shapes.specs.Calls.Places.{ArePlaces};
ghost use Rattle.ck_shapes.specs.Calls.Search.{IsMeeting, Leads, Stand, AreBelow, CanStand, IsSound, Weakens};

use crate::flow::Flow;
use crate::locals::{are_less, common};
use crate::shape::{Limits, Shape};
use crate::way::way_of;
use jv_list::{List, Mem};
use std::alloc::Global;

/// The shapes that are known so far, by their pcs, and the pcs whose instruction is still to be followed.
#[derive(Debug, Drop)]
pub(crate) struct Known {
    pub shapes: List<Option<Shape>>,
    pub waiting: List<u16>,
}

/// What comes of a shape that meets what is known at a pc.
#[derive(Debug, Drop)]
pub(crate) enum Meeting {
    /// The stacks differ.
    Differs,
    /// What is known stands for it too.
    Stays,
    /// Less is known, or it is the first.
    Becomes(Shape),
}

/// A shape meets what is known.
fn met(alloc: Global, known: &Option<Shape>, shape: &Shape) -> Mem<Meeting>
    ensures { IfOk result (IsMeeting known.now shape.now) }
{
    let Some(known) = known else {
        return Ok(Meeting::Becomes(shape.copy(alloc)?));
    };
    if !known.stack.is_same(alloc, &shape.stack)? {
        return Ok(Meeting::Differs);
    }
    if are_less(alloc, &known.locals, &shape.locals)? {
        return Ok(Meeting::Stays);
    }
    let locals = common(alloc, &known.locals, &shape.locals)?;
    let stack = shape.stack.copy(alloc)?;
    Ok(Meeting::Becomes(Shape { locals, stack }))
}

/// Leads a shape to a pc. False where it cannot stand there.
pub(crate) fn lead(
    alloc: Global,
    limits: Limits,
    known: &mut Known,
    pc: u16,
    shape: &Shape,
) -> Mem<bool>
    requires { length shape.now.locals ≤ limits.max_locals }
    ensures { IfOk result (λ b. Leads limits known.old pc shape.now b known.new) }
{
    let place = usize::from(pc);
    if place >= known.shapes.length() || !shape.stack.has_words(limits.max_stack) {
        return Ok(false);
    }
    match met(alloc, known.shapes.at(place), shape)? {
        Meeting::Differs => Ok(false),
        Meeting::Stays => Ok(true),
        Meeting::Becomes(both) => {
            known.shapes.set(place, Some(both));
            known.waiting.add(pc)?;
            Ok(true)
        }
    }
}

/// Leads a shape to some pcs. False where it cannot stand at one.
fn lead_all(
    alloc: Global,
    limits: Limits,
    known: &mut Known,
    pcs: &[u16],
    shape: &Shape,
) -> Mem<bool>
    requires { length shape.now.locals ≤ limits.max_locals }
    ensures stand { IfOk result (λ b. IsTrue b → Stand limits known.old pcs.now shape.now known.new) }
    ensures below { IfOk result (λ b. (all : GivenShapes) → CanStand limits (length known.old.shapes) all
        → AreBelow known.old.shapes all → ((pc : ℕ) → Contains pcs.now pc → IsLed all shape.now pc)
        → IsTrue b × AreBelow known.new.shapes all) }
{
    for pc in pcs {
        if !lead(alloc, limits, known, *pc, shape)? {
            return Ok(false);
        }
    }
    Ok(true)
}

/// The shape that a list has for a pc.
pub(crate) fn shape_of(shapes: &List<Option<Shape>>, pc: u16) -> Option<&Shape>
    ensures { option_copied result ≡ shape_at shapes.now pc }
{
    match shapes.get(usize::from(pc)) {
        Some(Some(shape)) => Some(shape),
        _ => None,
    }
}

/// Follows the instruction at a pc. False where it cannot take what is known there.
pub(crate) fn follow(
    alloc: Global,
    flow: &Flow,
    places: &[Option<usize>],
    known: &mut Known,
    pc: u16,
) -> Mem<bool>
    requires places { ArePlaces flow.now.steps places.now }
    requires long { length known.old.shapes ≡ length places.now }
    requires sound { IsSound flow.now known.old.shapes (known.old.waiting ++ pc ∷ []) }
    ensures sound { IfOk result (λ b. IsTrue b → IsSound flow.now known.new.shapes known.new.waiting) }
    ensures weakens { IfOk result (λ b. IsTrue b → Weakens flow.now.limits known.old known.new) }
    ensures below { IfOk result (λ b. (all : GivenShapes) → MeetsRules flow.now all
        → AreBelow known.old.shapes all → IsTrue b × AreBelow known.new.shapes all) }
{
    let Some(shape) = shape_of(&known.shapes, pc) else {
        return Ok(true);
    };
    let Some(way) = way_of(alloc, flow, places, pc, shape)? else {
        return Ok(false);
    };
    let limits = flow.limits;
    if !lead_all(alloc, limits, known, way.nexts.as_slice(), &way.after)? {
        return Ok(false);
    }
    lead_all(alloc, limits, known, way.handlers.as_slice(), &way.thrown)
}
