// Whether the code of a method is thin: its shapes are found in one pass, since each jump goes forward.
ghost use Rattle.std.specs.Prelude.{◌≡◌, ◌+◌, ◌-◌, ◌∷◌, ◌<◌, ◌≤◌, ◌↔◌, IsFalse, [], length, true, false, Some, None, Option, List as list_of, replicate, IsTrue, IfOk, IfSome, MatchOption};
ghost use Rattle.cf_thin.specs.declared.shape.Shape.{Shape};
ghost use Rattle.cf_thin.specs.ThinCode.{HasInstrs, Shapes, MeetsRules, IsThin, ThinCode, entry_locals, falls_through};
ghost use Rattle.cf_thin.specs.Instr.{target_of};
ghost use Rattle.cf_thin.specs.Calls.Passes.{IsSound, Covers, fall_of, FlowsTo, CannotFlow, JoinsFound, Differs, LeadsToAny, RefusesAny, LeadsTo, Refuses, HaveLocals, shape_at};

use crate::instr::{ThinInstr, target_of_instr, thin_instr_at};
use crate::shape::{Limits, Shape};
use crate::starts::has_instrs;
use ThinInstr::{Athrow, Goto, Ireturn, Return};
use jv_base::{List, Mem};
use std::alloc::Global;

/// Whether bytes are thin code of a method with so many parameters, that gives an int or nothing.
pub fn is_thin_code(
    alloc: Global,
    code: &[Option<(ThinInstr, u16)>],
    params: u16,
    gives_int: bool,
    max_stack: u16,
    max_locals: u16,
) -> Mem<bool>
    requires { length code.now ≤ 65535 }
    ensures { IfOk result (λ b. IsTrue b ↔ ThinCode code.now params gives_int max_stack max_locals) }
{
    let limits = Limits {
        params,
        gives_int,
        max_stack,
        max_locals,
    };
    if params > max_locals || !has_instrs(alloc, code)? {
        return Ok(false);
    }
    has_shapes(alloc, code, limits)
}

/// Whether code that is instructions has shapes that meet the rules.
fn has_shapes(alloc: Global, code: &[Option<(ThinInstr, u16)>], limits: Limits) -> Mem<bool>
    requires long { length code.now ≤ 65535 }
    requires instrs { HasInstrs code.now }
    requires params { limits.params ≤ limits.max_locals }
    ensures { IfOk result (λ b. IsTrue b ↔ IsThin code.now limits) }
{
    let mut shapes = entry_shapes(alloc, code.len(), limits)?;
    for pc in 0..code.len() as u16 {
        if !visit(alloc, code, limits, &mut shapes, pc)? {
            return Ok(false);
        }
    }
    Ok(true)
}

/// The shapes that are known at the start: one, at the entry.
fn entry_shapes(alloc: Global, count: usize, limits: Limits) -> Mem<Vec<Option<Shape>>>
    requires some { 0 < count }
    requires params { limits.params ≤ limits.max_locals }
    ensures { IfOk result (λ shapes. (shape : Shape) × (shapes.items ≡ Some shape ∷ replicate (count - 1) None) × (shape.locals ≡ entry_locals limits.params limits.max_locals) × (shape.stack ≡ [])) }
{
    let locals = entry_locals_of(alloc, limits)?;
    let mut shapes = Vec::with_capacity(alloc, count)?;
    shapes.push(Some(Shape {
        locals,
        stack: List::new(alloc),
    }))?;
    for _ in 1..count {
        shapes.push(None)?;
    }
    Ok(shapes)
}

/// The locals at the entry: an int in those of the parameters.
fn entry_locals_of(alloc: Global, limits: Limits) -> Mem<List<bool>>
    requires { limits.params ≤ limits.max_locals }
    ensures { IfOk result (λ locals. locals ≡ entry_locals limits.params limits.max_locals) }
{
    let mut locals = Vec::with_capacity(alloc, usize::from(limits.max_locals))?;
    locals.resize(usize::from(limits.params), true)?;
    locals.resize(usize::from(limits.max_locals), false)?;
    Ok(List::from_vec(locals))
}

/// Steps from the shape at a pc, if there is one, to the pcs that may be next. False where it cannot.
fn visit(
    alloc: Global,
    code: &[Option<(ThinInstr, u16)>],
    limits: Limits,
    shapes: &mut Vec<Option<Shape>>,
    pc: u16,
) -> Mem<bool>
    requires long { length code.now ≤ 65535 }
    requires instrs { HasInstrs code.now }
    requires within { pc < length code.now }
    requires sound { IsSound code.now limits shapes.old.items pc }
    ensures sound { IfOk result (λ b. IsTrue b → IsSound code.now limits shapes.new.items (pc + 1)) }
    ensures complete { IfOk result (λ b. (all : Shapes) → MeetsRules code.now limits all → Covers shapes.old.items all → IsTrue b × Covers shapes.new.items all) }
{
    let Some(shape) = &shapes[usize::from(pc)] else {
        return Ok(true);
    };
    let Some((instr, next)) = thin_instr_at(code, pc) else {
        return Ok(false);
    };
    let Some(after) = shape.after(alloc, instr, limits)? else {
        return Ok(false);
    };
    flow(alloc, shapes, instr, next, &after)
}

/// Puts the shape after an instruction at the pcs that may be next. False where it cannot.
fn flow(
    alloc: Global,
    shapes: &mut Vec<Option<Shape>>,
    instr: ThinInstr,
    next: u16,
    after: &Shape,
) -> Mem<bool>
    requires { HaveLocals shapes.old.items (length after.now.locals) }
    ensures flows { IfOk result (λ b. IsTrue b → FlowsTo shapes.old.items after.now (fall_of instr next) (target_of instr) shapes.new.items) }
    ensures refuses { IfOk result (λ b. IsFalse b → CannotFlow shapes.old.items after.now (fall_of instr next) (target_of instr)) }
{
    let fall = if falls(instr) { Some(next) } else { None };
    if !lead(alloc, shapes, fall, after)? {
        return Ok(false);
    }
    lead(alloc, shapes, target_of_instr(instr), after)
}

/// Whether the instruction may be followed by the one behind it.
fn falls(instr: ThinInstr) -> bool
    ensures { result ≡ falls_through instr }
{
    !matches!(instr, Goto(_) | Ireturn | Return | Athrow)
}

/// Puts a shape at a pc, if one is given. False where it cannot: the code ends there, or the shape that is known there
/// has another stack.
fn lead(alloc: Global, shapes: &mut Vec<Option<Shape>>, pc: Option<u16>, shape: &Shape) -> Mem<bool>
    requires { HaveLocals shapes.old.items (length shape.now.locals) }
    ensures leads { IfOk result (λ b. IsTrue b → LeadsToAny shapes.old.items shape.now pc shapes.new.items) }
    ensures refuses { IfOk result (λ b. IsFalse b → RefusesAny shapes.old.items shape.now pc) }
    ensures locals { IfOk result (λ _. HaveLocals shapes.new.items (length shape.now.locals)) }
{
    let Some(pc) = pc else {
        return Ok(true);
    };
    let pc = usize::from(pc);
    if pc >= shapes.len() {
        return Ok(false);
    }
    let Some(both) = joined(alloc, &shapes[pc], shape)? else {
        return Ok(false);
    };
    shapes[pc] = Some(both);
    Ok(true)
}

/// The shape where one meets the one that is known, if any. None where their stacks differ.
fn joined(alloc: Global, known: &Option<Shape>, shape: &Shape) -> Mem<Option<Shape>>
    requires { IfSome known.now (λ k. length k.locals ≡ length shape.now.locals) }
    ensures { IfOk result (λ found. MatchOption found (Differs known.now shape.now) (λ both. JoinsFound known.now shape.now both)) }
{
    match known {
        None => Ok(Some(shape.copy(alloc)?)),
        Some(known) => known.meet(alloc, shape),
    }
}
