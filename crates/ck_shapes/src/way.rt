// Where an instruction takes a shape.
ghost use Rattle.std.specs.Prelude.{◌≡◌, IfOk, IfSome};
ghost use Rattle.ck_shapes.specs.Calls.Joins.{KeepsCount};
ghost use Rattle.ck_shapes.specs.Calls.Places.{ArePlaces};
ghost use Rattle.ck_shapes.specs.Calls.Ways.{handlers_at, GivesWay};

use crate::flow::{Flow, Handler};
use crate::places::step_of;
use crate::shape::Shape;
use jv_list::{List, Mem};
use std::alloc::Global;

/// Where an instruction takes a shape: the shape after it, with the pcs that can be next; and the shape at its
/// handlers, with the pcs of these.
#[derive(Debug, Drop)]
pub(crate) struct Way {
    pub after: Shape,
    pub nexts: List<u16>,
    pub thrown: Shape,
    pub handlers: List<u16>,
}

/// Where the instruction at a pc takes a shape. None where there is none, or it does not find what it takes.
pub(crate) fn way_of(
    alloc: Global,
    flow: &Flow,
    places: &[Option<usize>],
    pc: u16,
    shape: &Shape,
) -> Mem<Option<Way>>
    requires { ArePlaces flow.now.steps places.now }
    ensures way { IfOk result (GivesWay flow.now pc shape.now) }
    ensures within { IfOk result (λ found. IfSome found (λ way. KeepsCount flow.now.limits shape.now way.after)) }
{
    let Some(step) = step_of(flow.steps.as_slice(), places, pc) else {
        return Ok(None);
    };
    let Some(action) = &step.action else {
        return Ok(None);
    };
    let Some(after) = shape.after(alloc, &action.effect, flow.limits)? else {
        return Ok(None);
    };
    Ok(Some(Way {
        after,
        nexts: List::copied(alloc, action.nexts.as_slice())?,
        thrown: shape.at_handler(alloc)?,
        handlers: List::from_vec(handlers_at(alloc, flow.handlers.as_slice(), pc)?),
    }))
}

/// The handlers of what is thrown at a pc.
fn handlers_at(alloc: Global, handlers: &[Handler], pc: u16) -> Mem<Vec<u16>>
    ensures { IfOk result (λ found. found.items ≡ handlers_at handlers.now pc) }
{
    handlers
        .iter()
        .filter(|handler| handler.start <= pc && pc < handler.end)
        .map(|handler| handler.handler)
        .collect(alloc)
}
