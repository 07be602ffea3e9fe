// Whether code has shapes that meet the rules, and which.
ghost use Rattle.std.specs.Prelude.{◌≡◌, IfOk, option_copied, replicate, None, []};
ghost use Rattle.ck_shapes.specs.Rules.{shape_at, AreShapesOf};

use crate::flow::Flow;
use crate::places::places_of;
use crate::search::{Known, follow, lead, shape_of};
use crate::shape::Shape;
use jv_list::{List, Mem};
use std::alloc::Global;

/// The shapes of code, each at the pc that is its place.
#[derive(Debug, Drop)]
pub struct Shapes {
    pub shapes: List<Option<Shape>>,
}

impl Shapes {
    /// The shape at a pc. None where no frame comes to it.
    pub fn at(&self, pc: u16) -> Option<&Shape>
        ensures { option_copied result ≡ shape_at self.now.shapes pc }
    {
        shape_of(&self.shapes, pc)
    }
}

/// Shapes of code that meet the rules; None where no shapes meet them. They are the ones of which most is known.
pub fn find_shapes(alloc: Global, flow: &Flow) -> Mem<Option<Shapes>>
    ensures { IfOk result (AreShapesOf flow.now) }
{
    let limits = flow.limits;
    if !flow.start.locals.are_at_most(limits.max_locals) {
        return Ok(None);
    }
    let places = places_of(alloc, flow.steps.as_slice())?;
    let mut known = nothing_known(alloc, places.len())?;
    if !lead(alloc, limits, &mut known, 0, &flow.start)? {
        return Ok(None);
    }
    while let Some(pc) = known.waiting.pop() {
        if !follow(alloc, flow, places.as_slice(), &mut known, pc)? {
            return Ok(None);
        }
    }
    let Known { shapes, .. } = known;
    Ok(Some(Shapes { shapes }))
}

/// No shape at so many pcs.
fn nothing_known(alloc: Global, count: usize) -> Mem<Known>
    ensures shapes { IfOk result (λ known. known.shapes ≡ replicate count None) }
    ensures waiting { IfOk result (λ known. known.waiting ≡ []) }
{
    let mut shapes = List::with_capacity(alloc, count)?;
    for _ in 0..count {
        shapes.add(None)?;
    }
    Ok(Known {
        shapes,
        waiting: List::new(alloc),
    })
}
