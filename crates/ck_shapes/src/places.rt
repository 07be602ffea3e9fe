// Where the instruction of a pc stands in the list.
ghost use Rattle.std.specs.Prelude.{◌≡◌, ◌≤◌, ℕ, IfOk, OnOk, option_copied};
ghost use Rattle.ck_shapes.specs.Rules.{step_at};
ghost use Rattle.ck_shapes.specs.Calls.Places.{noted, place_at, ArePlaces};

use crate::flow::Step;
use jv_list::{List, Mem};
use std::alloc::Global;

/// For each pc the place of its instruction, up to the last pc that has one.
pub(crate) fn places_of(alloc: Global, steps: &[Step]) -> Mem<Vec<Option<usize>>>
    ensures { IfOk result (λ places. ArePlaces steps.now places.items) }
{
    let mut places = Vec::new(alloc);
    for (place, step) in steps.iter().enumerate() {
        note(&mut places, usize::from(step.pc), place)?;
    }
    Ok(places)
}

/// Notes the place of an instruction at a pc, unless one is noted.
fn note(places: &mut Vec<Option<usize>>, pc: usize, place: usize) -> Mem<()>
    requires { pc ≤ 65535 }
    ensures { OnOk result ((at : ℕ) → place_at places.new.items at ≡ noted places.old.items pc place at) }
{
    if places.len() <= pc {
        places.resize(pc + 1, None)?;
    }
    if places[pc].is_none() {
        places[pc] = Some(place);
    }
    Ok(())
}

/// The instruction at a pc.
pub(crate) fn step_of<'a>(steps: &'a [Step], places: &[Option<usize>], pc: u16) -> Option<&'a Step>
    requires { ArePlaces steps.now places.now }
    ensures { option_copied result ≡ step_at steps.now pc }
{
    let place = places.get(usize::from(pc)).copied()??;
    steps.get(place)
}
