// Laws of the definitions, each a clause of a function that does nothing.
ghost use Rattle.vm_object.specs.Laws.{RaisesItsKinds, GoesOn, RefusalsKeepAll, KeepsItsLocals};
ghost use Rattle.vm_object.specs.Laws.{ReadsKeepHeap, NewIsNext, NewIsFilled, StoreKeepsOthers, StoreKeepsElements, StoreIsLoaded};

use vm_world::heap_laws;

/// What an instruction on arrays raises, where the run goes on, and what it leaves as it was.
pub fn array_laws()
    ensures kinds { RaisesItsKinds }
    ensures goes_on { GoesOn }
    ensures refusals { RefusalsKeepAll }
    ensures locals { KeepsItsLocals }
{}

/// What an instruction on arrays changes of the heap, and that nothing else changes.
pub fn change_laws()
    ensures reads { ReadsKeepHeap }
    ensures next { NewIsNext }
    ensures filled { NewIsFilled }
    ensures others { StoreKeepsOthers }
    ensures elements { StoreKeepsElements }
    ensures loaded { StoreIsLoaded }
{
    heap_laws();
}
