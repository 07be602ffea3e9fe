// Laws of the definitions, each a clause of a function that does nothing.
ghost use Rattle.vm_frame.specs.Laws.{RaisesItsKinds, FollowsItsWays, KeepsItsMethod};
ghost use Rattle.vm_frame.specs.Laws.{StoreIsRead, SecondIsNothing, HalfALongEnds, OthersAreKept};

/// What an instruction raises, where the run goes on behind it, and what it leaves as it was.
pub fn step_laws()
    ensures kinds { RaisesItsKinds }
    ensures ways { FollowsItsWays }
    ensures keeps { KeepsItsMethod }
{}

/// What a store changes of the locals, and that nothing else changes.
pub fn local_laws()
    ensures read { StoreIsRead }
    ensures second { SecondIsNothing }
    ensures half { HalfALongEnds }
    ensures others { OthersAreKept }
{}
