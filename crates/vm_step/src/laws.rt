// Laws of the definitions, each a clause of a function that does nothing.
ghost use Rattle.vm_step.specs.Laws.{CallsMakeOneMore, ReturnsMakeNoMore, ThrowsMakeNoMore, RaisesMakeNoMore};
ghost use Rattle.vm_step.specs.Laws.{GoingOnMakesNoMore, GoingOnKeepsOthers};
ghost use Rattle.vm_step.specs.Laws.{FirstIsFound, NoneCatches, CallsKeepOthers, ReturnsKeepOthers, InitialisersKeepAll};
ghost use Rattle.vm_step.specs.Laws.{HandlersKeepOthers, DropsKeepOthers, InitialisersEnd};

/// How many frames there are: a call makes one more, and nothing else does.
pub fn count_laws()
    ensures calls { CallsMakeOneMore }
    ensures returns { ReturnsMakeNoMore }
    ensures throws { ThrowsMakeNoMore }
    ensures raises { RaisesMakeNoMore }
    ensures on { GoingOnMakesNoMore }
{}

/// Which handler is found.
pub fn handler_laws()
    ensures first { FirstIsFound }
    ensures none { NoneCatches }
{}

/// What is left as it was, and that an exception that leaves an initialiser leaves no frame.
pub fn kept_laws()
    ensures calls { CallsKeepOthers }
    ensures returns { ReturnsKeepOthers }
    ensures initialisers { InitialisersKeepAll }
    ensures handlers { HandlersKeepOthers }
    ensures on { GoingOnKeepsOthers }
    ensures drops { DropsKeepOthers }
    ensures end { InitialisersEnd }
{}
