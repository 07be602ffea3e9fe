// Laws of the definitions, each a clause of a function that does nothing.
ghost use Rattle.tm_terms.specs.Laws.{ContinuesItself, ContinuesThrough, SortKept, ValueKept, FitsKept};
ghost use Rattle.tm_terms.specs.Laws.{ValueBelow, FitsStands, SortStands, ValueStands, FreeValue};

/// Banks that grow.
pub fn growth_laws()
    ensures itself { ContinuesItself }
    ensures through { ContinuesThrough }
    ensures sort { SortKept }
    ensures value { ValueKept }
    ensures fits { FitsKept }
{}

/// The terms of a bank.
pub fn term_laws()
    ensures below { ValueBelow }
    ensures fits { FitsStands }
    ensures sort { SortStands }
    ensures value { ValueStands }
    ensures free { FreeValue }
{}
