// Laws of the definitions, each the contract of a function that does nothing.
ghost use Rattle.hi_tree.specs.Laws.{OneStop, CleanStopsNowhere, FoundIsAbove, CleanIsWhole, SubtypeReflexive};
ghost use Rattle.hi_tree.specs.Laws.{SubtypeTransitive, OneResolved, OneSelected, SelectedIsCallable, SelectsItself};
ghost use Rattle.hi_tree.specs.Laws.{OneField, OneSpecial, ResolveFaults, FieldFaults, SelectFaults, SpecialFaults};
ghost use Rattle.hi_tree.specs.Laws.{GrowthKeeps, AddedGrows};

/// A walk stops at one place, or nowhere; what it finds is above where it began.
pub fn walk_laws()
    ensures one { OneStop }
    ensures nowhere { CleanStopsNowhere }
    ensures found { FoundIsAbove }
    ensures whole { CleanIsWhole }
{}

/// Being a subtype is reflexive and transitive.
pub fn subtype_laws()
    ensures reflexive { SubtypeReflexive }
    ensures transitive { SubtypeTransitive }
{}

/// What a reference means, what a call selects, and what an invokespecial calls.
pub fn method_laws()
    ensures resolved { OneResolved }
    ensures selected { OneSelected }
    ensures callable { SelectedIsCallable }
    ensures itself { SelectsItself }
    ensures field { OneField }
    ensures special { OneSpecial }
{}

/// What has a target has no fault but want of memory, and what has none has one other fault at most.
pub fn fault_laws()
    ensures resolve { ResolveFaults }
    ensures field { FieldFaults }
    ensures select { SelectFaults }
    ensures special { SpecialFaults }
{}

/// What references mean stays as a table grows.
pub fn growth_laws()
    ensures meanings { GrowthKeeps }
    ensures added { AddedGrows }
{}
