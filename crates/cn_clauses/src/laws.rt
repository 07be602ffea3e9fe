// Laws of the definitions, each a clause of a function that does nothing.
ghost use Rattle.cn_clauses.specs.Laws.{OppositeValue, OppositeVariable, OppositeTwice, LiteralParts, LiteralVariable, LiteralValue, ValueAgrees, ClausesAgree};
ghost use Rattle.cn_clauses.specs.Laws.{ForcedIsTrue, ForcedByMore, RupFollows, RupByMore};
ghost use Rattle.cn_clauses.specs.Laws.{ContinuesItself, ContinuesThrough, ContinuesKeeps, ExtendsItself, ExtendsThrough, DefinedIsGate, OverLiterals};
ghost use Rattle.cn_clauses.specs.Laws.{ShowsLater, ShowsItself, ShowsOpposite, ShowsSame, ShowsKnown, ExtendsGrows, FreshGrows, GrowsThrough};

/// Literals, their opposites and their values.
pub fn literal_laws()
    ensures opposite_value { OppositeValue }
    ensures opposite_variable { OppositeVariable }
    ensures opposite_twice { OppositeTwice }
    ensures parts { LiteralParts }
    ensures variable { LiteralVariable }
    ensures value { LiteralValue }
    ensures agree { ValueAgrees }
    ensures clauses_agree { ClausesAgree }
{}

/// Unit propagation, and that what it shows follows.
pub fn propagation_laws()
    ensures forced { ForcedIsTrue }
    ensures more { ForcedByMore }
    ensures rup { RupFollows }
    ensures rup_more { RupByMore }
{}

/// Formulas that extend others in exactly one way, and variables that clauses define.
pub fn extension_laws()
    ensures continues_itself { ContinuesItself }
    ensures continues_through { ContinuesThrough }
    ensures continues_keeps { ContinuesKeeps }
    ensures itself { ExtendsItself }
    ensures through { ExtendsThrough }
    ensures defined { DefinedIsGate }
    ensures over { OverLiterals }
{}

/// Literals that have a value in a formula.
pub fn value_laws()
    ensures later { ShowsLater }
    ensures itself { ShowsItself }
    ensures opposite { ShowsOpposite }
    ensures same { ShowsSame }
    ensures known { ShowsKnown }
{}

/// Formulas that grow by inputs.
pub fn input_laws()
    ensures extends { ExtendsGrows }
    ensures fresh { FreshGrows }
    ensures through { GrowsThrough }
{}
