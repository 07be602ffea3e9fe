// Laws of the definitions, each a clause of a function that does nothing.
ghost use Rattle.st_text.specs.Laws.{ComparesUnits, ComparesLengths, FindsLeast, FindsNone};

/// What `compare` gives, by the first place where the texts differ.
pub fn compare_laws()
    ensures units { ComparesUnits }
    ensures lengths { ComparesLengths }
{}

/// Which place `index_of` gives.
pub fn place_laws()
    ensures least { FindsLeast }
    ensures none { FindsNone }
{}
