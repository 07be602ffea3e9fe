// Laws of the definitions, each the contract of a function that does nothing.
ghost use Rattle.ck_shapes.specs.Laws.{Signatures};

/// The types that are read from a descriptor are those of the method, or of the field, whose descriptor it is.
pub fn signatures()
    ensures { Signatures }
{}
