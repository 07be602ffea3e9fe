// Laws of the definitions, each the contract of a function that does nothing.
ghost use Rattle.cf_thin.specs.Laws.{GoForward, WeakerOrder, StandInPlace};

/// An instruction of thin code ends and jumps behind its own pc, and ends within the code.
pub fn go_forward()
    ensures { GoForward }
{}

/// To stand where a shape is expected is an order of the shapes.
pub fn weaker_order()
    ensures { WeakerOrder }
{}

/// Where all instructions of the code of a method are of thin code, each stands at its pc among the places of the code, which
/// are as many as its bytes: the places are the code, as `decode` reads it.
pub fn stand_in_place()
    ensures { StandInPlace }
{}
