// Laws of the definitions, each the contract of a function that does nothing.
ghost use Rattle.bd_scan.specs.Laws.{ClassNames, FloatDescriptors};
ghost use Rattle.bd_scan.specs.OpcodeLaw.{RefusedOpcodes};

/// A class names itself, and an array the class of its elements in the end.
pub fn class_names()
    ensures { ClassNames }
{}

/// A descriptor has a float where a type in it is float or double, or an array of them.
pub fn float_descriptors()
    ensures { FloatDescriptors }
{}

/// An instruction is refused by the opcode of its bytes, and that is where this is one of those that are not supported.
pub fn refused_opcodes()
    ensures { RefusedOpcodes }
{}
