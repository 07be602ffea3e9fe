// Laws of the definitions.
ghost use Rattle.cf_structure.specs.Laws.{OneStructure, Spelled, ExtraBytes};

use cf_pool::one_pool;

/// A file has one structure, or one first fault, and not both.
pub fn one_structure()
    ensures { OneStructure }
{
    one_pool();
}

/// A file has a structure just where it is the spelling of it.
pub fn spelled()
    ensures { Spelled }
{}

/// Bytes begin with a class file and go on behind it just where their first fault is `Extra`, at its end.
pub fn extra_bytes()
    ensures { ExtraBytes }
{}
