// Laws of the definitions, each a clause of a function that does nothing.
ghost use Rattle.vm_world.specs.Laws.{NumbersCount, NewIsLast, NewKeepsOthers, ChangesOne, ChangesNoOther, ChangeKeepsCount};
ghost use Rattle.vm_world.specs.Laws.{FieldIsRead, OthersAreRead, SameFields, OneStart};

use jv_base::one_descriptor;

/// The objects of a heap, by their numbers: what a new one and a store change, and that nothing else changes.
pub fn heap_laws()
    ensures numbers { NumbersCount }
    ensures last { NewIsLast }
    ensures keeps { NewKeepsOthers }
    ensures one { ChangesOne }
    ensures no_other { ChangesNoOther }
    ensures count { ChangeKeepsCount }
{}

/// The fields of an object: what a store changes, and that nothing else changes.
pub fn field_laws()
    ensures read { FieldIsRead }
    ensures others { OthersAreRead }
    ensures fields { SameFields }
{}

/// The run of an input begins in one state at most.
pub fn one_start()
    ensures { OneStart }
{
    one_descriptor();
}
