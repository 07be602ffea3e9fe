// Laws of the definitions, each the contract of a function that does nothing.
ghost use Rattle.bd_core.specs.Laws.{LeastIsContained, HolderAfter, HeldNotGiven};

/// The least set is contained in each set that is closed under the rules; so there is one only.
pub fn least_is_contained()
    ensures { LeastIsContained }
{}

/// Who has an item is told by its last event, and what a worker has was not given.
pub fn run_laws()
    ensures after { HolderAfter }
    ensures held { HeldNotGiven }
{}
