// Laws of the definitions, each a clause of a function that does nothing.
ghost use Rattle.uw_keys.specs.Laws.{OrderReversed, OrderTransitive, OrderExact, OrderForAllLimits, TransferRises, TransferKeeps, OneList};

/// The order of keys is a total order, the same for all limits.
pub fn order_laws()
    ensures reversed { OrderReversed }
    ensures transitive { OrderTransitive }
    ensures exact { OrderExact }
    ensures limits { OrderForAllLimits }
{}

/// Transfers lead to greater keys, whatever limit each target has; their intervals are determined.
pub fn transfer_laws()
    ensures rises { TransferRises }
    ensures keeps { TransferKeeps }
    ensures intervals { OneList }
{}
