// Where each operation stands, by a map.
ghost use Rattle.std.specs.Prelude.{◌≡◌, IfOk, OnOk, OnErr};
ghost use Rattle.tm_terms.specs.BankView.{place_in, PutsAt, HasSame};

use crate::op::Op;
use jv_base::Mem;
use std::collections::HashMap;

// The place of an operation, if it has one.
pub(crate) fn place_of(places: &HashMap<Op, u64>, op: Op) -> Option<u64>
    ensures { result ≡ place_in places.now op }
{
    places.get(&op).copied()
}

// Puts an operation at a place.
pub(crate) fn put_at(places: &mut HashMap<Op, u64>, op: Op, place: u64) -> Mem<()>
    ensures ok { OnOk result (PutsAt places.old places.new op place) }
    ensures unchanged { OnErr result (HasSame places.old places.new) }
{
    places.insert(op, place)?;
    Ok(())
}

// The same places.
pub(crate) fn copied(places: &HashMap<Op, u64>) -> Mem<HashMap<Op, u64>>
    ensures { IfOk result (λ copy. HasSame places.now copy) }
{
    places.clone()
}
