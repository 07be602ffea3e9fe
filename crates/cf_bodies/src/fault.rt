// Where the code of a method is at fault.
ghost use Rattle.std.specs.Prelude.{◌≡◌, ◌+◌, ◌^◌, ◌<◌};

use cf_pool::{Fault, What};
use cf_structure::ClassFault;

/// The fault at a pc of the code that begins at that place.
pub(crate) fn fault_at(place: u64, pc: u16, what: What) -> ClassFault
    requires { place + pc < 2 ^ 64 }
    ensures { result ≡ ClassFault.Malformed (record { place = place + pc; what = what }) }
{
    ClassFault::Malformed(Fault {
        place: place + u64::from(pc),
        what,
    })
}
