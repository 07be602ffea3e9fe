// Why a class file was not read.
ghost use Rattle.std.specs.Prelude.{◌≡◌};
ghost use Rattle.cf_structure.specs.Calls.Views.{refusal_of, of_pool};
ghost use Rattle.cf_structure.specs.declared.fault.Stop.TheVariants as stops;
ghost use Rattle.cf_structure.specs.declared.fault.ClassFault.TheVariants as faults;

use cf_pool::{Fault, PoolFault, What};
use std::alloc::AllocError;
use thiserror::Error;

/// A fault, by the number of bytes from its place to the end of the file.
#[derive(Clone, Copy, Debug, PartialEq, Eq)]
pub struct Cut {
    pub left: usize,
    pub what: What,
}

/// The fault of a file that ends too early.
pub(crate) const AT_END: Cut = Cut {
    left: 0,
    what: What::Truncated,
};

/// Why a part of a class file was not read.
#[derive(Clone, Copy, Debug, PartialEq, Eq)]
pub(crate) enum Stop {
    /// This is the first fault of the bytes.
    At(Cut),
    /// Memory ran out. Nothing is known of the bytes.
    NoMemory,
}

impl From<AllocError> for Stop {
    ghost from_gives = { λ _ e. e ≡ stops.NoMemory };

    fn from(_e: AllocError) -> Stop {
        Stop::NoMemory
    }
}

impl Stop {
    /// The refusal of the whole file. No more bytes are left than it has.
    pub(crate) fn in_file(self, bytes: &[u8]) -> ClassFault
        ensures { result ≡ refusal_of bytes.now self }
    {
        match self {
            Stop::At(cut) => ClassFault::Malformed(Fault {
                place: bytes.len().saturating_sub(cut.left) as u64,
                what: cut.what,
            }),
            Stop::NoMemory => ClassFault::NoMemory,
        }
    }
}

/// Why a class file was not read.
#[derive(Clone, Copy, Debug, PartialEq, Eq, Error)]
pub enum ClassFault {
    /// The bytes are outside the format. This is their first fault.
    #[error("malformed at {0}")]
    Malformed(Fault),
    /// Memory ran out. Nothing is known of the bytes.
    #[error("no memory")]
    NoMemory,
}

impl From<AllocError> for ClassFault {
    ghost from_gives = { λ _ e. e ≡ faults.NoMemory };

    fn from(_e: AllocError) -> ClassFault {
        ClassFault::NoMemory
    }
}

impl From<PoolFault> for ClassFault {
    ghost from_gives = { λ fault e. e ≡ of_pool fault };

    fn from(fault: PoolFault) -> ClassFault {
        match fault {
            PoolFault::Malformed(fault) => ClassFault::Malformed(fault),
            PoolFault::NoMemory => ClassFault::NoMemory,
        }
    }
}
