// What makes a class file malformed, and where.
ghost use Rattle.std.specs.Prelude.{◌≡◌, ◌<◌, ◌+◌, ◌^◌};
ghost use Rattle.cf_pool.specs.ConstantPool.{Names};
ghost use Rattle.cf_pool.specs.Calls.Contents.{later};
ghost use Rattle.cf_pool.specs.declared.fault.PoolFault.TheVariants.{NoMemory};

use std::alloc::{AllocError, AllocFailed};
use std::fmt;
use thiserror::Error;

/// What is wrong. The reader of the pool gives `Truncated`, `BadTag` and `BadUtf8`; the others are for the other parts of
/// a class file.
#[derive(Clone, Copy, Debug, PartialEq, Eq)]
pub enum What {
    /// The bytes end too early. The place is their number.
    Truncated,
    /// The magic number is another one (4.1).
    BadMagic,
    /// The major version is none that is read (4.1).
    BadVersion,
    /// No entry has this tag (4.4), or there is no room for its second index (4.4.5).
    BadTag,
    /// A text is not in modified UTF-8 (4.4.7).
    BadUtf8,
    /// A length does not fit what it counts (4.7).
    BadLength,
    /// Bytes follow the end of the class (4.8).
    Extra,
    /// An index is outside the pool, or finds an entry of another kind (4.4).
    BadIndex,
    /// A text is no name of its kind (4.2).
    BadName,
    /// A text is no descriptor of its kind (4.3).
    BadDesc,
    /// A field or a method has the name and the descriptor of an earlier one (4.5, 4.6).
    Duplicate,
    /// A method lacks its code, or has one and should not (4.7.3).
    CodeRule,
    /// The class has another name than the one that was asked for (5.3.5).
    WrongName,
    /// There is no whole instruction (4.9.1).
    BadOpcode,
    /// A target is the first byte of no instruction (4.9.1).
    BadTarget,
    /// The file is longer than what is read.
    TooLong,
    /// A class is a superclass of itself (5.3.5).
    Circular,
    /// A class has a superclass or superinterface that may not be one (5.3.5).
    BadSuper,
}

/// A fault. Its place is the number of bytes before it.
#[derive(Clone, Copy, Debug, PartialEq, Eq)]
pub struct Fault {
    pub place: u64,
    pub what: What,
}

/// `PLACE: WHAT`, as in `16: BadUtf8`.
impl fmt::Display for Fault {
    fn fmt<W: fmt::Write>(&self, f: &mut fmt::Formatter<W>) -> fmt::Result {
        write!(f, "{}: {:?}", self.place, self.what)
    }
}

/// Why bytes were not read.
#[derive(Clone, Copy, Debug, PartialEq, Eq, Error)]
pub enum PoolFault {
    /// The bytes are outside the grammar. This is their first fault from the left.
    #[error("malformed at {0}")]
    Malformed(Fault),
    /// Memory ran out. Nothing is known of the bytes.
    #[error("no memory")]
    NoMemory,
}

impl PoolFault {
    /// The same fault of bytes that have so many more in front.
    pub(crate) fn later(self, by: usize) -> PoolFault
        requires { Names (λ f. f.place + by < 2 ^ 64) self }
        ensures { result ≡ later by self }
    {
        match self {
            PoolFault::Malformed(fault) => PoolFault::Malformed(Fault {
                place: fault.place + by as u64,
                what: fault.what,
            }),
            PoolFault::NoMemory => PoolFault::NoMemory,
        }
    }
}

pub(crate) fn fault_at(place: usize, what: What) -> PoolFault
    ensures { result ≡ PoolFault.Malformed (record { place = place; what = what }) }
{
    PoolFault::Malformed(Fault {
        place: place as u64,
        what,
    })
}

impl From<AllocError> for PoolFault {
    ghost from_gives = { λ _ e. e ≡ NoMemory };

    fn from(_e: AllocError) -> PoolFault {
        PoolFault::NoMemory
    }
}

impl<T: Drop> From<AllocFailed<T>> for PoolFault {
    ghost from_gives = { λ _ e. e ≡ NoMemory };

    fn from(_e: AllocFailed<T>) -> PoolFault {
        PoolFault::NoMemory
    }
}
