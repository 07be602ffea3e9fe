// Why bytes are no code.
ghost use Rattle.std.specs.Prelude.{◌≡◌};
ghost use Rattle.cf_code.specs.declared.fault.CodeFault.TheVariants.{NoMemory};

use std::alloc::AllocError;
use thiserror::Error;

/// Why bytes are no code, with the pc of the instruction at fault (JVM Specification SE 8, 4.9.1).
#[derive(Clone, Copy, Debug, PartialEq, Eq, Error)]
pub enum CodeFault {
    /// No instruction begins there: the opcode is above 201, `wide` stands before an instruction that has no wide form,
    /// or the instruction passes the end.
    #[error("no instruction at {0}")]
    BadOpcode(u16),
    /// A target is no instruction's first byte, the least key of a table is above its greatest, or keys do not rise.
    #[error("bad target at {0}")]
    BadTarget(u16),
    #[error("no memory")]
    NoMemory,
}

impl From<AllocError> for CodeFault {
    ghost from_gives = { λ _ e. e ≡ NoMemory };

    fn from(_e: AllocError) -> CodeFault {
        CodeFault::NoMemory
    }
}
