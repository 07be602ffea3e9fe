// What a reader of a text refuses.
ghost use Rattle.std.specs.Prelude.{◌≡◌};
ghost use Rattle.jv_base.specs.declared.fault.TextFault.TheVariants.{NoMemory};

use std::alloc::AllocError;
use std::fmt;
use thiserror::Error;

/// Why a text was not read.
#[derive(Clone, Copy, Debug, PartialEq, Eq, Error)]
pub enum TextFault {
    /// The text is outside the grammar. The number is that of the characters of its longest prefix that begins some text
    /// of the grammar.
    #[error("out of form at {0}")]
    Bad(u64),
    #[error("no memory")]
    NoMemory,
}

impl From<AllocError> for TextFault {
    ghost from_gives = { λ _ e. e ≡ NoMemory };

    fn from(_e: AllocError) -> TextFault {
        TextFault::NoMemory
    }
}
