// Why words are no command.
ghost use Rattle.std.specs.Prelude.{◌≡◌, ◌≢◌, ℕ};
ghost use Rattle.clap.specs.Words.{kind_of};
ghost use Rattle.clap.specs.declared.error.kind.ErrorKind.TheVariants.{OutOfMemory};
ghost use Rattle.jv_base.specs.declared.fault.TextFault.TheVariants.{Bad};
ghost use Rattle.cl_words.specs.declared.fault.WordsFault.TheVariants.{Usage, NoMemory};

use clap::error::ErrorKind;
use jv_base::TextFault;
use std::alloc::AllocError;
use thiserror::Error;

/// Why words gave no command.
#[derive(Clone, Copy, Debug, PartialEq, Eq, Error)]
pub enum WordsFault {
    #[error("usage: jbmc [OPTIONS] DIR ENTRY")]
    Usage,
    #[error("no memory")]
    NoMemory,
}

impl From<AllocError> for WordsFault {
    ghost from_gives = { λ _ e. e ≡ NoMemory };

    fn from(_e: AllocError) -> WordsFault {
        WordsFault::NoMemory
    }
}

impl From<TextFault> for WordsFault {
    ghost from_gives = { λ fault e. e ≡ Usage → (place : ℕ) × (fault ≡ Bad place) };

    fn from(fault: TextFault) -> WordsFault {
        match fault {
            TextFault::Bad(_) => WordsFault::Usage,
            TextFault::NoMemory => WordsFault::NoMemory,
        }
    }
}

impl From<clap::Error> for WordsFault {
    ghost from_gives = { λ error e. e ≡ Usage → kind_of error ≢ OutOfMemory };

    fn from(error: clap::Error) -> WordsFault {
        match error.kind() {
            ErrorKind::OutOfMemory => WordsFault::NoMemory,
            _ => WordsFault::Usage,
        }
    }
}
