// What resolution can answer in place of a member.
ghost use Rattle.std.specs.Prelude.{◌≡◌};

use jv_base::Name;
use std::alloc::AllocError;
use thiserror::Error;

/// Why there is no answer.
#[derive(Debug, Drop, Error)]
pub enum TreeFault {
    /// The first class of the walk that is neither built in nor in the table.
    #[error("a class is not loaded")]
    NotLoaded(Name),
    /// The whole walk finds none.
    #[error("no such member")]
    NoSuch,
    /// Two maximally-specific methods stand where one is needed.
    #[error("two maximally-specific methods")]
    Ambiguous,
    /// The walk comes to a class again as its own supertype.
    #[error("a class is its own supertype")]
    Circular,
    /// Memory ran out. Nothing is known of the classes.
    #[error("no memory")]
    NoMemory,
}

impl From<AllocError> for TreeFault {
    ghost use Rattle.hi_tree.specs.declared.fault.TreeFault.TheVariants.{NoMemory};

    ghost from_gives = { λ _ fault. fault ≡ NoMemory };

    fn from(_fault: AllocError) -> TreeFault {
        TreeFault::NoMemory
    }
}
