// Why a method has no shapes.
ghost use Rattle.std.specs.Prelude.{◌≡◌};
ghost use Rattle.ck_shapes.specs.declared.fault.ShapeFault.TheVariants.{NoMemory};

use std::alloc::AllocError;

/// Why the shapes of a method are not given.
#[derive(Clone, Copy, Debug, PartialEq, Eq)]
pub enum ShapeFault {
    /// No shapes meet the rules.
    BadCode,
    /// Memory ran out. Nothing is known of the method.
    NoMemory,
}

impl From<AllocError> for ShapeFault {
    ghost from_gives = { λ _ e. e ≡ NoMemory };

    fn from(_e: AllocError) -> ShapeFault {
        ShapeFault::NoMemory
    }
}
