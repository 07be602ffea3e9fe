// Sorts of terms.
ghost use Rattle.std.specs.Prelude.{◌≡◌};

/// The sort of a term: a truth value, which is a word of one bit, or a word of 16, 32 or 64 bits.
#[derive(Clone, Copy, Debug, PartialEq, Eq, Hash)]
pub enum Sort {
    Bool,
    W16,
    W32,
    W64,
}

impl Sort {
    ghost use Rattle.tm_terms.specs.Words.{width_of};

    /// How many bits a word of this sort has.
    pub fn width(self) -> u32
        ensures { result ≡ width_of self }
    {
        match self {
            Sort::Bool => 1,
            Sort::W16 => 16,
            Sort::W32 => 32,
            Sort::W64 => 64,
        }
    }
}
