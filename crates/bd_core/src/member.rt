// Members of the sets that the loading rules make.
use jv_base::{MethodId, Name};

/// What the loading rules speak of.
#[derive(Debug, Drop, PartialEq, Eq, Hash)]
pub enum Member {
    /// The class of this name is known: it is in K.
    Known(Name),
    /// The method is executed: it is in M.
    Method(MethodId),
    /// Objects of the class may be made: it is in I.
    Made(Name),
    /// A call of M selects this method; a `bool` says that the reference is to a method of an interface.
    Called(MethodId, bool),
    /// The class may be initialised.
    Initialised(Name),
    /// Objects of the first class may be made, and the second is the class itself or above it.
    Under(Name, Name),
}
