// Refusals, and what a closed core comes to.
use bd_scan::Why;
use cf_pool::Fault;
use jv_base::{FieldId, MethodId, Name, Site};

/// Why there are no verdicts.
#[derive(Debug, Drop)]
pub enum Refusal {
    /// Runs cannot begin at the entry: its class is built in, or has no such method with code, or the method wants an
    /// object of a class that has none.
    NoEntry(MethodId),
    /// There is no file of the class.
    MissingClass(Name),
    /// No class declares the method that a reference names.
    MissingMethod(MethodId),
    /// No class declares the field that a reference names.
    MissingField(FieldId),
    /// The file is none of a class of this name, or the class has unsuited supertypes.
    Malformed(Name, Fault),
    /// The code of the method has no shapes.
    BadCode(MethodId),
    /// An instruction is not supported; what holds of a whole method stands at pc 0.
    Unsupported(Site, Why),
    /// No other refusal applies, and what is asked is not built yet.
    Narrow,
}
