// What is loaded for.
use jv_base::MethodId;

/// The entry method, and the depth to which inputs go: an argument stands at depth 1, the fields of an object and the
/// elements of an array one deeper, and a deeper reference is null.
#[derive(Debug, Drop, PartialEq, Eq)]
pub struct Job {
    pub entry: MethodId,
    pub depth: u8,
}
