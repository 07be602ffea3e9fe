// Laws of the definitions, each the contract of a function that does nothing.
ghost use Rattle.cf_pool.specs.Laws.{OneText, OnePool, RoundTrip};

/// Bytes spell one list of units, or have one first fault, and not both.
pub fn one_text()
    ensures { OneText }
{}

/// Bytes have one pool and one place after it, or one first fault, and not both.
pub fn one_pool()
    ensures { OnePool }
{}

/// The bytes from place 8 to the place after the pool are the spelling of the pool.
pub fn round_trip()
    ensures { RoundTrip }
{}
