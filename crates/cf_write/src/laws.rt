// What holds of all class files.
ghost use Rattle.cf_write.specs.Laws.{RoundTrip, Canonical};

use cf_class::one_class;
use cf_structure::spelled;

/// What is written of a class is read as that class, by what the clauses of `write_class` and of `read_class` say alone.
pub fn round_trip()
    ensures { RoundTrip }
{
    one_class();
}

/// No two files are one class, so each file is what its class is written as.
pub fn canonical()
    ensures { Canonical }
{
    spelled();
}
