// Laws of the definitions.
ghost use Rattle.cf_bodies.specs.Laws.{OneVerdict, OneFile};

use cf_code::{code_decided, no_code, one_beginning, one_code, one_fault, one_size};
use cf_judge::{one_first, one_judgement, plain_class_decided};
use cf_structure::{one_structure, spelled};

/// The code of a file's methods is in order, or it has one first fault, and not both.
pub fn one_verdict()
    ensures { OneVerdict }
{
    code_decided();
    one_beginning();
    one_code();
    no_code();
    one_fault();
    one_first();
    one_size();
    plain_class_decided();
}

/// Bytes are a class file that is in order, or they have one fault, and not both: that of the first judgement that finds one.
pub fn one_file()
    ensures { OneFile }
{
    one_structure();
    spelled();
    one_judgement();
    one_verdict();
}
