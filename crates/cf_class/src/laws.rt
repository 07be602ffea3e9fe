// Laws of the definitions.
ghost use Rattle.cf_class.specs.Laws.{OneClass};

use cf_bodies::one_file;
use cf_code::{code_decided, one_code};
use cf_judge::{form_decided, one_name, plain_class_decided};
use cf_structure::spelled;

/// Bytes are one class file, or have one first fault, and not both.
pub fn one_class()
    ensures { OneClass }
{
    one_file();
    spelled();
    form_decided();
    plain_class_decided();
    one_name();
    code_decided();
    one_code();
}
