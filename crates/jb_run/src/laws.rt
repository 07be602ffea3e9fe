// A law of the definitions, the contract of a function that does nothing.
ghost use Rattle.jb_run.specs.Laws.{ThinIsDecided};

use cf_class::one_class;
use cl_words::one_command;

/// Words that ask for a thin method of the folder are answered by its lines, each for a site and true of it, unless a read
/// failed or memory ran out.
pub fn thin_is_decided()
    ensures { ThinIsDecided }
{
    one_class();
    one_command();
}
