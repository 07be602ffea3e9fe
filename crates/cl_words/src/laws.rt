// Laws of the definitions, each the contract of a function that does nothing.
ghost use Rattle.cl_words.specs.Laws.{OneCommand};

use jv_base::{one_entry, one_site};

/// Words are one command at most, so what `read_words` gives is the command that they are.
pub fn one_command()
    ensures { OneCommand }
{
    one_entry();
    one_site();
}
