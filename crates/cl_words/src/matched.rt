// What the words gave a name.
ghost use Rattle.std.specs.Prelude.{◌≡◌, ◌↔◌, IfSome, IfNone, IsTrue};
ghost use Rattle.cl_words.specs.Calls.Options.{rows};
ghost use Rattle.cl_words.specs.Command.{HasFlag, HasText, LacksOthers, LacksValue};

use clap::ArgMatches;

/// The value of a name, as text.
pub(crate) fn text_of<'a>(matches: &ArgMatches<'a>, name: &str) -> Option<&'a str>
    ensures found { IfSome result (λ text. HasText (rows matches.now) name.now text.now) }
    ensures none { IfNone result (LacksValue (rows matches.now) name.now) }
{
    matches.get_str(name)
}

pub(crate) fn has_flag(matches: &ArgMatches<'_>, name: &str) -> bool
    ensures { IsTrue result ↔ HasFlag (rows matches.now) name.now }
{
    match text_of(matches, name) {
        Some(text) => text == "true",
        None => false,
    }
}

pub(crate) fn lacks_value(matches: &ArgMatches<'_>, name: &str) -> bool
    ensures { IsTrue result ↔ LacksValue (rows matches.now) name.now }
{
    text_of(matches, name).is_none()
}

/// Whether no word but options with a number is given.
pub(crate) fn lacks_others(matches: &ArgMatches<'_>) -> bool
    ensures { IsTrue result ↔ LacksOthers (rows matches.now) }
{
    !has_flag(matches, "trace")
        && !has_flag(matches, "list")
        && lacks_value(matches, "replay")
        && lacks_value(matches, "site")
        && lacks_value(matches, "DIR")
        && lacks_value(matches, "ENTRY")
}
