// The options with a number.
ghost use Rattle.std.specs.Prelude.{◌≡◌, ℕ, ◌<◌, ◌^◌, IfSome};
ghost use Rattle.std.specs.Fmt.{decimal};
ghost use Rattle.cl_words.specs.Calls.Options.{option_of, rows};
ghost use Rattle.cl_words.specs.Command.{HasNumber};

use crate::matched::text_of;
use clap::ArgMatches;

/// An option with a number.
#[derive(Clone, Copy)]
pub(crate) struct NumberOption {
    pub name: &'static str,
    pub least: u32,
    pub most: u32,
    /// The word that stands for it where it is not given.
    pub default: Option<&'static str>,
}

pub(crate) const UNWIND: NumberOption = NumberOption {
    name: "unwind",
    least: 0,
    most: 100,
    default: Some("16"),
};

pub(crate) const FRAMES: NumberOption = NumberOption {
    name: "frames",
    least: 1,
    most: 255,
    default: Some("16"),
};

pub(crate) const DEPTH: NumberOption = NumberOption {
    name: "depth",
    least: 1,
    most: 4,
    default: Some("2"),
};

pub(crate) const STRING: NumberOption = NumberOption {
    name: "string",
    least: 0,
    most: 255,
    default: Some("32"),
};

pub(crate) const ARRAY: NumberOption = NumberOption {
    name: "array",
    least: 0,
    most: 255,
    default: Some("16"),
};

pub(crate) const BUDGET: NumberOption = NumberOption {
    name: "budget",
    least: 0,
    most: 1_000_000,
    default: Some("0"),
};

pub(crate) const JOBS: NumberOption = NumberOption {
    name: "jobs",
    least: 1,
    most: 16,
    default: Some("1"),
};

pub(crate) const MAKE: NumberOption = NumberOption {
    name: "make",
    least: 1,
    most: 200,
    default: None,
};

/// The number that a text writes in decimal digits, without a sign or a leading zero.
fn number_in(text: &str) -> Option<u32>
    ensures found { IfSome result (λ number. text.now ≡ decimal number) }
    ensures only { (number : ℕ) → number < 2 ^ 32 → text.now ≡ decimal number → result ≡ Some number }
{
    let bytes = text.as_bytes();
    let first = *bytes.first()?;
    if first == b'0' {
        return (bytes.len() == 1).then_some(0);
    }
    if first == b'+' {
        return None;
    }
    text.parse().ok()
}

/// The number of an option.
pub(crate) fn number_of(matches: &ArgMatches<'_>, option: NumberOption) -> Option<u32>
    ensures found { IfSome result (λ number. HasNumber (rows matches.now) (option_of option) number) }
    ensures only { (number : ℕ) → HasNumber (rows matches.now) (option_of option) number → result ≡ Some number }
{
    let number = number_in(text_of(matches, option.name)?)?;
    if number < option.least || number > option.most {
        return None;
    }
    Some(number)
}
