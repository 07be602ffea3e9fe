// The first place of a unit, and the decimal text of a number.
ghost use Rattle.std.specs.Prelude.{◌≡◌, IfOk, string_bytes};
ghost use Rattle.std.specs.Fmt.{signed_decimal};
ghost use Rattle.st_text.specs.Text.{place_of};

use crate::text::Text;
use jv_list::{List, Mem};
use std::alloc::Global;

fn first_place(units: &[u16], unit: u16) -> Option<usize>
    ensures { result ≡ place_of units.now unit }
{
    units.iter().position(|other| *other == unit)
}

// The same text as UTF-16 units, where each character is ASCII.
fn ascii_units(alloc: Global, bytes: &[u8]) -> Mem<List<u16>>
    ensures { IfOk result (λ units. units ≡ bytes.now) }
{
    let units: Vec<u16> = bytes.iter().map(|byte| u16::from(*byte)).collect(alloc)?;
    Ok(List::from_vec(units))
}

// A minus sign where the number is negative, and its digits.
fn printed(alloc: Global, number: i32) -> Mem<String>
    ensures { IfOk result (λ text. string_bytes text ≡ signed_decimal number) }
{
    format!(in alloc; "{number}")
}

impl Text {
    /// The least place at which the unit stands (`String.indexOf`).
    pub fn index_of(&self, unit: u16) -> Option<u32>
        ensures { result ≡ place_of self.now unit }
    {
        match first_place(self.units(), unit) {
            Some(place) => Some(place as u32),
            None => None,
        }
    }

    /// The number in decimal: a minus sign where it is negative, and its digits without a leading zero
    /// (`Integer.toString`).
    pub fn decimal(alloc: Global, number: i32) -> Mem<Text>
        ensures { IfOk result (λ text. text ≡ signed_decimal number) }
    {
        let text = printed(alloc, number)?;
        let units = ascii_units(alloc, text.as_bytes())?;
        Text::of_units(alloc, units.as_slice())
    }
}
