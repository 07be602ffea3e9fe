// A text, seen as the list of its UTF-16 units.
ghost use Rattle.std.specs.Prelude.{◌≡◌, ◌<◌, ◌≤◌, ◌+◌, ◌^◌, ◌++◌, ◌↔◌, [], length, slice_index, slice_range, IfOk, IfSome, IfNone, IsTrue};
ghost use Rattle.std.specs.Fmt.{signed_decimal};
ghost use Rattle.st_text.specs.Text.{StartsWith, EndsWith};

use jv_list::{List, Mem, TryCopy};
use std::alloc::Global;
use std::marker::Model;

/// A text of fewer than 2^32 UTF-16 units, seen as the list of them. Any unit may stand anywhere, a surrogate too.
#[derive(Debug, Drop)]
pub struct Text {
    units: List<u16>,
}

impl Model for Text {
    ghost use Rattle.std.specs.Prelude.{List, ℕ, length, ◌<◌, ◌^◌};

    ghost Value = { List ℕ };

    ghost view = { λ t. t.units };

    ghost invariant = { λ t. length t.units < 2 ^ 32 };
}

impl Text {
    /// The text with nothing in it. It takes no memory.
    pub fn new(alloc: Global) -> Text
        ensures { result ≡ [] }
    {
        Text {
            units: List::new(alloc),
        }
    }

    /// The text of these units.
    pub fn of_units(alloc: Global, units: &[u16]) -> Mem<Text>
        requires { length units.now < 2 ^ 32 }
        ensures { IfOk result (λ text. text ≡ units.now) }
    {
        Ok(Text {
            units: List::copied(alloc, units)?,
        })
    }

    pub fn units(&self) -> &[u16]
        ensures value { result.now ≡ self.now }
        ensures within { length self.now < 2 ^ 32 }
    {
        self.units.as_slice()
    }

    /// The number of units (`String.length`).
    pub fn length(&self) -> u32
        ensures value { result ≡ length self.now }
        ensures within { length self.now < 2 ^ 32 }
    {
        self.units.length() as u32
    }

    /// The unit at a place (`String.charAt`).
    pub fn unit(&self, at: u32) -> u16
        requires { at < length self.now }
        ensures { result ≡ slice_index self.now at }
    {
        self.units.as_slice()[at as usize]
    }

    pub fn copy(&self, alloc: Global) -> Mem<Text>
        ensures { IfOk result (λ copy. copy ≡ self.now) }
    {
        Text::of_units(alloc, self.units())
    }

    /// This text with another behind it (`String.concat`).
    pub fn concat(&self, alloc: Global, other: &Text) -> Mem<Text>
        requires { length self.now + length other.now < 2 ^ 32 }
        ensures { IfOk result (λ text. text ≡ self.now ++ other.now) }
    {
        let mut units = List::with_capacity(alloc, self.units().len() + other.units().len())?;
        units.extend(self.units())?;
        units.extend(other.units())?;
        Ok(Text { units })
    }

    /// The units from a place up to and without another (`String.substring`).
    pub fn part(&self, alloc: Global, from: u32, to: u32) -> Mem<Text>
        requires order { from ≤ to }
        requires within { to ≤ length self.now }
        ensures { IfOk result (λ text. text ≡ slice_range self.now from to) }
    {
        let units = self.units();
        Text::of_units(alloc, &units[from as usize..to as usize])
    }

    /// Whether the texts have the same units (`String.equals`).
    pub fn same(&self, other: &Text) -> bool
        ensures { IsTrue result ↔ (self.now ≡ other.now) }
    {
        self.units() == other.units()
    }

    /// Whether the other text is a prefix of this one (`String.startsWith`).
    pub fn starts(&self, other: &Text) -> bool
        ensures { IsTrue result ↔ StartsWith self.now other.now }
    {
        self.units().starts_with(other.units())
    }

    /// Whether the other text is a suffix of this one (`String.endsWith`).
    pub fn ends(&self, other: &Text) -> bool
        ensures { IsTrue result ↔ EndsWith self.now other.now }
    {
        self.units().ends_with(other.units())
    }
}

impl TryCopy for Text {
    fn copy(&self, alloc: Global) -> Mem<Text> {
        Text::copy(self, alloc)
    }
}
