// The order of texts.
ghost use Rattle.std.specs.Prelude.{◌≡◌, pos, ◌-ℤ◌};
ghost use Rattle.std.specs.Int.{int_wrap, w32};
ghost use Rattle.st_text.specs.Order.{first_difference, compare_of};

use crate::text::Text;

// The least place at which both have a unit, and not the same.
fn first_difference(a: &[u16], b: &[u16]) -> Option<usize>
    ensures { result ≡ first_difference a.now b.now }
{
    a.iter().zip(b.iter()).position(|(x, y)| *x != *y)
}

fn wrapped_difference(a: u32, b: u32) -> i32
    ensures { result ≡ int_wrap w32 (pos a -ℤ pos b) }
{
    a.wrapping_sub(b).cast_signed()
}

impl Text {
    /// The difference of the units at the first place where the texts differ; where one is a prefix of the other, that
    /// of the lengths, wrapped to 32 bits (`String.compareTo`).
    pub fn compare(&self, other: &Text) -> i32
        ensures { result ≡ compare_of self.now other.now }
    {
        let (a, b) = (self.units(), other.units());
        match first_difference(a, b) {
            Some(place) => i32::from(a[place]) - i32::from(b[place]),
            None => wrapped_difference(self.length(), other.length()),
        }
    }
}
