// Words as numbers, and as signed ones.
ghost use Rattle.std.specs.Prelude.{◌≡◌, ◌+◌, ◌-◌, ◌%◌, ◌^◌, ◌<◌, ◌*◌};
ghost use Rattle.tm_terms.specs.Words.{width_of};
ghost use Rattle.jv_list.specs.Numbers.{signed_number, wrapped_number};

use crate::sort::Sort;

// The greatest number of a sort.
fn greatest(sort: Sort) -> u64
    ensures { result + 1 ≡ 2 ^ width_of sort }
{
    match sort {
        Sort::Bool => 1,
        Sort::W16 => 0xffff,
        Sort::W32 => 0xffff_ffff,
        Sort::W64 => 0xffff_ffff_ffff_ffff,
    }
}

// The number modulo 2 to the power of the width.
pub(crate) fn low(sort: Sort, number: u64) -> u64
    ensures { result ≡ number % 2 ^ width_of sort }
{
    match sort {
        Sort::Bool => number % 2,
        Sort::W16 => number % 0x1_0000,
        Sort::W32 => number % 0x1_0000_0000,
        Sort::W64 => number,
    }
}

// The signed number of a word.
pub(crate) fn signed(sort: Sort, number: u64) -> i64
    ensures { result ≡ signed_number (width_of sort) number }
{
    let greatest = greatest(sort);
    if number <= greatest / 2 {
        number as i64
    } else {
        -1 - greatest.saturating_sub(number) as i64
    }
}

// The word of a signed number.
pub(crate) fn wrapped(sort: Sort, number: i64) -> u64
    ensures { result ≡ wrapped_number (width_of sort) number }
{
    low(sort, number.cast_unsigned())
}
