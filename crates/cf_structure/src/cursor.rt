// Numbers and runs of bytes at the front of what is left.
ghost use Rattle.std.specs.Prelude.{◌≡◌, ◌+◌, ◌≤◌, length, IfOk};
ghost use Rattle.std.specs.Int.{w16, w32};
ghost use Rattle.cf_structure.specs.Structure.{number_at, bytes_at};
ghost use Rattle.cf_structure.specs.Calls.Views.{Gives};

use crate::fault::{Cut, Stop};

/// A number of two bytes. The bytes that are too few for it have that fault.
pub(crate) fn u16_at(bytes: &[u8], short: Cut) -> Result<(u16, &[u8]), Stop>
    ensures value { Gives (λ x. (x.0, x.1.now)) result (number_at short w16 bytes.now) }
    ensures within { IfOk result (λ x. length x.1.now ≤ length bytes.now) }
{
    if bytes.len() < 2 {
        return Err(Stop::At(short));
    }
    let (front, rest) = bytes.split_at(2);
    Ok((u16::from_be_bytes([front[0], front[1]]), rest))
}

/// A number of four bytes.
pub(crate) fn u32_at(bytes: &[u8], short: Cut) -> Result<(u32, &[u8]), Stop>
    ensures value { Gives (λ x. (x.0, x.1.now)) result (number_at short w32 bytes.now) }
    ensures within { IfOk result (λ x. length x.1.now ≤ length bytes.now) }
{
    if bytes.len() < 4 {
        return Err(Stop::At(short));
    }
    let (front, rest) = bytes.split_at(4);
    let number = u32::from_be_bytes([front[0], front[1], front[2], front[3]]);
    Ok((number, rest))
}

/// The first `count` bytes, and those after them.
pub(crate) fn front(bytes: &[u8], count: usize, short: Cut) -> Result<(&[u8], &[u8]), Stop>
    ensures value { Gives (λ x. (x.0.now, x.1.now)) result (bytes_at short count bytes.now) }
    ensures within { IfOk result (λ x. length x.0.now + length x.1.now ≤ length bytes.now) }
{
    if bytes.len() < count {
        return Err(Stop::At(short));
    }
    Ok(bytes.split_at(count))
}
