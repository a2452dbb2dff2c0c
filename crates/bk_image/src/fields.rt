//! The fields of an image: numbers, little-endian, and bytes in a range.

ghost use Rattle.std.specs.Prelude.{◌≡◌, ◌-◌, ◌≤◌, length, IfOk};
ghost use Rattle.std.specs.Int.{w32, w64};
ghost use Rattle.bk_image.specs.Faults.{Gives};
ghost use Rattle.bk_image.specs.Reading.{number_at, byte_at};

use crate::fault::{ImageFault, Kind, bad};

/// Where the bytes that are left begin.
pub(crate) fn place(total: usize, bytes: &[u8]) -> u64
    ensures { result ≡ total - length bytes.now }
{
    total.saturating_sub(bytes.len()) as u64
}

/// A number of 32 bits, and the bytes behind it.
pub(crate) fn u32_at(total: usize, bytes: &[u8]) -> Result<(u32, &[u8]), ImageFault>
    ensures { Gives (λ x. (x.0, x.1.now)) result (number_at w32 total bytes.now) }
{
    if bytes.len() < 4 {
        return Err(bad(total as u64, Kind::Short));
    }
    let (front, rest) = bytes.split_at(4);
    let number = u32::from_le_bytes([front[0], front[1], front[2], front[3]]);
    Ok((number, rest))
}

/// A number of 64 bits, and the bytes behind it.
pub(crate) fn u64_at(total: usize, bytes: &[u8]) -> Result<(u64, &[u8]), ImageFault>
    ensures { Gives (λ x. (x.0, x.1.now)) result (number_at w64 total bytes.now) }
{
    if bytes.len() < 8 {
        return Err(bad(total as u64, Kind::Short));
    }
    let (front, rest) = bytes.split_at(8);
    let number = u64::from_le_bytes([
        front[0], front[1], front[2], front[3], front[4], front[5], front[6], front[7],
    ]);
    Ok((number, rest))
}

/// One byte that has to be from the least one to the greatest one, and the bytes behind it.
pub(crate) fn byte_at(
    least: u8,
    greatest: u8,
    kind: Kind,
    total: usize,
    bytes: &[u8],
) -> Result<(u8, &[u8]), ImageFault>
    ensures value { Gives (λ x. (x.0, x.1.now)) result (byte_at least greatest kind total bytes.now) }
    ensures range { IfOk result (λ x. (least ≤ x.0) × (x.0 ≤ greatest)) }
{
    match bytes {
        [] => Err(bad(total as u64, Kind::Short)),
        [b, rest @ ..] => {
            if *b >= least && *b <= greatest {
                Ok((*b, rest))
            } else {
                Err(bad(place(total, bytes), kind))
            }
        }
    }
}
