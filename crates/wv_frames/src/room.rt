//! Numbers, and what fits behind them.
ghost use Rattle.std.specs.Prelude.{◌≡◌, ◌+◌, ◌^◌, ◌<◌, ◌≤◌, length, IfOk};
ghost use Rattle.wv_pool.specs.Reading.{fixed, number};
ghost use Rattle.wv_frames.specs.Reading.{Gives, fits_in, count_at};

use crate::stop::Stop;
use wv_room::{FrameCount, FrameKind, Frames, read_number};

/// Whether what is to come can fill so many bytes exactly.
pub(crate) fn fits_in(to_come: Frames, room: usize) -> bool
    requires { room < 2 ^ 32 }
    ensures { result ≡ fits_in to_come room }
{
    to_come.fits(room as u32)
}

pub(crate) fn number_at(bytes: &[u8]) -> Result<(u16, &[u8]), Stop>
    ensures gives { Gives (λ x. (x.0, x.1.now)) result (fixed 2 number bytes.now) }
    ensures shorter { IfOk result (λ x. length x.1.now ≤ length bytes.now) }
{
    if bytes.len() < 2 {
        return Err(Stop::Left(0));
    }
    let (front, rest) = bytes.split_at(2);
    Ok((u16::from_be_bytes([front[0], front[1]]), rest))
}

/// A count of items that fit behind it, besides what else is to come.
pub(crate) fn count_at(
    kind: FrameKind,
    besides: Frames,
    bytes: &[u8],
    missing: u32,
) -> Result<(u16, &[u8]), Stop>
    requires { length bytes.now + missing < 2 ^ 32 }
    ensures gives { Gives (λ x. (x.0, x.1.now)) result (count_at missing kind besides bytes.now) }
    ensures shorter { IfOk result (λ x. length x.1.now ≤ length bytes.now) }
{
    let size = bytes.len() + missing as usize;
    if size < 2 {
        return Err(Stop::Left(bytes.len()));
    }
    let allowed = FrameCount {
        kind,
        besides,
        room: (size - 2) as u32,
    };
    match read_number(bytes, 2, &allowed) {
        Ok(count) => Ok((count as u16, &bytes[2..])),
        Err(place) => Err(Stop::Left(bytes.len() - place)),
    }
}
