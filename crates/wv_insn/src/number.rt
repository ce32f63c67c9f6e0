//! Numbers of the code, with the high byte first.
ghost use Rattle.std.specs.Int.{w8, w16, w32};
ghost use Rattle.wv_insn.specs.Reading.{Gives, byte_at, zero_at, unsigned_at, signed_at, count_at, bytes_at};

use crate::fault::Stop;

/// The byte at the front, and the bytes behind it.
pub(crate) fn u8_at(bytes: &[u8]) -> Result<(u8, &[u8]), Stop>
    ensures { Gives (λ x. (x.0, x.1.now)) result (byte_at bytes.now) }
{
    match bytes {
        [byte, rest @ ..] => Ok((*byte, rest)),
        [] => Err(Stop::At(0)),
    }
}

/// The byte at the front where it is zero; any other stops the reader there.
pub(crate) fn zero_at(bytes: &[u8]) -> Result<(u8, &[u8]), Stop>
    ensures { Gives (λ x. (x.0, x.1.now)) result (zero_at bytes.now) }
{
    match bytes {
        [0, rest @ ..] => Ok((0, rest)),
        [] => Err(Stop::At(0)),
        [_, ..] => Err(Stop::At(bytes.len())),
    }
}

pub(crate) fn i8_at(bytes: &[u8]) -> Result<(i8, &[u8]), Stop>
    ensures { Gives (λ x. (x.0, x.1.now)) result (signed_at w8 bytes.now) }
{
    match bytes {
        [byte, rest @ ..] => Ok((i8::from_be_bytes([*byte]), rest)),
        [] => Err(Stop::At(0)),
    }
}

pub(crate) fn u16_at(bytes: &[u8]) -> Result<(u16, &[u8]), Stop>
    ensures { Gives (λ x. (x.0, x.1.now)) result (unsigned_at w16 bytes.now) }
{
    if bytes.len() < 2 {
        return Err(Stop::At(0));
    }
    let (front, rest) = bytes.split_at(2);
    Ok((u16::from_be_bytes([front[0], front[1]]), rest))
}

pub(crate) fn i16_at(bytes: &[u8]) -> Result<(i16, &[u8]), Stop>
    ensures { Gives (λ x. (x.0, x.1.now)) result (signed_at w16 bytes.now) }
{
    if bytes.len() < 2 {
        return Err(Stop::At(0));
    }
    let (front, rest) = bytes.split_at(2);
    Ok((i16::from_be_bytes([front[0], front[1]]), rest))
}

pub(crate) fn i32_at(bytes: &[u8]) -> Result<(i32, &[u8]), Stop>
    ensures { Gives (λ x. (x.0, x.1.now)) result (signed_at w32 bytes.now) }
{
    if bytes.len() < 4 {
        return Err(Stop::At(0));
    }
    let (front, rest) = bytes.split_at(4);
    let number = i32::from_be_bytes([front[0], front[1], front[2], front[3]]);
    Ok((number, rest))
}

/// A count of four bytes, which isn't negative: a first byte with the sign stops the reader.
pub(crate) fn count_at(bytes: &[u8]) -> Result<(u32, &[u8]), Stop>
    ensures { Gives (λ x. (x.0, x.1.now)) result (count_at bytes.now) }
{
    if !bytes.is_empty() && bytes[0] >= 0x80 {
        return Err(Stop::At(bytes.len()));
    }
    if bytes.len() < 4 {
        return Err(Stop::At(0));
    }
    let (front, rest) = bytes.split_at(4);
    let number = u32::from_be_bytes([front[0], front[1], front[2], front[3]]);
    Ok((number, rest))
}

/// The first `count` bytes, whatever they are.
pub(crate) fn bytes_at(bytes: &[u8], count: usize) -> Result<(&[u8], &[u8]), Stop>
    ensures { Gives (λ x. (x.0.now, x.1.now)) result (bytes_at count bytes.now) }
{
    if bytes.len() < count {
        return Err(Stop::At(0));
    }
    Ok(bytes.split_at(count))
}
