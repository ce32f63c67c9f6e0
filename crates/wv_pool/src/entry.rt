//! One entry of the constant pool.
ghost use Rattle.std.specs.Prelude.{◌≡◌, ◌≤◌, take, drop, length, slice_index};
ghost use Rattle.std.specs.Int.{w16, w32, w64, from_be_bytes, cast_signed};
ghost use Rattle.wv_pool.specs.Reading.{Gives, fixed, number, first, second, plain_behind, text_place, text_behind, is_wide, entry_at, slot_at};

use crate::stop::Stop;
use std::alloc::Global;
use wv_base::{PoolEntry, TextFault, from_modified};

pub(crate) fn u16_at(bytes: &[u8]) -> Result<(u16, &[u8]), Stop>
    ensures { Gives (λ x. (x.0, x.1.now)) result (fixed 2 number bytes.now) }
{
    if bytes.len() < 2 {
        return Err(Stop::Left(0));
    }
    let (front, rest) = bytes.split_at(2);
    Ok((u16::from_be_bytes([front[0], front[1]]), rest))
}

fn pair_at(bytes: &[u8]) -> Result<((u16, u16), &[u8]), Stop>
    ensures { Gives (λ x. (x.0, x.1.now)) result (fixed 4 (λ b. (first b, second b)) bytes.now) }
{
    if bytes.len() < 4 {
        return Err(Stop::Left(0));
    }
    let (front, rest) = bytes.split_at(4);
    let pair = (
        u16::from_be_bytes([front[0], front[1]]),
        u16::from_be_bytes([front[2], front[3]]),
    );
    Ok((pair, rest))
}

fn u32_at(bytes: &[u8]) -> Result<(u32, &[u8]), Stop>
    ensures { Gives (λ x. (x.0, x.1.now)) result (fixed 4 (from_be_bytes w32) bytes.now) }
{
    if bytes.len() < 4 {
        return Err(Stop::Left(0));
    }
    let (front, rest) = bytes.split_at(4);
    Ok((
        u32::from_be_bytes([front[0], front[1], front[2], front[3]]),
        rest,
    ))
}

fn i32_at(bytes: &[u8]) -> Result<(i32, &[u8]), Stop>
    ensures { Gives (λ x. (x.0, x.1.now)) result (fixed 4 (λ b. cast_signed w32 (from_be_bytes w32 b)) bytes.now) }
{
    if bytes.len() < 4 {
        return Err(Stop::Left(0));
    }
    let (front, rest) = bytes.split_at(4);
    Ok((
        i32::from_be_bytes([front[0], front[1], front[2], front[3]]),
        rest,
    ))
}

fn u64_at(bytes: &[u8]) -> Result<(u64, &[u8]), Stop>
    ensures { Gives (λ x. (x.0, x.1.now)) result (fixed 8 (from_be_bytes w64) bytes.now) }
{
    if bytes.len() < 8 {
        return Err(Stop::Left(0));
    }
    let (front, rest) = bytes.split_at(8);
    let number = u64::from_be_bytes([
        front[0], front[1], front[2], front[3], front[4], front[5], front[6], front[7],
    ]);
    Ok((number, rest))
}

fn i64_at(bytes: &[u8]) -> Result<(i64, &[u8]), Stop>
    ensures { Gives (λ x. (x.0, x.1.now)) result (fixed 8 (λ b. cast_signed w64 (from_be_bytes w64 b)) bytes.now) }
{
    if bytes.len() < 8 {
        return Err(Stop::Left(0));
    }
    let (front, rest) = bytes.split_at(8);
    let number = i64::from_be_bytes([
        front[0], front[1], front[2], front[3], front[4], front[5], front[6], front[7],
    ]);
    Ok((number, rest))
}

fn handle_at(bytes: &[u8]) -> Result<((u8, u16), &[u8]), Stop>
    ensures { Gives (λ x. (x.0, x.1.now)) result (fixed 3 (λ b. (slice_index b 0, number (drop 1 b))) bytes.now) }
{
    if bytes.len() < 3 {
        return Err(Stop::Left(0));
    }
    let (front, rest) = bytes.split_at(3);
    Ok(((front[0], u16::from_be_bytes([front[1], front[2]])), rest))
}

/// An entry with one number behind the tag, or a handle.
#[tactic(auto, unfolding(crate::specs::Reading::plain_behind))]
fn reference_behind(tag: u8, bytes: &[u8]) -> Result<(PoolEntry, &[u8]), Stop>
    requires { 7 ≤ tag }
    ensures { Gives (λ x. (x.0, x.1.now)) result (plain_behind tag bytes.now) }
{
    match tag {
        7 => u16_at(bytes).map(|(name, rest)| (PoolEntry::Class { name }, rest)),
        8 => u16_at(bytes).map(|(text, rest)| (PoolEntry::String { text }, rest)),
        9 => pair_at(bytes).map(|((class, name_and_type), rest)| {
            (
                PoolEntry::Field {
                    class,
                    name_and_type,
                },
                rest,
            )
        }),
        10 => pair_at(bytes).map(|((class, name_and_type), rest)| {
            (
                PoolEntry::Method {
                    class,
                    name_and_type,
                },
                rest,
            )
        }),
        11 => pair_at(bytes).map(|((class, name_and_type), rest)| {
            (
                PoolEntry::InterfaceMethod {
                    class,
                    name_and_type,
                },
                rest,
            )
        }),
        12 => pair_at(bytes).map(|((name, descriptor), rest)| {
            (PoolEntry::NameAndType { name, descriptor }, rest)
        }),
        15 => handle_at(bytes).map(|((kind, reference), rest)| {
            (PoolEntry::MethodHandle { kind, reference }, rest)
        }),
        16 => u16_at(bytes).map(|(descriptor, rest)| (PoolEntry::MethodType { descriptor }, rest)),
        18 => pair_at(bytes).map(|((bootstrap, name_and_type), rest)| {
            (
                PoolEntry::InvokeDynamic {
                    bootstrap,
                    name_and_type,
                },
                rest,
            )
        }),
        _ => Err(Stop::Left(bytes.len() + 1)),
    }
}

/// The entry of a tag other than that of a text, behind the tag.
#[tactic(auto, unfolding(crate::specs::Reading::plain_behind))]
fn plain_behind(tag: u8, bytes: &[u8]) -> Result<(PoolEntry, &[u8]), Stop>
    ensures { Gives (λ x. (x.0, x.1.now)) result (plain_behind tag bytes.now) }
{
    match tag {
        3 => i32_at(bytes).map(|(value, rest)| (PoolEntry::Integer(value), rest)),
        4 => u32_at(bytes).map(|(bits, rest)| (PoolEntry::Float(bits), rest)),
        5 => i64_at(bytes).map(|(value, rest)| (PoolEntry::Long(value), rest)),
        6 => u64_at(bytes).map(|(bits, rest)| (PoolEntry::Double(bits), rest)),
        7.. => reference_behind(tag, bytes),
        _ => Err(Stop::Left(bytes.len() + 1)),
    }
}

/// Where a fault at `at` of the text's first bytes shows, where the text has `len` bytes in all.
fn text_place(text: &[u8], len: usize, at: usize) -> usize
    requires { at ≤ length text.now }
    ensures place { result ≡ text_place text.now len at }
    ensures within { result ≤ at }
{
    if at > 0 && text[at - 1] >= 0xC0 {
        let width = if text[at - 1] >= 0xE0 { 3 } else { 2 };
        return if at - 1 + width > len { at - 1 } else { at };
    }
    if at > 1 && text[at - 2] >= 0xE0 {
        return if at + 1 > len { at - 2 } else { at };
    }
    at
}

/// The first bytes, so many, or all if there are fewer.
fn front(bytes: &[u8], len: usize) -> &[u8]
    ensures first { result.now ≡ take len bytes.now }
    ensures within { length result.now ≤ length bytes.now }
{
    if bytes.len() < len {
        return bytes;
    }
    &bytes[..len]
}

#[tactic(auto, unfolding(crate::specs::Reading::text_behind))]
fn text_behind(alloc: Global, bytes: &[u8]) -> Result<(PoolEntry, &[u8]), Stop>
    ensures { Gives (λ x. (x.0, x.1.now)) result (text_behind bytes.now) }
{
    let (len, rest) = u16_at(bytes)?;
    let len = len as usize;
    let text = front(rest, len);
    match from_modified(alloc, text) {
        Ok(name) if rest.len() >= len => Ok((PoolEntry::Utf8(name), &rest[len..])),
        Ok(_) => Err(Stop::Left(0)),
        Err(TextFault::Fault { at }) => Err(Stop::Left(rest.len() - text_place(text, len, at))),
        Err(TextFault::Memory) => Err(Stop::Memory),
    }
}

/// Whether the entry takes two numbers.
pub(crate) fn is_wide(entry: &PoolEntry) -> bool
    ensures { result ≡ is_wide entry.now }
{
    matches!(entry, PoolEntry::Long(_) | PoolEntry::Double(_))
}

#[tactic(auto, unfolding(crate::specs::Reading::entry_at))]
fn entry_at(alloc: Global, last: bool, bytes: &[u8]) -> Result<(PoolEntry, &[u8]), Stop>
    ensures { Gives (λ x. (x.0, x.1.now)) result (entry_at last bytes.now) }
{
    let [tag, rest @ ..] = bytes else {
        return Err(Stop::Left(0));
    };
    match *tag {
        1 => text_behind(alloc, rest),
        5 | 6 if last => Err(Stop::Left(bytes.len())),
        tag => plain_behind(tag, rest),
    }
}

/// The entry with the next number, behind a long or a double or not, with the last number or not.
pub(crate) fn slot_at(
    alloc: Global,
    wide: bool,
    last: bool,
    bytes: &[u8],
) -> Result<(PoolEntry, &[u8]), Stop>
    ensures { Gives (λ x. (x.0, x.1.now)) result (slot_at wide last bytes.now) }
{
    if wide {
        return Ok((PoolEntry::Unusable, bytes));
    }
    entry_at(alloc, last, bytes)
}
