//! Reading the content of a Code attribute.
ghost use Rattle.std.specs.Prelude.{◌≡◌, ◌+◌, ◌-◌, ◌^◌, ◌<◌, ◌≤◌, List, length, IfOk, IfErr};
ghost use Rattle.wv_pool.specs.Reading.{fixed, number};
ghost use Rattle.wv_code.specs.declared.raw_body.RawBody.{RawBody};
ghost use Rattle.wv_code.specs.Answers.{Gives};
ghost use Rattle.wv_code.specs.Content.{IsContent, GivesRaw, LayoutBreaks};
ghost use Rattle.wv_code.specs.Number.{number_at};
ghost use Rattle.wv_code.specs.Reading.{code_fits, ranges_fit, attributes_fit, name_fits, length_fits, code_at, range_at, times, kept_at, frames_at, attribute_at, tables_at, content_at};

use crate::attribute_room::{LengthRoom, NameRoom, least_content, names_frames};
use crate::fitting::insn_at;
use crate::number::number_at;
use crate::raw_body::{RawAttribute, RawBody, RawRange};
use crate::splitting::RawCode;
use crate::stop::Stop;
use std::alloc::Global;
use wv_base::{Attribute, Bytes, ClassFault, Items, PoolEntry};
use wv_frames::read_layout as read_frames;
use wv_room::{TableCount, TableKind, Tables};

/// How many bytes stand behind a number of so many bytes, of which some may be missing.
fn room_behind(width: usize, missing: u32, bytes: &[u8]) -> u32
    requires { length bytes.now + missing < 2 ^ 32 }
    ensures { result ≡ length bytes.now + missing - width }
{
    (bytes.len() + missing as usize).saturating_sub(width) as u32
}

/// A number of two bytes.
fn short_at(bytes: &[u8]) -> Result<(u16, &[u8]), Stop>
    ensures gives { Gives (λ x. (x.0, x.1.now)) result (fixed 2 number bytes.now) }
    ensures shorter { IfOk result (λ x. length x.1.now ≤ length bytes.now) }
{
    if bytes.len() < 2 {
        return Err(Stop::Left(0));
    }
    let (front, rest) = bytes.split_at(2);
    Ok((u16::from_be_bytes([front[0], front[1]]), rest))
}

/// The tables behind the code.
const BOTH_TABLES: Tables = Tables {
    bytes: 0,
    attributes: 0,
    attribute_tables: 1,
    range_tables: 1,
};

/// The table of attributes.
const ATTRIBUTE_TABLE: Tables = Tables {
    bytes: 0,
    attributes: 0,
    attribute_tables: 1,
    range_tables: 0,
};

const NOTHING: Tables = Tables {
    bytes: 0,
    attributes: 0,
    attribute_tables: 0,
    range_tables: 0,
};

/// The code's length, behind which the code and both tables fit.
fn code_len_at(missing: u32, bytes: &[u8]) -> Result<(u32, &[u8]), Stop>
    requires { length bytes.now + missing < 2 ^ 32 }
    ensures gives { Gives (λ x. (x.0, x.1.now)) result (number_at 4 code_fits missing bytes.now) }
    ensures shorter { IfOk result (λ x. length x.1.now ≤ length bytes.now) }
{
    let allowed = TableCount {
        kind: TableKind::Byte,
        besides: BOTH_TABLES,
        room: room_behind(4, missing, bytes),
    };
    number_at(4, &allowed, bytes)
}

/// The number of ranges, behind which they and the attributes fit.
fn range_count_at(missing: u32, bytes: &[u8]) -> Result<(u32, &[u8]), Stop>
    requires { length bytes.now + missing < 2 ^ 32 }
    ensures gives { Gives (λ x. (x.0, x.1.now)) result (number_at 2 ranges_fit missing bytes.now) }
    ensures shorter { IfOk result (λ x. length x.1.now ≤ length bytes.now) }
    ensures small { IfOk result (λ x. x.0 < 2 ^ 16) }
{
    let allowed = TableCount {
        kind: TableKind::Range,
        besides: ATTRIBUTE_TABLE,
        room: room_behind(2, missing, bytes),
    };
    number_at(2, &allowed, bytes)
}

/// The number of attributes, behind which they fit.
fn attribute_count_at(missing: u32, bytes: &[u8]) -> Result<(u32, &[u8]), Stop>
    requires { length bytes.now + missing < 2 ^ 32 }
    ensures gives { Gives (λ x. (x.0, x.1.now)) result (number_at 2 attributes_fit missing bytes.now) }
    ensures shorter { IfOk result (λ x. length x.1.now ≤ length bytes.now) }
    ensures small { IfOk result (λ x. x.0 < 2 ^ 16) }
{
    let allowed = TableCount {
        kind: TableKind::Attribute,
        besides: NOTHING,
        room: room_behind(2, missing, bytes),
    };
    number_at(2, &allowed, bytes)
}

/// The number of an attribute's name, behind which it and so many more fit.
fn name_at<'a>(
    pool: &[PoolEntry],
    left: u16,
    missing: u32,
    bytes: &'a [u8],
) -> Result<(u16, &'a [u8]), Stop>
    requires { length bytes.now + missing < 2 ^ 32 }
    ensures gives { Gives (λ x. (x.0, x.1.now)) result (number_at 2 (name_fits pool.now left) missing bytes.now) }
    ensures shorter { IfOk result (λ x. length x.1.now ≤ length bytes.now) }
{
    let room = room_behind(2, missing, bytes);
    let allowed = NameRoom { pool, left, room };
    let (name, rest) = number_at(2, &allowed, bytes)?;
    Ok((name as u16, rest))
}

/// The length of an attribute's content, behind which it and so many attributes fit.
fn length_at(least: u32, left: u16, missing: u32, bytes: &[u8]) -> Result<(u32, &[u8]), Stop>
    requires { length bytes.now + missing < 2 ^ 32 }
    ensures gives { Gives (λ x. (x.0, x.1.now)) result (number_at 4 (length_fits least left) missing bytes.now) }
    ensures shorter { IfOk result (λ x. length x.1.now ≤ length bytes.now) }
{
    let room = room_behind(4, missing, bytes);
    number_at(4, &LengthRoom { least, left, room }, bytes)
}

/// The instructions of a code of so many bytes, and the bytes behind it.
fn code_at(alloc: Global, len: u32, missing: u32, bytes: &[u8]) -> Result<(RawCode, &[u8]), Stop>
    requires { length bytes.now + missing < 2 ^ 32 }
    ensures gives { Gives (λ x. ((x.0.raws, x.0.offsets), x.1.now)) result (code_at len missing bytes.now) }
    ensures shorter { IfOk result (λ x. length x.1.now ≤ length bytes.now) }
{
    let missing = missing as usize;
    let tail = (bytes.len() + missing).saturating_sub(len as usize);
    let mut raws = Items::new(alloc);
    let mut offsets = Items::new(alloc);
    let mut at = 0;
    while bytes.len() - at + missing != tail {
        let (raw, rest) = insn_at(alloc, bytes, at, tail, missing)?;
        raws.push(raw)?;
        offsets.push(at as u32)?;
        at = bytes.len() - rest.len();
    }
    Ok((RawCode { raws, offsets }, &bytes[at..]))
}

/// A range of the exception table.
#[tactic(auto, unfolding(crate::specs::Reading::range_at))]
fn range_at(bytes: &[u8]) -> Result<(RawRange, &[u8]), Stop>
    ensures gives { Gives (λ x. (x.0, x.1.now)) result (range_at bytes.now) }
    ensures shorter { IfOk result (λ x. length x.1.now ≤ length bytes.now) }
{
    let (start, rest) = short_at(bytes)?;
    let (end, rest) = short_at(rest)?;
    let (handler, rest) = short_at(rest)?;
    let (catch, rest) = short_at(rest)?;
    let range = RawRange {
        start,
        end,
        handler,
        catch,
    };
    Ok((range, rest))
}

fn ranges_in(
    alloc: Global,
    count: u32,
    missing: u32,
    bytes: &[u8],
) -> Result<(Items<RawRange>, &[u8]), Stop>
    ensures gives { Gives (λ x. (x.0, x.1.now)) result (times (λ left missing. range_at) count missing bytes.now) }
    ensures shorter { IfOk result (λ x. length x.1.now ≤ length bytes.now) }
{
    let mut ranges = Items::new(alloc);
    let mut rest = bytes;
    for _ in 0..count {
        let (range, after) = range_at(rest)?;
        ranges.push(range)?;
        rest = after;
    }
    Ok((ranges, rest))
}

/// An attribute that is kept, behind its length.
fn kept_at(alloc: Global, name: u16, len: u32, bytes: &[u8]) -> Result<(RawAttribute, &[u8]), Stop>
    ensures gives { Gives (λ x. (x.0, x.1.now)) result (kept_at name len bytes.now) }
    ensures shorter { IfOk result (λ x. length x.1.now ≤ length bytes.now) }
{
    let len = len as usize;
    if bytes.len() < len {
        return Err(Stop::Left(0));
    }
    let (front, rest) = bytes.split_at(len);
    let content = Bytes::from_slice(alloc, front)?;
    Ok((RawAttribute::Kept(Attribute { name, content }), rest))
}

/// The frames of a StackMapTable, behind its length.
fn frames_at(
    alloc: Global,
    name: u16,
    len: u32,
    bytes: &[u8],
) -> Result<(RawAttribute, &[u8]), Stop>
    ensures gives { Gives (λ x. (x.0, x.1.now)) result (frames_at name len bytes.now) }
    ensures shorter { IfOk result (λ x. length x.1.now ≤ length bytes.now) }
{
    let there = bytes.len().min(len as usize);
    let (front, rest) = bytes.split_at(there);
    let missing = len - there as u32;
    match read_frames(alloc, front, missing) {
        Ok(frames) => {
            let frames = Items::from_vec(frames);
            Ok((RawAttribute::Frames { name, frames }, rest))
        }
        Err(ClassFault::Layout { at }) => Err(Stop::Left(bytes.len() - at)),
        Err(ClassFault::Reference { .. }) => unreachable!(),
        Err(ClassFault::Memory) => Err(Stop::Memory),
    }
}

/// An attribute, behind which there are so many more.
#[tactic(auto, unfolding(crate::specs::Reading::attribute_at))]
fn attribute_at<'a>(
    alloc: Global,
    pool: &[PoolEntry],
    left: u16,
    missing: u32,
    bytes: &'a [u8],
) -> Result<(RawAttribute, &'a [u8]), Stop>
    requires { length bytes.now + missing < 2 ^ 32 }
    ensures gives { Gives (λ x. (x.0, x.1.now)) result (attribute_at pool.now left missing bytes.now) }
    ensures shorter { IfOk result (λ x. length x.1.now ≤ length bytes.now) }
{
    let (name, rest) = name_at(pool, left, missing, bytes)?;
    let number = u32::from(name);
    let (len, rest) = length_at(least_content(pool, number), left, missing, rest)?;
    if names_frames(pool, number) {
        frames_at(alloc, name, len, rest)
    } else {
        kept_at(alloc, name, len, rest)
    }
}

fn attributes_in<'a>(
    alloc: Global,
    pool: &[PoolEntry],
    count: u16,
    missing: u32,
    bytes: &'a [u8],
) -> Result<(Items<RawAttribute>, &'a [u8]), Stop>
    requires { length bytes.now + missing < 2 ^ 32 }
    ensures gives { Gives (λ x. (x.0, x.1.now)) result (times (attribute_at pool.now) count missing bytes.now) }
    ensures shorter { IfOk result (λ x. length x.1.now ≤ length bytes.now) }
{
    let mut attributes = Items::new(alloc);
    let mut rest = bytes;
    for place in 0..count {
        let (one, after) = attribute_at(alloc, pool, count - place - 1, missing, rest)?;
        attributes.push(one)?;
        rest = after;
    }
    Ok((attributes, rest))
}

/// The tables behind the code.
#[tactic(auto, unfolding(crate::specs::Reading::tables_at))]
fn tables_at<'a>(
    alloc: Global,
    pool: &[PoolEntry],
    missing: u32,
    bytes: &'a [u8],
) -> Result<((Items<RawRange>, Items<RawAttribute>), &'a [u8]), Stop>
    requires { length bytes.now + missing < 2 ^ 32 }
    ensures gives { Gives (λ x. (x.0, x.1.now)) result (tables_at pool.now missing bytes.now) }
    ensures shorter { IfOk result (λ x. length x.1.now ≤ length bytes.now) }
{
    let (count, rest) = range_count_at(missing, bytes)?;
    let (ranges, rest) = ranges_in(alloc, count, missing, rest)?;
    let (count, rest) = attribute_count_at(missing, rest)?;
    let (attributes, rest) = attributes_in(alloc, pool, count as u16, missing, rest)?;
    Ok(((ranges, attributes), rest))
}

/// The content, which fills the bytes and those that are missing.
#[tactic(auto, unfolding(crate::specs::Reading::content_at))]
fn content_at<'a>(
    alloc: Global,
    pool: &[PoolEntry],
    missing: u32,
    bytes: &'a [u8],
) -> Result<(RawBody, &'a [u8]), Stop>
    requires { length bytes.now + missing < 2 ^ 32 }
    ensures { Gives (λ x. (x.0, x.1.now)) result (content_at pool.now missing bytes.now) }
{
    let (max_stack, rest) = short_at(bytes)?;
    let (max_locals, rest) = short_at(rest)?;
    let (len, rest) = code_len_at(missing, rest)?;
    let (code, rest) = code_at(alloc, len, missing, rest)?;
    let ((ranges, attributes), rest) = tables_at(alloc, pool, missing, rest)?;
    let body = RawBody {
        max_stack,
        max_locals,
        len,
        code,
        ranges,
        attributes,
    };
    Ok((body, rest))
}

/// The least size of a content: its sizes and counts.
const LEAST: usize = 12;

/// The content of a Code attribute as it is spelled, whatever its numbers name but for those of its
/// attributes' names (JVM Specification 4.7.3 and 4.9.1). Of the pool's entries only the texts count,
/// so numbers of others may name nothing that fits. `bytes` are the first bytes of a content that
/// has `missing` bytes more, which aren't there: none for a whole one. The place of a fault counts from
/// the start of `bytes`; it is the first byte with which no content of this size goes on, or their end.
/// The content of an attribute has fewer than 2^32 bytes.
pub fn read_layout(
    alloc: Global,
    bytes: &[u8],
    pool: &[PoolEntry],
    missing: u32,
) -> Result<RawBody, ClassFault>
    requires { length bytes.now + missing < 2 ^ 32 }
    // What is read was spelled so, and is wholly there.
    ensures found { IfOk result (λ raw. IsContent pool.now raw bytes.now × (missing ≡ 0)) }
    // What is spelled so is read, unless memory runs out.
    ensures only { (raw : RawBody) → IsContent pool.now raw bytes.now → missing ≡ 0 → GivesRaw result raw }
    ensures fault { IfErr result (LayoutBreaks pool.now missing bytes.now) }
{
    if bytes.len() + (missing as usize) < LEAST {
        return Err(ClassFault::Layout { at: 0 });
    }
    match content_at(alloc, pool, missing, bytes) {
        Ok((raw, _)) => Ok(raw),
        Err(Stop::Left(left)) => Err(ClassFault::Layout {
            at: bytes.len() - left,
        }),
        Err(Stop::Memory) => Err(ClassFault::Memory),
    }
}
