//! The first item of a Code attribute's content that breaks what it must meet.
ghost use Rattle.std.specs.Prelude.{◌≡◌, ◌↔◌, ℕ, ◌*◌, ◌<◌, ◌≤◌, ◌^◌, List, length, IsTrue, IfOk, IfSome, IfNone, ◌⊎◌};
ghost use Rattle.std.specs.List.{flat_map, AllByRecursion};
ghost use Rattle.wv_base.specs.declared.class_file.PoolEntry.{PoolEntry};
ghost use Rattle.wv_frames.specs.Spelling.{table_bytes, IsLayout};
ghost use Rattle.wv_frames.specs.References.{FirstBreaks};
ghost use Rattle.wv_code.specs.Content.{attribute_bytes, IsAttribute, IsContent};
ghost use Rattle.wv_code.specs.Breaks.{FramesBreak, FirstBreak, IsSound};
ghost use Rattle.wv_code.specs.Least.{IsLeastOf, Behind, InItems};
ghost use Rattle.wv_code.specs.Checking.{AreStarts, IsTable, HasTable, AttributeBreaks, AttributeAtBreaks};

use crate::frame_break::frames_break;
use crate::insn_break::insns_break;
use crate::least::{lesser, unless};
use crate::range_break::ranges_break;
use crate::raw_body::{RawAttribute, RawBody};
use crate::splitting::RawCode;
use std::alloc::Global;
use wv_base::{ClassFault, Frame, Memory};
use wv_frames::{RawFrame, frame_len, whole_frames};
use wv_pool::Pool;

/// The first number in frames that names no class, or chop of too many locals; their count has place
/// `base`.
fn named_break(
    alloc: Global,
    pool: &Pool,
    first: &Frame,
    frames: &[RawFrame],
    base: usize,
) -> Result<Option<usize>, Memory>
    requires layout { IsLayout frames.now }
    requires small { length (table_bytes frames.now) < 2 ^ 32 }
    requires low { base < 2 ^ 51 }
    ensures { IfOk result (IsLeastOf (Behind base (FirstBreaks pool.now first.now frames.now))) }
{
    match whole_frames(alloc, frames, pool, first) {
        Ok(_) => Ok(None),
        Err(ClassFault::Reference { at }) => Ok(Some(base + at)),
        Err(_) => Err(Memory),
    }
}

/// The first item of a StackMapTable that breaks what it must meet; its count has place `base`.
fn table_break(
    alloc: Global,
    pool: &Pool,
    first: &Frame,
    code: &RawCode,
    frames: &[RawFrame],
    base: usize,
) -> Result<Option<usize>, Memory>
    requires starts { (len : ℕ) × AreStarts code.now len }
    requires layout { IsLayout frames.now }
    requires small { length (table_bytes frames.now) < 2 ^ 32 }
    requires low { base < 2 ^ 51 }
    ensures { IfOk result (IsLeastOf (Behind base (FramesBreak pool.now first.now code.now frames.now))) }
{
    let named = named_break(alloc, pool, first, frames, base)?;
    Ok(lesser(named, frames_break(code, frames, base + 2)))
}

/// How many bytes the content of a StackMapTable takes.
fn table_len(frames: &[RawFrame]) -> usize
    requires { IsLayout frames.now }
    ensures len { result ≡ length (table_bytes frames.now) }
{
    let mut len = 2;
    for frame in frames {
        len += frame_len(frame);
    }
    len
}

/// How many bytes an attribute takes.
fn attribute_len(attribute: &RawAttribute) -> usize
    requires { (pool : List PoolEntry) × IsAttribute pool attribute.now }
    ensures len { result ≡ length (attribute_bytes attribute.now) }
    ensures small { result ≤ 2 ^ 33 }
{
    match attribute {
        RawAttribute::Frames { frames, .. } => 6 + table_len(frames.as_slice()),
        RawAttribute::Kept(kept) => 6 + kept.content.len(),
    }
}

/// Whether a StackMapTable was seen before or is this attribute.
fn sees_table(seen: bool, attribute: &RawAttribute) -> bool
    ensures { IsTrue result ↔ (IsTrue seen ⊎ IsTable attribute.now) }
{
    seen || matches!(attribute, RawAttribute::Frames { .. })
}

/// The first item of an attribute that breaks what it must meet, where the attribute has place `base`
/// and a StackMapTable was seen before it or not.
fn attribute_break(
    alloc: Global,
    pool: &Pool,
    first: &Frame,
    code: &RawCode,
    attribute: &RawAttribute,
    seen: bool,
    base: usize,
) -> Result<Option<usize>, Memory>
    requires starts { (len : ℕ) × AreStarts code.now len }
    requires attribute { IsAttribute pool.now attribute.now }
    requires low { base < 2 ^ 50 }
    ensures { (before : List RawAttribute) → IsTrue seen ↔ HasTable before → IfOk result (IsLeastOf (Behind base (AttributeBreaks pool.now first.now code.now before attribute.now))) }
{
    match attribute {
        RawAttribute::Frames { frames, .. } => {
            let table = table_break(alloc, pool, first, code, frames.as_slice(), base + 6)?;
            Ok(lesser(unless(!seen, base), table))
        }
        RawAttribute::Kept(_) => Ok(None),
    }
}

/// The first item of the attributes that breaks what it must meet, where the first has place `base`.
fn attributes_break(
    alloc: Global,
    pool: &Pool,
    first: &Frame,
    code: &RawCode,
    attributes: &[RawAttribute],
    base: usize,
) -> Result<Option<usize>, Memory>
    requires starts { (len : ℕ) × AreStarts code.now len }
    requires few { length attributes.now < 2 ^ 16 }
    requires attributes { AllByRecursion (IsAttribute pool.now) attributes.now }
    requires low { base < 2 ^ 36 }
    ensures { IfOk result (IsLeastOf (InItems attributes.now (AttributeAtBreaks pool.now first.now code.now attributes.now base))) }
{
    let mut found = None;
    let mut seen = false;
    let mut place = base;
    for attribute in attributes {
        let one = attribute_break(alloc, pool, first, code, attribute, seen, place)?;
        found = lesser(found, one);
        seen = sees_table(seen, attribute);
        place += attribute_len(attribute);
    }
    Ok(found)
}

fn is_code_len(len: u32) -> bool
    ensures { IsTrue result ↔ ((1 ≤ len) × (len ≤ 65535)) }
{
    1 <= len && len <= 65535
}

/// The place of the first item of a Code attribute's content that breaks what it must meet, counted
/// from the content's start, in a method with this start frame (JVM Specification 4.7.3, 4.7.4 and
/// 4.9.1). None where each item meets it. The content was read as a layout.
pub fn first_break(
    alloc: Global,
    pool: &Pool,
    first: &Frame,
    raw: &RawBody,
) -> Result<Option<usize>, Memory>
    requires { (bytes : List ℕ) × IsContent pool.now raw.now bytes }
    ensures found { IfOk result (λ place. IfSome place (FirstBreak pool.now first.now raw.now)) }
    ensures none { IfOk result (λ place. IfNone place (IsSound pool.now first.now raw.now)) }
{
    let _entries = pool.entries();
    let behind_code = 8 + raw.len as usize;
    let behind_ranges = behind_code + 4 + 8 * raw.ranges.len();
    let offsets = raw.code.offsets.as_slice();
    let attributes = raw.attributes.as_slice();
    let len = unless(is_code_len(raw.len), 4);
    let insns = insns_break(pool, &raw.code);
    let ranges = ranges_break(
        pool,
        offsets,
        raw.len,
        raw.ranges.as_slice(),
        behind_code + 2,
    );
    let others = attributes_break(alloc, pool, first, &raw.code, attributes, behind_ranges)?;
    Ok(lesser(lesser(len, insns), lesser(ranges, others)))
}
