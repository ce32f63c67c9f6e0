//! How many bytes the parts of a class file take.
ghost use Rattle.std.specs.Prelude.{◌≡◌, ◌+◌, ◌^◌, ◌<◌, ◌≤◌, ℕ, List, length};
ghost use Rattle.std.specs.List.{AllByRecursion, sum_by};
ghost use Rattle.wv_base.specs.declared.class_file.PoolEntry.{PoolEntry};
ghost use Rattle.wv_frames.specs.Spelling.{IsLayout};
ghost use Rattle.wv_frames.specs.Spelling.{table_bytes as frame_table_bytes};
ghost use Rattle.wv_attr.specs.Marks.{table_bytes};
ghost use Rattle.wv_code.specs.Breaks.{attribute_place};
ghost use Rattle.wv_code.specs.Content.{attribute_bytes, IsAttribute, IsContent};
ghost use Rattle.wv_class.specs.Breaks.{content_len, attribute_len, member_len};
ghost use Rattle.wv_class.specs.Checking.{IsSpelledContent, IsSpelledAttribute, IsSpelledMember};

use crate::raw_class::{Content, RawAttribute, RawMember};
use wv_attr::Mark;
use wv_code::RawBody;
use wv_frames::{RawFrame, frame_len};

/// How many bytes the content of a StackMapTable takes.
fn frames_len(frames: &[RawFrame]) -> usize
    requires { IsLayout frames.now }
    ensures { result ≡ length (frame_table_bytes frames.now) }
{
    let mut len = 2;
    for frame in frames {
        len += frame_len(frame);
    }
    len
}

/// How many bytes an attribute of a Code attribute takes.
fn inner_len(attribute: &wv_code::RawAttribute) -> usize
    requires { (pool : List PoolEntry) × IsAttribute pool attribute.now }
    ensures len { result ≡ length (attribute_bytes attribute.now) }
    ensures small { result ≤ 2 ^ 33 }
{
    match attribute {
        wv_code::RawAttribute::Frames { frames, .. } => 6 + frames_len(frames.as_slice()),
        wv_code::RawAttribute::Kept(kept) => 6 + kept.content.len(),
    }
}

/// How many bytes the content of a Code attribute takes (JVM Specification 4.7.3).
fn code_len(raw: &RawBody) -> usize
    requires { (pool : List PoolEntry) × (bytes : List ℕ) × IsContent pool raw.now bytes }
    ensures { result ≡ attribute_place raw.now (length raw.now.attributes) }
{
    let mut len = 8 + raw.len as usize + 4 + 8 * raw.ranges.len();
    for attribute in raw.attributes.as_slice() {
        len += inner_len(attribute);
    }
    len
}

/// How many bytes parts of annotations take.
fn parts_len(parts: &[Mark]) -> usize
    requires { length (table_bytes parts.now) < 2 ^ 32 }
    ensures { result ≡ length (table_bytes parts.now) }
{
    let mut len = 0;
    for mark in parts {
        len += mark.len();
    }
    len
}

/// How many bytes the content of an attribute takes.
pub(crate) fn content_len(content: &Content) -> usize
    requires { (pool : List PoolEntry) × IsSpelledContent pool content.now }
    ensures len { result ≡ content_len content.now }
    ensures small { result < 2 ^ 32 }
{
    match content {
        Content::Code(raw) => code_len(raw),
        Content::ConstantValue(_) => 2,
        Content::Exceptions(numbers) => 2 + 2 * numbers.len(),
        Content::Annotations { parts, .. } => parts_len(parts.as_slice()),
        Content::ParameterAnnotations { parts, .. } => 1 + parts_len(parts.as_slice()),
        Content::Other(content) => content.len(),
    }
}

/// How many bytes an attribute takes (JVM Specification 4.7).
pub(crate) fn attribute_len(attribute: &RawAttribute) -> usize
    requires { (pool : List PoolEntry) × IsSpelledAttribute pool attribute.now }
    ensures len { result ≡ attribute_len attribute.now }
    ensures small { result < 2 ^ 33 }
{
    6 + content_len(&attribute.content)
}

/// How many bytes a field or a method takes (JVM Specification 4.5 and 4.6).
pub(crate) fn member_len(member: &RawMember) -> usize
    requires { (pool : List PoolEntry) × IsSpelledMember pool member.now }
    ensures len { result ≡ member_len member.now }
    ensures small { result < 2 ^ 50 }
{
    let mut len = 8;
    for attribute in member.attributes.as_slice() {
        len += attribute_len(attribute);
    }
    len
}

/// How many bytes fields or methods take.
pub(crate) fn members_len(members: &[RawMember]) -> usize
    requires spelled { (pool : List PoolEntry) × AllByRecursion (IsSpelledMember pool) members.now }
    requires room { sum_by member_len members.now < 2 ^ 63 }
    ensures { result ≡ sum_by member_len members.now }
{
    let mut len = 0;
    for member in members {
        len += member_len(member);
    }
    len
}
