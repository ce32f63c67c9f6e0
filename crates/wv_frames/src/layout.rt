//! The layout of a StackMapTable: its count and its frames, whatever their numbers name.
ghost use Rattle.std.specs.Prelude.{◌≡◌, ◌+◌, ◌^◌, ◌<◌, ◌≤◌, length, IfOk};
ghost use Rattle.wv_frames.specs.Reading.{Gives, tag_at, type_tag, frame_tag, behind_type_tag, behind_frame_tag, only_frames, type_behind, type_at, types_in, list_at, full_behind, frame_behind, frame_at, frames_in, table_at};

use crate::raw::{RawFrame, RawType, RawTypes};
use crate::room::{count_at, fits_in, number_at};
use crate::stop::Stop;
use crate::tag::{FrameTag, TypeTag, behind_frame_tag, behind_type_tag, frame_tag, type_tag};
use std::alloc::Global;
use wv_base::Items;
use wv_room::{FrameKind, Frames};

/// Frames and nothing else.
fn only_frames(left: u16) -> Frames
    ensures { result ≡ only_frames left }
{
    Frames {
        bytes: 0,
        types: 0,
        lists: 0,
        frames: u32::from(left),
    }
}

#[tactic(auto, unfolding(crate::specs::Reading::tag_at))]
fn type_tag_at(behind: Frames, bytes: &[u8], missing: u32) -> Result<(TypeTag, &[u8]), Stop>
    requires { length bytes.now + missing < 2 ^ 32 }
    ensures gives { Gives (λ x. (x.0, x.1.now)) result (tag_at missing type_tag (behind_type_tag behind) bytes.now) }
    ensures shorter { IfOk result (λ x. length x.1.now ≤ length bytes.now) }
{
    let [byte, rest @ ..] = bytes else {
        return Err(Stop::Left(0));
    };
    let Some(tag) = type_tag(*byte) else {
        return Err(Stop::Left(bytes.len()));
    };
    if !fits_in(behind_type_tag(behind, tag), rest.len() + missing as usize) {
        return Err(Stop::Left(bytes.len()));
    }
    Ok((tag, rest))
}

fn type_behind(tag: TypeTag, bytes: &[u8]) -> Result<(RawType, &[u8]), Stop>
    ensures gives { Gives (λ x. (x.0, x.1.now)) result (type_behind tag bytes.now) }
    ensures shorter { IfOk result (λ x. length x.1.now ≤ length bytes.now) }
{
    match tag {
        TypeTag::Plain(raw) => Ok((raw, bytes)),
        TypeTag::Object => {
            let (class, rest) = number_at(bytes)?;
            Ok((RawType::Object(class), rest))
        }
        TypeTag::Uninitialized => {
            let (at, rest) = number_at(bytes)?;
            Ok((RawType::Uninitialized(at), rest))
        }
    }
}

/// A type, behind which so much is to come.
#[tactic(auto, unfolding(crate::specs::Reading::type_at))]
fn type_at(behind: Frames, bytes: &[u8], missing: u32) -> Result<(RawType, &[u8]), Stop>
    requires { length bytes.now + missing < 2 ^ 32 }
    ensures gives { Gives (λ x. (x.0, x.1.now)) result (type_at missing behind bytes.now) }
    ensures shorter { IfOk result (λ x. length x.1.now ≤ length bytes.now) }
{
    let (tag, rest) = type_tag_at(behind, bytes, missing)?;
    type_behind(tag, rest)
}

/// So many types, behind which this is to come.
fn types_in(
    alloc: Global,
    count: u16,
    behind: Frames,
    bytes: &[u8],
    missing: u32,
) -> Result<(RawTypes, &[u8]), Stop>
    requires { length bytes.now + missing < 2 ^ 32 }
    ensures gives { Gives (λ x. (x.0, x.1.now)) result (types_in missing count behind bytes.now) }
    ensures shorter { IfOk result (λ x. length x.1.now ≤ length bytes.now) }
{
    let mut types = Items::new(alloc);
    let mut rest = bytes;
    for place in 0..count {
        let mut to_come = behind;
        to_come.types = u32::from(count - place - 1);
        let (one, after) = type_at(to_come, rest, missing)?;
        types.push(one)?;
        rest = after;
    }
    Ok((types, rest))
}

/// A list of types with its count.
#[tactic(auto, unfolding(crate::specs::Reading::list_at))]
fn list_at(
    alloc: Global,
    behind: Frames,
    bytes: &[u8],
    missing: u32,
) -> Result<(RawTypes, &[u8]), Stop>
    requires { length bytes.now + missing < 2 ^ 32 }
    ensures gives { Gives (λ x. (x.0, x.1.now)) result (list_at missing behind bytes.now) }
    ensures shorter { IfOk result (λ x. length x.1.now ≤ length bytes.now) }
{
    let (count, rest) = count_at(FrameKind::Type, behind, bytes, missing)?;
    types_in(alloc, count, behind, rest, missing)
}

#[tactic(auto, unfolding(crate::specs::Reading::tag_at))]
fn frame_tag_at(left: u16, bytes: &[u8], missing: u32) -> Result<(FrameTag, &[u8]), Stop>
    requires { length bytes.now + missing < 2 ^ 32 }
    ensures gives { Gives (λ x. (x.0, x.1.now)) result (tag_at missing frame_tag (behind_frame_tag left) bytes.now) }
    ensures shorter { IfOk result (λ x. length x.1.now ≤ length bytes.now) }
{
    let [byte, rest @ ..] = bytes else {
        return Err(Stop::Left(0));
    };
    let Some(tag) = frame_tag(*byte) else {
        return Err(Stop::Left(bytes.len()));
    };
    if !fits_in(behind_frame_tag(left, tag), rest.len() + missing as usize) {
        return Err(Stop::Left(bytes.len()));
    }
    Ok((tag, rest))
}

/// A full frame behind its tag.
#[tactic(auto, unfolding(crate::specs::Reading::full_behind))]
fn full_behind(
    alloc: Global,
    left: u16,
    bytes: &[u8],
    missing: u32,
) -> Result<(RawFrame, &[u8]), Stop>
    requires { length bytes.now + missing < 2 ^ 32 }
    ensures gives { Gives (λ x. (x.0, x.1.now)) result (full_behind missing left bytes.now) }
    ensures shorter { IfOk result (λ x. length x.1.now ≤ length bytes.now) }
{
    let (delta, rest) = number_at(bytes)?;
    let mut to_come = only_frames(left);
    to_come.lists = 1;
    let (locals, rest) = list_at(alloc, to_come, rest, missing)?;
    let (stack, rest) = list_at(alloc, only_frames(left), rest, missing)?;
    Ok((
        RawFrame::Full {
            delta,
            locals,
            stack,
        },
        rest,
    ))
}

/// What stands behind a frame's tag, where so many frames are behind it.
fn frame_behind(
    alloc: Global,
    left: u16,
    tag: FrameTag,
    bytes: &[u8],
    missing: u32,
) -> Result<(RawFrame, &[u8]), Stop>
    requires { length bytes.now + missing < 2 ^ 32 }
    ensures gives { Gives (λ x. (x.0, x.1.now)) result (frame_behind missing left tag bytes.now) }
    ensures shorter { IfOk result (λ x. length x.1.now ≤ length bytes.now) }
{
    match tag {
        FrameTag::Same { delta } => Ok((RawFrame::Same { delta }, bytes)),
        FrameTag::SameWithOne { delta } => {
            let (stack, rest) = type_at(only_frames(left), bytes, missing)?;
            Ok((RawFrame::SameWithOne { delta, stack }, rest))
        }
        FrameTag::SameWithOneExtended => {
            let (delta, rest) = number_at(bytes)?;
            let (stack, rest) = type_at(only_frames(left), rest, missing)?;
            Ok((RawFrame::SameWithOneExtended { delta, stack }, rest))
        }
        FrameTag::Chop { count } => {
            let (delta, rest) = number_at(bytes)?;
            Ok((RawFrame::Chop { count, delta }, rest))
        }
        FrameTag::SameExtended => {
            let (delta, rest) = number_at(bytes)?;
            Ok((RawFrame::SameExtended { delta }, rest))
        }
        FrameTag::Append { count } => {
            let (delta, rest) = number_at(bytes)?;
            let (locals, rest) = types_in(
                alloc,
                u16::from(count),
                only_frames(left),
                rest,
                missing,
            )?;
            Ok((RawFrame::Append { delta, locals }, rest))
        }
        FrameTag::Full => full_behind(alloc, left, bytes, missing),
    }
}

/// A frame, behind which there are so many more.
#[tactic(auto, unfolding(crate::specs::Reading::frame_at))]
fn frame_at(alloc: Global, left: u16, bytes: &[u8], missing: u32) -> Result<(RawFrame, &[u8]), Stop>
    requires { length bytes.now + missing < 2 ^ 32 }
    ensures gives { Gives (λ x. (x.0, x.1.now)) result (frame_at missing left bytes.now) }
    ensures shorter { IfOk result (λ x. length x.1.now ≤ length bytes.now) }
{
    let (tag, rest) = frame_tag_at(left, bytes, missing)?;
    frame_behind(alloc, left, tag, rest, missing)
}

fn frames_in(
    alloc: Global,
    count: u16,
    bytes: &[u8],
    missing: u32,
) -> Result<(Vec<RawFrame>, &[u8]), Stop>
    requires { length bytes.now + missing < 2 ^ 32 }
    ensures gives { Gives (λ x. (x.0.items, x.1.now)) result (frames_in missing count bytes.now) }
    ensures shorter { IfOk result (λ x. length x.1.now ≤ length bytes.now) }
{
    let mut frames = Vec::new(alloc);
    let mut rest = bytes;
    for place in 0..count {
        let (frame, after) = frame_at(alloc, count - place - 1, rest, missing)?;
        frames.push(frame)?;
        rest = after;
    }
    Ok((frames, rest))
}

/// The frames of a table that fills the bytes, and what is left, which is nothing.
#[tactic(auto, unfolding(crate::specs::Reading::table_at))]
pub(crate) fn table_at(
    alloc: Global,
    bytes: &[u8],
    missing: u32,
) -> Result<(Vec<RawFrame>, &[u8]), Stop>
    requires { length bytes.now + missing < 2 ^ 32 }
    ensures gives { Gives (λ x. (x.0.items, x.1.now)) result (table_at missing bytes.now) }
{
    let (count, rest) = count_at(FrameKind::Frame, only_frames(0), bytes, missing)?;
    frames_in(alloc, count, rest, missing)
}
