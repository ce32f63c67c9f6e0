//! The first place in frames that doesn't lead to an instruction as it must.
ghost use Rattle.std.specs.Prelude.{◌≡◌, ◌↔◌, ℕ, ◌*◌, ◌<◌, ◌≤◌, ◌^◌, length, IsTrue};
ghost use Rattle.std.specs.List.{flat_map};
ghost use Rattle.wv_base.specs.Opcodes.{new as new_instance};
ghost use Rattle.wv_insn.specs.declared.raw.Raw.TheVariants as raws;
ghost use Rattle.wv_frames.specs.Spelling.{type_bytes, IsFrame, IsLayout};
ghost use Rattle.wv_frames.specs.Whole.{delta_of};
ghost use Rattle.wv_code.specs.Breaks.{IsNew, delta_place};
ghost use Rattle.wv_code.specs.Least.{IsLeastOf, Behind, InItems};
ghost use Rattle.wv_code.specs.Checking.{AreStarts, MadeBreaks, TypeAtBreaks, TypesBreak, FrameBreaks, FrameAtBreaks};

use crate::demand::starts;
use crate::index::index_at;
use crate::least::{lesser, unless};
use crate::opcode::NEW;
use crate::splitting::RawCode;
use wv_frames::{RawFrame, RawType, frame_len, type_len};
use wv_insn::Raw;

fn makes_object(insn: &Raw) -> bool
    ensures { IsTrue result ↔ ((number : ℕ) × (insn.now ≡ raws.Class new_instance number)) }
{
    match insn {
        Raw::Class { op, .. } => *op == NEW,
        _ => false,
    }
}

/// Whether a `new` starts at the offset.
fn is_new(code: &RawCode, at: u16) -> bool
    requires { (len : ℕ) × AreStarts code.now len }
    ensures { IsTrue result ↔ IsNew code.now at }
{
    let Some(index) = index_at(code.offsets.as_slice(), u32::from(at)) else {
        return false;
    };
    match code.raws.get(index) {
        Some(insn) => makes_object(insn),
        None => false,
    }
}

/// The place of the type's offset, if it has one at which no `new` starts; its tag has place `base`.
fn type_break(code: &RawCode, one: RawType, base: usize) -> Option<usize>
    requires starts { (len : ℕ) × AreStarts code.now len }
    requires low { base < 2 ^ 55 }
    ensures { IsLeastOf (MadeBreaks code.now base one) result }
{
    match one {
        RawType::Uninitialized(at) => unless(is_new(code, at), base + 1),
        _ => None,
    }
}

/// The same of types one behind the other.
fn types_break(code: &RawCode, types: &[RawType], base: usize) -> Option<usize>
    requires starts { (len : ℕ) × AreStarts code.now len }
    requires few { length types.now < 65536 }
    requires low { base < 2 ^ 54 }
    ensures { IsLeastOf (InItems types.now (TypeAtBreaks code.now types.now base)) result }
{
    let mut first = None;
    let mut place = base;
    for one in types {
        first = lesser(first, type_break(code, *one, place));
        place += type_len(*one);
    }
    first
}

/// How many bytes the types take.
fn types_len(types: &[RawType]) -> usize
    requires { length types.now < 65536 }
    ensures len { result ≡ length (flat_map type_bytes types.now) }
    ensures small { result ≤ 3 * length types.now }
{
    let mut len = 0;
    for one in types {
        len += type_len(*one);
    }
    len
}

/// The first place of a `new` in the frame's types at which none starts.
fn made_break(code: &RawCode, frame: &RawFrame, base: usize) -> Option<usize>
    requires starts { (len : ℕ) × AreStarts code.now len }
    requires frame { IsFrame frame.now }
    requires low { base < 2 ^ 53 }
    ensures { IsLeastOf (Behind base (TypesBreak code.now frame.now)) result }
{
    match frame {
        RawFrame::SameWithOne { stack, .. } => type_break(code, *stack, base + 1),
        RawFrame::SameWithOneExtended { stack, .. } => type_break(code, *stack, base + 3),
        RawFrame::Append { locals, .. } => types_break(code, locals.as_slice(), base + 3),
        RawFrame::Full { locals, stack, .. } => {
            let behind = base + 7 + types_len(locals.as_slice());
            let local = types_break(code, locals.as_slice(), base + 5);
            lesser(local, types_break(code, stack.as_slice(), behind))
        }
        RawFrame::Same { .. } | RawFrame::Chop { .. } | RawFrame::SameExtended { .. } => None,
    }
}

/// Where the number stands in the frame that says at which offset the frame stands.
fn delta_place(frame: &RawFrame) -> usize
    ensures place { result ≡ delta_place frame.now }
    ensures small { result ≤ 1 }
{
    match frame {
        RawFrame::Same { .. } | RawFrame::SameWithOne { .. } => 0,
        _ => 1,
    }
}

fn delta_of(frame: &RawFrame) -> u16
    ensures { result ≡ delta_of frame.now }
{
    match frame {
        RawFrame::Same { delta } | RawFrame::SameWithOne { delta, .. } => u16::from(*delta),
        RawFrame::SameWithOneExtended { delta, .. }
        | RawFrame::Chop { delta, .. }
        | RawFrame::SameExtended { delta }
        | RawFrame::Append { delta, .. }
        | RawFrame::Full { delta, .. } => *delta,
    }
}

/// The first place in a frame at the offset that leads to no instruction, or to no `new`.
fn frame_break(code: &RawCode, frame: &RawFrame, at: u32, base: usize) -> Option<usize>
    requires starts { (len : ℕ) × AreStarts code.now len }
    requires frame { IsFrame frame.now }
    requires low { base < 2 ^ 53 }
    ensures { IsLeastOf (Behind base (FrameBreaks code.now at frame.now)) result }
{
    let stands = unless(
        starts(code.offsets.as_slice(), at),
        base + delta_place(frame),
    );
    lesser(stands, made_break(code, frame, base))
}

/// The first place in the frames of a StackMapTable that leads to no instruction, or to no `new`, where
/// the first frame has place `base` (JVM Specification 4.7.4).
pub(crate) fn frames_break(code: &RawCode, frames: &[RawFrame], base: usize) -> Option<usize>
    requires starts { (len : ℕ) × AreStarts code.now len }
    requires layout { IsLayout frames.now }
    requires low { base < 2 ^ 52 }
    ensures { IsLeastOf (InItems frames.now (FrameAtBreaks code.now frames.now base)) result }
{
    let mut first = None;
    let mut place = base;
    let mut next: u32 = 0;
    for frame in frames {
        let at = next + u32::from(delta_of(frame));
        first = lesser(first, frame_break(code, frame, at, place));
        next = at + 1;
        place += frame_len(frame);
    }
    first
}
