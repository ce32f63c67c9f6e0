//! Whole frames, each from its spelling and the frame before.
ghost use Rattle.std.specs.Prelude.{◌≡◌, ◌+◌, ◌<◌, ◌≤◌, ◌*◌, ◌^◌, ◌∷◌, [], length, IsTrue, IfOk, IfErr, IfSome, IfNone, Some, None};
ghost use Rattle.std.specs.List.{list_any, flat_map};
ghost use Rattle.wv_base.specs.declared.fault.ClassFault.TheVariants as faults;
ghost use Rattle.wv_frames.specs.Spelling.{type_bytes, frame_bytes, IsFrame, IsLayout};
ghost use Rattle.wv_frames.specs.Whole.{type_of, types_of, is_this, frame_of, frame_after, delta_of, frames_from, locals_behind};
ghost use Rattle.wv_frames.specs.References.{TypesBreak, BreaksAt, FirstBreaks};
ghost use Rattle.wv_frames.specs.Answers.{TypeBreaks, TypesBreakFrom, FrameBreaks, ReferencesBreak};

use crate::raw::{RawFrame, RawType};
use std::alloc::Global;
use wv_base::{ClassFault, Frame, FrameAt, FrameList, Items, VType};
use wv_pool::Pool;

/// How many bytes a verification type takes (JVM Specification 4.7.4).
pub fn type_len(raw: RawType) -> usize
    ensures len { result ≡ length (type_bytes raw) }
    ensures small { result ≤ 3 }
{
    match raw {
        RawType::Object(_) | RawType::Uninitialized(_) => 3,
        _ => 1,
    }
}

fn types_len(raw: &[RawType]) -> usize
    requires { length raw.now < 65536 }
    ensures len { result ≡ length (flat_map type_bytes raw.now) }
    ensures small { result ≤ 3 * length raw.now }
{
    let mut len = 0;
    for one in raw {
        len += type_len(*one);
    }
    len
}

/// How many bytes a frame takes (JVM Specification 4.7.4).
pub fn frame_len(raw: &RawFrame) -> usize
    requires { IsFrame raw.now }
    ensures len { result ≡ length (frame_bytes raw.now) }
    ensures small { result ≤ 393217 }
{
    match raw {
        RawFrame::Same { .. } => 1,
        RawFrame::SameWithOne { stack, .. } => 1 + type_len(*stack),
        RawFrame::SameWithOneExtended { stack, .. } => 3 + type_len(*stack),
        RawFrame::Chop { .. } | RawFrame::SameExtended { .. } => 3,
        RawFrame::Append { locals, .. } => 3 + types_len(locals.as_slice()),
        RawFrame::Full { locals, stack, .. } => {
            7 + types_len(locals.as_slice()) + types_len(stack.as_slice())
        }
    }
}

/// The type that is spelled so. The fault is at `at`, where the number stands.
fn whole_type(raw: RawType, pool: &Pool, at: usize) -> Result<VType, ClassFault>
    ensures found { IfOk result (λ type. type_of pool.now raw ≡ Some type) }
    ensures fault { IfErr result (TypeBreaks pool.now raw at) }
{
    Ok(match raw {
        RawType::Top => VType::Top,
        RawType::Int => VType::Int,
        RawType::Float => VType::Float,
        RawType::Double => VType::Double,
        RawType::Long => VType::Long,
        RawType::Null => VType::Null,
        RawType::UninitializedThis => VType::UninitializedThis,
        RawType::Uninitialized(offset) => VType::Uninitialized(u32::from(offset)),
        RawType::Object(class) => match pool.class_name(class) {
            Some(name) => VType::Class(name.copy()?),
            None => return Err(ClassFault::Reference { at }),
        },
    })
}

/// The types that are spelled so, whose bytes begin at `base`.
fn whole_types(
    alloc: Global,
    raw: &[RawType],
    pool: &Pool,
    base: usize,
) -> Result<Items<VType>, ClassFault>
    requires few { length raw.now < 65536 }
    requires low { base < 2 ^ 40 }
    ensures found { IfOk result (λ types. types_of pool.now raw.now ≡ Some types) }
    ensures fault { IfErr result (TypesBreakFrom pool.now raw.now base) }
{
    let mut types = Items::new(alloc);
    let mut at = base;
    for one in raw {
        types.push(whole_type(*one, pool, at + 1)?)?;
        at += type_len(*one);
    }
    Ok(types)
}

fn copy_locals(alloc: Global, locals: &[VType]) -> Result<Items<VType>, ClassFault>
    ensures found { IfOk result (λ copy. copy ≡ locals.now) }
    ensures fault { IfErr result (λ e. e ≡ faults.Memory) }
{
    let mut copy = Items::new(alloc);
    for local in locals {
        copy.push(local.copy()?)?;
    }
    Ok(copy)
}

/// Whether a local is `this` before its initialization.
pub(crate) fn has_this(locals: &[VType]) -> bool
    ensures { result ≡ list_any is_this locals.now }
{
    locals
        .iter()
        .any(|local| matches!(local, VType::UninitializedThis))
}

/// The frame with these locals and this stack.
fn frame_of(locals: Items<VType>, stack: Items<VType>) -> Frame
    ensures { result ≡ frame_of locals stack }
{
    let this_uninitialized = has_this(locals.as_slice());
    Frame {
        locals,
        stack,
        this_uninitialized,
    }
}

/// The frame with these locals and one item on the stack, whose type's bytes begin at `base`.
fn frame_with_one(
    alloc: Global,
    locals: &[VType],
    stack: RawType,
    pool: &Pool,
    base: usize,
) -> Result<Frame, ClassFault>
    requires { base < 2 ^ 40 }
    ensures found { IfOk result (λ frame. types_of pool.now (stack ∷ []) ≡ Some frame.stack × (frame ≡ frame_of locals.now frame.stack)) }
    ensures fault { IfErr result (TypesBreakFrom pool.now (stack ∷ []) base) }
{
    let stack = whole_types(alloc, &[stack], pool, base)?;
    Ok(frame_of(copy_locals(alloc, locals)?, stack))
}

/// The frame that is spelled so from `base` on, behind one with these locals.
fn frame_after(
    alloc: Global,
    locals: &[VType],
    raw: &RawFrame,
    pool: &Pool,
    base: usize,
) -> Result<Frame, ClassFault>
    requires frame { IsFrame raw.now }
    requires low { base < 2 ^ 36 }
    ensures found { IfOk result (λ frame. frame_after pool.now locals.now raw.now ≡ Some frame) }
    ensures fault { IfErr result (FrameBreaks pool.now locals.now raw.now base) }
{
    match raw {
        RawFrame::Same { .. } | RawFrame::SameExtended { .. } => {
            Ok(frame_of(copy_locals(alloc, locals)?, Items::new(alloc)))
        }
        RawFrame::SameWithOne { stack, .. } => frame_with_one(
            alloc,
            locals,
            *stack,
            pool,
            base + 1,
        ),
        RawFrame::SameWithOneExtended { stack, .. } => {
            frame_with_one(alloc, locals, *stack, pool, base + 3)
        }
        RawFrame::Chop { count, .. } => {
            let Some(left) = locals.len().checked_sub(usize::from(*count)) else {
                return Err(ClassFault::Reference { at: base });
            };
            Ok(frame_of(copy_locals(alloc, &locals[..left])?, Items::new(alloc)))
        }
        RawFrame::Append { locals: more, .. } => {
            let last = whole_types(alloc, more.as_slice(), pool, base + 3)?;
            let mut all = copy_locals(alloc, locals)?;
            all.append(last)?;
            Ok(frame_of(all, Items::new(alloc)))
        }
        RawFrame::Full {
            locals: all,
            stack,
            ..
        } => {
            let first = whole_types(alloc, all.as_slice(), pool, base + 5)?;
            let behind = base + 7 + types_len(all.as_slice());
            Ok(frame_of(first, whole_types(alloc, stack.as_slice(), pool, behind)?))
        }
    }
}

fn delta_of(raw: &RawFrame) -> u16
    ensures { result ≡ delta_of raw.now }
{
    match raw {
        RawFrame::Same { delta } | RawFrame::SameWithOne { delta, .. } => u16::from(*delta),
        RawFrame::SameWithOneExtended { delta, .. }
        | RawFrame::Chop { delta, .. }
        | RawFrame::SameExtended { delta }
        | RawFrame::Append { delta, .. }
        | RawFrame::Full { delta, .. } => *delta,
    }
}

/// The locals of the last frame, or those before the first.
fn locals_behind<'a>(frames: &'a FrameList, first: &'a Frame) -> &'a [VType]
    ensures { result.now ≡ locals_behind first.now.locals frames.now }
{
    match frames.as_slice().last() {
        Some(one) => one.frame.locals.as_slice(),
        None => first.locals.as_slice(),
    }
}

/// The whole frames that these spell in a method with this start frame, each relative one read from
/// the frame before (JVM Specification 4.7.4). The frames were read as a layout. The place of a fault
/// counts from the table's count on.
pub fn whole_frames(
    alloc: Global,
    raw: &[RawFrame],
    pool: &Pool,
    first: &Frame,
) -> Result<FrameList, ClassFault>
    requires { IsLayout raw.now }
    ensures found { IfOk result (λ all. frames_from pool.now 0 first.now.locals raw.now ≡ Some all) }
    ensures fault { IfErr result (ReferencesBreak pool.now first.now raw.now) }
{
    let mut frames = Items::new(alloc);
    let mut place = 2;
    let mut next: u32 = 0;
    for one in raw {
        let frame = frame_after(alloc, locals_behind(&frames, first), one, pool, place)?;
        let at = next + u32::from(delta_of(one));
        frames.push(FrameAt { at, frame })?;
        next = at + 1;
        place += frame_len(one);
    }
    Ok(frames)
}
