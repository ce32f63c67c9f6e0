//! The frames that bytes mean, at the indices of instructions.
ghost use Rattle.std.specs.Prelude.{◌≡◌, ℕ, List, Some, IfOk};
ghost use Rattle.std.specs.List.{AllByRecursion};
ghost use Rattle.std.specs.List.Sorted.{IsStrictlyIncreasing};
ghost use Rattle.wv_base.specs.declared.frame.FrameAt.{FrameAt};
ghost use Rattle.wv_frames.specs.Spelling.{IsLayout};
ghost use Rattle.wv_frames.specs.Whole.{frames_from};
ghost use Rattle.wv_code.specs.Body.{IsTypeOf, AreTypesOf, IsFrameOf, AreFramesOf, IsStart};
ghost use Rattle.wv_code.specs.Breaks.{Starts, FramesBreak};
ghost use Rattle.wv_code.specs.Placed.{IsTypePlaced, IsFramePlaced};

use crate::splitting::RawCode;
use crate::target::start_of;
use std::alloc::Global;
use wv_base::{ClassFault, Frame, FrameAt, FrameList, Items, Memory, VType};
use wv_frames::{RawFrame, whole_frames};
use wv_pool::Pool;

/// The type, with the index of its `new` in place of the offset.
fn type_at(offsets: &[u32], kind: &VType) -> Result<VType, Memory>
    requires ascend { IsStrictlyIncreasing offsets.now }
    requires placed { IsTypePlaced offsets.now kind.now }
    ensures { IfOk result (IsTypeOf offsets.now kind.now) }
{
    match kind {
        VType::Uninitialized(at) => Ok(VType::Uninitialized(start_of(offsets, *at))),
        _ => kind.copy(),
    }
}

fn types_at(alloc: Global, offsets: &[u32], kinds: &[VType]) -> Result<Items<VType>, Memory>
    requires ascend { IsStrictlyIncreasing offsets.now }
    requires placed { AllByRecursion (IsTypePlaced offsets.now) kinds.now }
    ensures { IfOk result (AreTypesOf offsets.now kinds.now) }
{
    let mut types = Items::new(alloc);
    for kind in kinds {
        types.push(type_at(offsets, kind)?)?;
    }
    Ok(types)
}

/// The frame, with indices in place of offsets.
fn frame_at(alloc: Global, offsets: &[u32], raw: &FrameAt) -> Result<FrameAt, Memory>
    requires ascend { IsStrictlyIncreasing offsets.now }
    requires placed { IsFramePlaced offsets.now raw.now }
    ensures { IfOk result (IsFrameOf offsets.now raw.now) }
{
    let at = start_of(offsets, raw.at);
    let locals = types_at(alloc, offsets, raw.frame.locals.as_slice())?;
    let stack = types_at(alloc, offsets, raw.frame.stack.as_slice())?;
    let this_uninitialized = raw.frame.this_uninitialized;
    Ok(FrameAt {
        at,
        frame: Frame {
            locals,
            stack,
            this_uninitialized,
        },
    })
}

fn frames_at(alloc: Global, offsets: &[u32], raws: &[FrameAt]) -> Result<FrameList, Memory>
    requires ascend { IsStrictlyIncreasing offsets.now }
    requires placed { AllByRecursion (IsFramePlaced offsets.now) raws.now }
    ensures { IfOk result (AreFramesOf offsets.now raws.now) }
{
    let mut frames = Items::new(alloc);
    for raw in raws {
        frames.push(frame_at(alloc, offsets, raw)?)?;
    }
    Ok(frames)
}

/// The frames that a StackMapTable spells in a method with this code and start frame, where no item
/// of it breaks what it must meet.
pub(crate) fn frames_of(
    alloc: Global,
    pool: &Pool,
    first: &Frame,
    code: &RawCode,
    raws: &[RawFrame],
) -> Result<FrameList, Memory>
    requires ascend { IsStrictlyIncreasing code.now.offsets }
    requires layout { IsLayout raws.now }
    requires start { IsStart first.now }
    requires sound { (place : ℕ) → FramesBreak pool.now first.now code.now raws.now place → ⊥ }
    ensures { IfOk result (λ all. (spelled : List FrameAt) × (frames_from pool.now 0 first.now.locals raws.now ≡ Some spelled) × AreFramesOf code.now.offsets spelled all) }
{
    match whole_frames(alloc, raws, pool, first) {
        Ok(whole) => frames_at(alloc, code.offsets.as_slice(), whole.as_slice()),
        Err(fault) => match fault {
            ClassFault::Memory => Err(Memory),
            ClassFault::Layout { .. } => unreachable!(),
            ClassFault::Reference { .. } => unreachable!(),
        },
    }
}
