//! Frames with offsets in place of indices, and their attribute.
ghost use Rattle.std.specs.Prelude.{◌≡◌, ◌<◌, ◌≤◌, [], ◌∷◌, length, IfOk, OnOk, IfErr};
ghost use Rattle.std.specs.List.{flat_map, AllByRecursion};
ghost use Rattle.wv_base.specs.declared.frame.Frame.{Frame};
ghost use Rattle.wv_pool.specs.declared.add.PoolFault.TheVariants as faults;
ghost use Rattle.wv_pool.specs.Adding.{Keeps};
ghost use Rattle.wv_pool.specs.Numbers.{Named};
ghost use Rattle.wv_code.specs.Laying.{IsLayout};
ghost use Rattle.wv_code.specs.Body.{IsTypeOf, AreTypesOf, IsFrameOf, AreFramesOf};
ghost use Rattle.wv_code.specs.FormedBody.{AreFormedFrames};
ghost use Rattle.wv_code.specs.BodyConstants.{frame_constants, table_constants};
ghost use Rattle.wv_code.specs.WritingBody.{IsWithin, AreWithin, WritesFrames, WritesTables};

use crate::code_layout::CodeLayout;
use crate::laying::offset_at;
use crate::writing::number_of;
use std::alloc::Global;
use wv_base::{
    Attribute, Body, Bytes, Const, Frame, FrameAt, FrameList, Items, Memory, Name, VType,
};
use wv_frames::write_frames;
use wv_pool::{Pool, PoolFault};

fn offset_type(kind: &VType, offsets: &[u32]) -> Result<VType, Memory>
    requires { IsWithin (length offsets.now) kind.now }
    ensures { IfOk result (λ raw. IsTypeOf offsets.now raw kind.now) }
{
    match kind {
        VType::Uninitialized(index) => {
            let at = offset_at(offsets, *index as usize);
            Ok(VType::Uninitialized(at))
        }
        _ => kind.copy(),
    }
}

fn offset_types(alloc: Global, kinds: &[VType], offsets: &[u32]) -> Result<Items<VType>, Memory>
    requires { AllByRecursion (IsWithin (length offsets.now)) kinds.now }
    ensures { IfOk result (λ raws. AreTypesOf offsets.now raws kinds.now) }
{
    let mut raws = Items::new(alloc);
    for kind in kinds {
        raws.push(offset_type(kind, offsets)?)?;
    }
    Ok(raws)
}

fn offset_frame(alloc: Global, one: &FrameAt, offsets: &[u32]) -> Result<FrameAt, Memory>
    requires { AreWithin (length offsets.now) one.now }
    ensures { IfOk result (λ raw. IsFrameOf offsets.now raw one.now) }
{
    let locals = offset_types(alloc, one.frame.locals.as_slice(), offsets)?;
    let stack = offset_types(alloc, one.frame.stack.as_slice(), offsets)?;
    Ok(FrameAt {
        at: offset_at(offsets, one.at as usize),
        frame: Frame {
            locals,
            stack,
            this_uninitialized: one.frame.this_uninitialized,
        },
    })
}

fn offset_frames(alloc: Global, frames: &[FrameAt], offsets: &[u32]) -> Result<FrameList, Memory>
    requires { AllByRecursion (AreWithin (length offsets.now)) frames.now }
    ensures { IfOk result (λ raws. AreFramesOf offsets.now raws frames.now) }
{
    let mut raws = Items::new(alloc);
    for one in frames {
        raws.push(offset_frame(alloc, one, offsets)?)?;
    }
    Ok(raws)
}

/// The content of the body's StackMapTable, with offsets in place of indices. The pool has the classes.
fn frame_content(
    alloc: Global,
    body: &Body,
    layout: &CodeLayout,
    pool: &mut Pool,
) -> Result<Bytes, PoolFault>
    requires formed { AreFormedFrames body.now.insns body.now.frames }
    requires laid { IsLayout pool.old body.now.insns layout.now }
    requires named { AllByRecursion (Named pool.old) (flat_map frame_constants body.now.frames) }
    ensures written { (first : Frame) → IfOk result (WritesFrames pool.new layout.now.offsets body.now.frames first) }
    ensures same { OnOk result (pool.new ≡ pool.old) }
    ensures kept { Keeps pool.old pool.new }
    ensures not_full { IfErr result (λ e. e ≡ faults.Full → ⊥) }
{
    // The entries as they are: the pool has room for no constant more, which it needn't have.
    let _entries = pool.entries();
    let raws = offset_frames(alloc, body.frames.as_slice(), layout.offsets.as_slice())?;
    Ok(write_frames(alloc, &raws, pool)?)
}

/// The StackMapTable of a body that has frames.
fn table(
    alloc: Global,
    body: &Body,
    layout: &CodeLayout,
    pool: &mut Pool,
) -> Result<Attribute, PoolFault>
    requires some { 1 ≤ length body.now.frames }
    requires formed { AreFormedFrames body.now.insns body.now.frames }
    requires laid { IsLayout pool.old body.now.insns layout.now }
    requires named { AllByRecursion (Named pool.old) (table_constants body.now.frames) }
    ensures written { (first : Frame) → IfOk result (λ a. WritesTables pool.new layout.now.offsets body.now.frames first (a ∷ [])) }
    ensures same { OnOk result (pool.new ≡ pool.old) }
    ensures kept { Keeps pool.old pool.new }
    ensures not_full { IfErr result (λ e. e ≡ faults.Full → ⊥) }
{
    let text = Name::from_ascii(alloc, "StackMapTable")?;
    let name = number_of(pool, &Const::Utf8(text));
    let content = frame_content(alloc, body, layout, pool)?;
    if content.len() >= 0x1_0000_0000 {
        return Err(PoolFault::Memory);
    }
    Ok(Attribute { name, content })
}

/// The StackMapTable of the body, if it has frames, with the numbers of the pool, which has what they name. A table
/// of 2^32 bytes or more has no room in an attribute: that is answered as want of memory.
pub(crate) fn tables(
    alloc: Global,
    body: &Body,
    layout: &CodeLayout,
    pool: &mut Pool,
) -> Result<Items<Attribute>, PoolFault>
    requires formed { AreFormedFrames body.now.insns body.now.frames }
    requires laid { IsLayout pool.old body.now.insns layout.now }
    requires named { AllByRecursion (Named pool.old) (table_constants body.now.frames) }
    ensures written { (first : Frame) → IfOk result (WritesTables pool.new layout.now.offsets body.now.frames first) }
    ensures same { OnOk result (pool.new ≡ pool.old) }
    ensures kept { Keeps pool.old pool.new }
    ensures not_full { IfErr result (λ e. e ≡ faults.Full → ⊥) }
{
    let mut found = Items::new(alloc);
    if body.frames.is_empty() {
        return Ok(found);
    }
    found.push(table(alloc, body, layout, pool)?)?;
    Ok(found)
}
