//! Reading the frames of a method.
ghost use Rattle.std.specs.Prelude.{◌≡◌, ◌+◌, ◌^◌, ◌<◌, List, ℕ, length, IfOk, IfErr};
ghost use Rattle.std.specs.Result.{result_map_both};
ghost use Rattle.wv_base.specs.declared.frame.FrameAt.{FrameAt};
ghost use Rattle.wv_frames.specs.declared.raw.RawFrame.{RawFrame};
ghost use Rattle.wv_frames.specs.Spelling.{table_bytes, IsLayout};
ghost use Rattle.wv_frames.specs.Whole.{Spells};
ghost use Rattle.wv_frames.specs.Answers.{GivesFrames, LayoutBreaks, FramesBreak};

use crate::layout::table_at;
use crate::raw::RawFrame;
use crate::stop::Stop;
use crate::whole::whole_frames;
use std::alloc::Global;
use wv_base::{ClassFault, Frame, FrameList};
use wv_pool::Pool;

/// The frames as they are spelled in the content of a StackMapTable, which they must fill exactly,
/// whatever their numbers name (JVM Specification 4.7.4). `bytes` are the first bytes of the content,
/// which has `missing` bytes more that aren't there; a whole content has none missing, and only from a
/// whole one frames are read. The place of a fault counts from the start of `bytes`, and is the first
/// byte with which no table of this size goes on, or their end where others are missing. The content of
/// an attribute has fewer than 2^32 bytes.
pub fn read_layout(alloc: Global, bytes: &[u8], missing: u32) -> Result<Vec<RawFrame>, ClassFault>
    requires { length bytes.now + missing < 2 ^ 32 }
    // What is read was spelled so, and wholly there.
    ensures found { IfOk result (λ raw. IsLayout raw.items × (bytes.now ≡ table_bytes raw.items) × (missing ≡ 0)) }
    // What is spelled so is read, unless memory runs out.
    ensures only { (raw : List RawFrame) → IsLayout raw → bytes.now ≡ table_bytes raw → missing ≡ 0 → GivesFrames (result_map_both (λ x. x.items) (λ e. e) result) raw }
    ensures fault { IfErr result (LayoutBreaks missing bytes.now) }
{
    match table_at(alloc, bytes, missing) {
        Ok((frames, _)) => Ok(frames),
        Err(Stop::Left(left)) => Err(ClassFault::Layout {
            at: bytes.len() - left,
        }),
        Err(Stop::Memory) => Err(ClassFault::Memory),
    }
}

/// The whole frames that the content of a StackMapTable spells, which they must fill exactly, in a
/// method with this start frame (JVM Specification 4.7.4). A fault of the layout comes before every
/// other. The place of a fault counts from the start of `bytes`; that of a chop of more locals than
/// there are is the frame's tag. Whether offsets name instructions isn't asked.
pub fn read_frames(
    alloc: Global,
    bytes: &[u8],
    pool: &Pool,
    first: &Frame,
) -> Result<FrameList, ClassFault>
    requires { length bytes.now < 2 ^ 32 }
    ensures found { IfOk result (Spells pool.now first.now bytes.now) }
    ensures only { (all : List FrameAt) → Spells pool.now first.now bytes.now all → GivesFrames result all }
    ensures fault { IfErr result (FramesBreak pool.now first.now bytes.now) }
{
    let raw = read_layout(alloc, bytes, 0)?;
    whole_frames(alloc, &raw, pool, first)
}
