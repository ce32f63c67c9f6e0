//! Spelling whole frames, with the classes that they name added to a pool.
ghost use Rattle.std.specs.Prelude.{◌≡◌, ◌<◌, ◌≤◌, ◌^◌, List, length, IfOk, IfErr, Some};
ghost use Rattle.std.specs.List.{AllByRecursion};
ghost use Rattle.wv_base.specs.declared.frame.VType.{VType};
ghost use Rattle.wv_base.specs.declared.frame.Frame.{Frame};
ghost use Rattle.wv_pool.specs.declared.add.PoolFault.TheVariants as faults;
ghost use Rattle.wv_pool.specs.Adding.{AreTooMany, Keeps, Grows};
ghost use Rattle.wv_frames.specs.Spelling.{IsType, IsFrame, IsLayout};
ghost use Rattle.wv_frames.specs.Whole.{type_of, types_of, frame_after, delta_of, frames_from, Spells};
ghost use Rattle.wv_frames.specs.Writing.{IsWritableType, IsWritableFrame, IsWritable, type_needs, types_need, frame_needs, frames_need};

use crate::raw::{RawFrame, RawType, RawTypes};
use crate::writing::table_to_bytes;
use std::alloc::Global;
use wv_base::{Bytes, Const, Frame, FrameAt, FrameList, Items, VType};
use wv_pool::{Pool, PoolFault};

fn raw_type(kind: &VType, pool: &mut Pool) -> Result<RawType, PoolFault>
    requires { IsWritableType kind.now }
    ensures found { IfOk result (λ raw. IsType raw × (type_of pool.new raw ≡ Some kind.now)) }
    ensures kept { Keeps pool.old pool.new }
    ensures grows { IfOk result (λ _. Grows pool.old (type_needs kind.now) pool.new) }
    ensures full { IfErr result (λ e. e ≡ faults.Full → AreTooMany pool.old (type_needs kind.now)) }
{
    match kind {
        VType::Top => Ok(RawType::Top),
        VType::Int => Ok(RawType::Int),
        VType::Float => Ok(RawType::Float),
        VType::Double => Ok(RawType::Double),
        VType::Long => Ok(RawType::Long),
        VType::Null => Ok(RawType::Null),
        VType::UninitializedThis => Ok(RawType::UninitializedThis),
        VType::Uninitialized(at) => Ok(RawType::Uninitialized(*at as u16)),
        VType::Class(name) => {
            let class = Const::Class(name.copy()?);
            Ok(RawType::Object(pool.add(&class)?))
        }
    }
}

fn raw_types(alloc: Global, kinds: &[VType], pool: &mut Pool) -> Result<RawTypes, PoolFault>
    requires { AllByRecursion IsWritableType kinds.now }
    ensures found { IfOk result (λ raw. types_of pool.new raw ≡ Some kinds.now) }
    ensures types { IfOk result (λ raw. (length raw ≡ length kinds.now) × AllByRecursion IsType raw) }
    ensures kept { Keeps pool.old pool.new }
    ensures grows { IfOk result (λ _. Grows pool.old (types_need kinds.now) pool.new) }
    ensures full { IfErr result (λ e. e ≡ faults.Full → AreTooMany pool.old (types_need kinds.now)) }
{
    let mut raw = Items::new(alloc);
    for kind in kinds {
        raw.push(raw_type(kind, pool)?)?;
    }
    Ok(raw)
}

/// The frame as a full one.
fn raw_frame(
    alloc: Global,
    delta: u16,
    frame: &Frame,
    pool: &mut Pool,
) -> Result<RawFrame, PoolFault>
    requires { IsWritableFrame frame.now }
    ensures found { IfOk result (λ raw. (before : List VType) → frame_after pool.new before raw ≡ Some frame.now) }
    ensures frame { IfOk result (λ raw. IsFrame raw × (delta_of raw ≡ delta)) }
    ensures kept { Keeps pool.old pool.new }
    ensures grows { IfOk result (λ _. Grows pool.old (frame_needs frame.now) pool.new) }
    ensures full { IfErr result (λ e. e ≡ faults.Full → AreTooMany pool.old (frame_needs frame.now)) }
{
    let locals = raw_types(alloc, frame.locals.as_slice(), pool)?;
    let stack = raw_types(alloc, frame.stack.as_slice(), pool)?;
    Ok(RawFrame::Full {
        delta,
        locals,
        stack,
    })
}

fn raw_frames(
    alloc: Global,
    frames: &[FrameAt],
    pool: &mut Pool,
) -> Result<Vec<RawFrame>, PoolFault>
    requires { IsWritable frames.now }
    ensures found { IfOk result (λ raw. (before : List VType) → frames_from pool.new 0 before raw.items ≡ Some frames.now) }
    ensures layout { IfOk result (λ raw. IsLayout raw.items) }
    ensures kept { Keeps pool.old pool.new }
    ensures grows { IfOk result (λ _. Grows pool.old (frames_need frames.now) pool.new) }
    ensures full { IfErr result (λ e. e ≡ faults.Full → AreTooMany pool.old (frames_need frames.now)) }
{
    let mut raw = Vec::new(alloc);
    let mut next = 0;
    for one in frames {
        let delta = (one.at - next) as u16;
        raw.push(raw_frame(alloc, delta, &one.frame, pool)?)?;
        next = one.at + 1;
    }
    Ok(raw)
}

/// The content of a StackMapTable that has these frames, in whatever method it stands: each frame is
/// a full one (JVM Specification 4.7.4). The classes that the frames name are added to the pool,
/// where no number names them yet; `Full` says that they would make its count pass 65,535, and then
/// those before stay.
pub fn write_frames(alloc: Global, frames: &FrameList, pool: &mut Pool) -> Result<Bytes, PoolFault>
    requires { IsWritable frames.now }
    ensures read_again { (first : Frame) → IfOk result (λ bytes. Spells pool.new first bytes frames.now) }
    ensures kept { Keeps pool.old pool.new }
    // The pool grows by the constants that it lacks, each once.
    ensures grows { IfOk result (λ _. Grows pool.old (frames_need frames.now) pool.new) }
    // Those that it lacks would make the pool's count pass 65,535.
    ensures full { IfErr result (λ e. e ≡ faults.Full → AreTooMany pool.old (frames_need frames.now)) }
{
    let raw = raw_frames(alloc, frames.as_slice(), pool)?;
    Ok(Bytes::from_vec(table_to_bytes(alloc, &raw)?))
}
