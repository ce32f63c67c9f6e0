//! Whether frames can be written.
ghost use Rattle.std.specs.Prelude.{◌≡◌, ◌↔◌, IsTrue, IfOk};
ghost use Rattle.wv_frames.specs.Writing.{IsWritableType, AreWritable, IsWritableFrame, IsWritable};

use crate::whole::has_this;
use wv_base::{Const, Frame, FrameList, Memory, VType};
use wv_pool::is_allowed;

fn is_writable_type(kind: &VType) -> Result<bool, Memory>
    ensures { IfOk result (λ writable. IsTrue writable ↔ IsWritableType kind.now) }
{
    match kind {
        VType::Class(name) => {
            let class = Const::Class(name.copy()?);
            Ok(is_allowed(&class))
        }
        VType::Uninitialized(at) => Ok(*at <= 0xFFFF),
        _ => Ok(true),
    }
}

fn are_writable(kinds: &[VType]) -> Result<bool, Memory>
    ensures { IfOk result (λ writable. IsTrue writable ↔ AreWritable kinds.now) }
{
    if kinds.len() > 0xFFFF {
        return Ok(false);
    }
    for kind in kinds {
        if !is_writable_type(kind)? {
            return Ok(false);
        }
    }
    Ok(true)
}

fn is_writable_frame(frame: &Frame) -> Result<bool, Memory>
    ensures { IfOk result (λ writable. IsTrue writable ↔ IsWritableFrame frame.now) }
{
    let locals = are_writable(frame.locals.as_slice())?;
    let stack = are_writable(frame.stack.as_slice())?;
    let flag = has_this(frame.locals.as_slice());
    Ok(locals && stack && frame.this_uninitialized == flag)
}

/// Whether a StackMapTable can have these frames (JVM Specification 4.7.4): there are at most 65,535,
/// their offsets ascend and have 16 bits, as the counts of their types and the offsets in them have,
/// a pool may hold the names of their classes, and the flag is set exactly where a local is `this`
/// before its initialization.
pub fn is_writable(frames: &FrameList) -> Result<bool, Memory>
    ensures { IfOk result (λ writable. IsTrue writable ↔ IsWritable frames.now) }
{
    if frames.len() > 0xFFFF {
        return Ok(false);
    }
    let mut next = 0;
    for one in frames.as_slice() {
        if one.at < next || one.at > 0xFFFF || !is_writable_frame(&one.frame)? {
            return Ok(false);
        }
        next = one.at + 1;
    }
    Ok(true)
}
