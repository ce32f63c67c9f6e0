//! Whether a Code attribute can have a body.
ghost use Rattle.std.specs.Prelude.{◌≡◌, ◌↔◌, IsTrue, IfOk};
ghost use Rattle.std.specs.List.{list_any};
ghost use Rattle.wv_pool.specs.Allowed.{IsClassText};
ghost use Rattle.wv_frames.specs.Whole.{is_this};
ghost use Rattle.wv_code.specs.Content.{NamesFrames};
ghost use Rattle.wv_code.specs.FormedBody.{IsCaught, IsFormedRange, AreFormedRanges, Makes, IsFormedType, AreFormedTypes, IsFormedFrame, AreFormedFrom, AreFormedFrames, IsFormedKept, table_count, AreFormedKept, IsFormedBody};

use crate::formed::are_formed;
use crate::opcode::NEW;
use wv_base::{Attribute, Body, Const, ExceptionRange, Frame, FrameAt, Insn, Memory, Name, VType};
use wv_pool::{Pool, is_allowed};

/// Whether a pool may hold the class.
fn is_class_text(name: &Name) -> Result<bool, Memory>
    ensures { IfOk result (λ is. IsTrue is ↔ IsClassText name.now) }
{
    let class = Const::Class(name.copy()?);
    Ok(is_allowed(&class))
}

fn is_caught(catch: &Option<Name>) -> Result<bool, Memory>
    ensures { IfOk result (λ is. IsTrue is ↔ IsCaught catch.now) }
{
    match catch {
        Some(name) => is_class_text(name),
        None => Ok(true),
    }
}

fn is_formed_range(range: &ExceptionRange, count: usize) -> Result<bool, Memory>
    ensures { IfOk result (λ is. IsTrue is ↔ IsFormedRange count range.now) }
{
    let caught = is_caught(&range.catch)?;
    Ok(
        caught
            && range.start < range.end
            && range.end as usize <= count
            && (range.handler as usize) < count,
    )
}

fn are_formed_ranges(ranges: &[ExceptionRange], count: usize) -> Result<bool, Memory>
    ensures { IfOk result (λ are. IsTrue are ↔ AreFormedRanges count ranges.now) }
{
    if ranges.len() > 0xFFFF {
        return Ok(false);
    }
    for range in ranges {
        if !is_formed_range(range, count)? {
            return Ok(false);
        }
    }
    Ok(true)
}

/// Whether the instruction with the index is a `new`.
fn makes(insns: &[Insn], index: u32) -> bool
    ensures { IsTrue result ↔ Makes insns.now index }
{
    match insns.get(index as usize) {
        Some(Insn::Class { op, .. }) => *op == NEW,
        _ => false,
    }
}

fn is_formed_type(kind: &VType, insns: &[Insn]) -> Result<bool, Memory>
    ensures { IfOk result (λ is. IsTrue is ↔ IsFormedType insns.now kind.now) }
{
    match kind {
        VType::Class(name) => is_class_text(name),
        VType::Uninitialized(index) => Ok(makes(insns, *index)),
        _ => Ok(true),
    }
}

fn are_formed_types(kinds: &[VType], insns: &[Insn]) -> Result<bool, Memory>
    ensures { IfOk result (λ are. IsTrue are ↔ AreFormedTypes insns.now kinds.now) }
{
    if kinds.len() > 0xFFFF {
        return Ok(false);
    }
    for kind in kinds {
        if !is_formed_type(kind, insns)? {
            return Ok(false);
        }
    }
    Ok(true)
}

/// Whether a local is `this` before its initialization.
fn has_this(locals: &[VType]) -> bool
    ensures { result ≡ list_any is_this locals.now }
{
    locals
        .iter()
        .any(|local| matches!(local, VType::UninitializedThis))
}

fn is_formed_frame(frame: &Frame, insns: &[Insn]) -> Result<bool, Memory>
    ensures { IfOk result (λ is. IsTrue is ↔ IsFormedFrame insns.now frame.now) }
{
    let locals = are_formed_types(frame.locals.as_slice(), insns)?;
    let stack = are_formed_types(frame.stack.as_slice(), insns)?;
    let flag = has_this(frame.locals.as_slice());
    Ok(locals && stack && frame.this_uninitialized == flag)
}

fn are_formed_frames(frames: &[FrameAt], insns: &[Insn]) -> Result<bool, Memory>
    ensures { IfOk result (λ are. IsTrue are ↔ AreFormedFrames insns.now frames.now) }
{
    if frames.len() > 0xFFFF {
        return Ok(false);
    }
    let mut next: u64 = 0;
    for one in frames {
        let at = u64::from(one.at);
        if at < next || at >= insns.len() as u64 || !is_formed_frame(&one.frame, insns)? {
            return Ok(false);
        }
        next = at + 1;
    }
    Ok(true)
}

/// Whether the number is that of the name StackMapTable.
fn names_frames(pool: &Pool, name: u16) -> bool
    ensures { IsTrue result ↔ NamesFrames pool.now name }
{
    match pool.text(name) {
        Some(text) => text.is_ascii("StackMapTable"),
        None => false,
    }
}

fn is_formed_kept(attribute: &Attribute, pool: &Pool) -> bool
    ensures { IsTrue result ↔ IsFormedKept pool.now attribute.now }
{
    attribute.name as usize <= pool.entries().len()
        && !names_frames(pool, attribute.name)
        && attribute.content.len() < 0x1_0000_0000
}

/// How many StackMapTables there are.
fn table_count(frames: &[FrameAt]) -> usize
    ensures { result ≡ table_count frames.now }
{
    if frames.is_empty() { 0 } else { 1 }
}

/// Whether the attributes are no StackMapTables, and there is room for as many.
fn are_formed_kept(body: &Body, pool: &Pool) -> bool
    ensures { IsTrue result ↔ AreFormedKept pool.now body.now }
{
    let kept = body.kept.as_slice();
    if kept.len() > 0xFFFF || kept.len() + table_count(body.frames.as_slice()) > 0xFFFF {
        return false;
    }
    for attribute in kept {
        if !is_formed_kept(attribute, pool) {
            return false;
        }
    }
    true
}

/// Whether a Code attribute can have the body (JVM Specification 4.7.3 and 4.7.4): there are at least one and
/// fewer than 2^31 instructions, as a class file may have them; ranges, frames and the objects of frames stand
/// at instructions, each of these at a `new`; a pool may hold the classes that ranges and frames name; frames
/// ascend, and have their flag exactly where a local is `this` before its initialization; the attributes that
/// are kept have numbers of the pool, and none that names StackMapTable; and each count has 16 bits.
pub fn is_formed(body: &Body, pool: &Pool) -> Result<bool, Memory>
    ensures { IfOk result (λ is. IsTrue is ↔ IsFormedBody pool.now body.now) }
{
    let insns = body.insns.as_slice();
    if insns.is_empty() || insns.len() >= 0x8000_0000 || !are_formed_kept(body, pool) {
        return Ok(false);
    }
    Ok(
        are_formed(insns)?
            && are_formed_ranges(body.ranges.as_slice(), insns.len())?
            && are_formed_frames(body.frames.as_slice(), insns)?,
    )
}
