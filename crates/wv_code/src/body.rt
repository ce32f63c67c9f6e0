//! The body that the content of a Code attribute means.
ghost use Rattle.std.specs.Prelude.{◌≡◌, ◌<◌, ◌↔◌, ℕ, List, [], ◌∷◌, Some, IsTrue, IfOk, MatchOption, slice_get};
ghost use Rattle.std.specs.List.{flat_map};
ghost use Rattle.wv_frames.specs.declared.raw.RawFrame.{RawFrame};
ghost use Rattle.wv_code.specs.Body.{frames_in, kept_name, kept_in, IsBodyOf, IsPlaced, IsStart};
ghost use Rattle.wv_code.specs.Breaks.{IsSound};
ghost use Rattle.wv_code.specs.Content.{IsContent};
ghost use Rattle.wv_code.specs.Formed.{AreFormed};

use crate::frame_index::frames_of;
use crate::instruction::insns_of;
use crate::range::ranges_of;
use crate::raw_body::{RawAttribute, RawBody};
use std::alloc::Global;
use wv_base::{Attribute, Body, Frame, Items, Memory, VType};
use wv_frames::RawFrame;
use wv_pool::Pool;

/// The frames of the StackMapTable, of which there is one at most.
fn frames_in(attributes: &[RawAttribute]) -> &[RawFrame]
    requires { (j k name other : ℕ) (fs gs : List RawFrame) → j < k → slice_get attributes.now j ≡ Some (RawAttribute.Frames name fs) → slice_get attributes.now k ≡ Some (RawAttribute.Frames other gs) → ⊥ }
    ensures { result.now ≡ frames_in attributes.now }
{
    for attribute in attributes {
        if let RawAttribute::Frames { frames, .. } = attribute {
            return frames.as_slice();
        }
    }
    &[]
}

/// The number of a kept attribute's name; 0 where the pool has no such number.
fn kept_name(pool: &Pool, name: u16) -> u16
    ensures { result ≡ kept_name pool.now name }
{
    if usize::from(name) <= pool.entries().len() {
        name
    } else {
        0
    }
}

/// The attribute as it is kept, if it is. Its content is moved.
fn kept_in(pool: &Pool, attribute: RawAttribute) -> Option<Attribute>
    ensures { MatchOption result (kept_in pool.now attribute ≡ []) (λ kept. kept_in pool.now attribute ≡ kept ∷ []) }
{
    match attribute {
        RawAttribute::Kept(Attribute { name, content }) => {
            let name = kept_name(pool, name);
            Some(Attribute { name, content })
        }
        RawAttribute::Frames { .. } => None,
    }
}

/// The attributes that are kept, in order.
fn kept_of(
    alloc: Global,
    pool: &Pool,
    attributes: Items<RawAttribute>,
) -> Result<Items<Attribute>, Memory>
    ensures { IfOk result (λ kept. kept ≡ flat_map (kept_in pool.now) attributes) }
{
    let mut attributes = attributes;
    let mut kept = Vec::new(alloc);
    while let Some(attribute) = attributes.pop() {
        if let Some(attribute) = kept_in(pool, attribute) {
            kept.push(attribute)?;
        }
    }
    kept.reverse();
    Ok(Items::from_vec(kept))
}

/// The body that the content of a Code attribute means in a method with this start frame (JVM
/// Specification 4.7.3 and 4.7.4): instructions by their indices in place of offsets, names in place
/// of numbers, and whole frames. The numbers of the names of other attributes stay as they are, but
/// for 0 in place of one that the pool hasn't. The content is as bytes have it, and each item of it
/// meets what it must, as `first_break` shows.
pub fn body_of(alloc: Global, pool: &Pool, first: &Frame, raw: RawBody) -> Result<Body, Memory>
    requires content { (bytes : List ℕ) × IsContent pool.now raw bytes }
    requires sound { IsSound pool.now first.now raw }
    requires start { IsStart first.now }
    ensures means { IfOk result (IsBodyOf pool.now first.now raw) }
    // So `layout` and `write_insns` take them.
    ensures formed { IfOk result (λ body. AreFormed body.insns) }
{
    // The entries: each number names what its place needs.
    let _entries = pool.entries();
    let RawBody {
        max_stack,
        max_locals,
        len,
        code,
        ranges,
        attributes,
    } = raw;
    let offsets = code.offsets.as_slice();
    let insns = insns_of(alloc, pool, offsets, code.raws.as_slice())?;
    let ranges = ranges_of(alloc, pool, offsets, len, ranges.as_slice())?;
    let frames = frames_of(alloc, pool, first, &code, frames_in(attributes.as_slice()))?;
    let kept = kept_of(alloc, pool, attributes)?;
    Ok(Body {
        max_stack,
        max_locals,
        insns,
        ranges,
        frames,
        kept,
    })
}

/// Whether the frame is one that a method may start with: no type of its locals has a place.
pub fn is_start(first: &Frame) -> bool
    ensures { IsTrue result ↔ IsStart first.now }
{
    for local in first.locals.as_slice() {
        if matches!(local, VType::Uninitialized(_)) {
            return false;
        }
    }
    true
}
