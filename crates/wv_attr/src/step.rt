//! Reading one part of a table.
ghost use Rattle.std.specs.Prelude.{◌≡◌, ◌↔◌, ◌+◌, ◌-◌, ◌^◌, ◌<◌, ◌≤◌, min, [], ◌∷◌, length, IsTrue, ◌⊎◌};
ghost use Rattle.wv_room.specs.Counts.{elements_with, ElementsFillRoom};
ghost use Rattle.wv_room.specs.Number.{AllowsSome};
ghost use Rattle.wv_room.specs.declared.element_count.ElementKind.TheVariants as kinds;
ghost use Rattle.wv_attr.specs.Marks.{two_bytes, is_constant_tag};
ghost use Rattle.wv_attr.specs.Steps.{padded, Steps, StepsWithin, Counts};

use crate::group::Group;
use crate::mark::Mark;
use wv_room::{Allows, ElementCount, ElementKind, Elements, read_number};

/// The deepest that element values may nest.
const DEEPEST: u16 = 255;

/// The most bytes that a part has.
const LONGEST: usize = 5;

fn number(high: u8, low: u8) -> u16
    ensures { two_bytes result ≡ high ∷ low ∷ [] }
{
    u16::from(high) * 256 + u16::from(low)
}

/// Whether so many items of the kind can fill the room, besides what else is to come.
fn leaves(besides: Elements, kind: ElementKind, count: u32, room: usize) -> bool
    requires { room < 2 ^ 32 }
    ensures { IsTrue result ↔ ElementsFillRoom (elements_with kind count besides) room }
{
    let room = room as u32;
    ElementCount {
        kind,
        besides,
        room,
    }
    .allows_value(count)
}

/// Whether some number of values can.
fn leaves_some(besides: Elements, room: usize) -> bool
    requires { room < 2 ^ 32 }
    ensures { IsTrue result ↔ AllowsSome (λ count. ElementsFillRoom (elements_with kinds.Value count besides) room) 0 65535 }
{
    let room = room as u32;
    ElementCount {
        kind: ElementKind::Value,
        besides,
        room,
    }
    .allows_some(0, 65535)
}

/// The count at the front of the bytes, behind which so many are missing.
fn count_at(besides: Elements, kind: ElementKind, bytes: &[u8], missing: u32) -> Result<u16, usize>
    requires small { length bytes.now + missing < 2 ^ 32 }
    requires long { 2 ≤ length bytes.now }
    ensures { Counts kind besides (padded bytes.now missing) result }
{
    let room = (bytes.len() - 2) as u32 + missing;
    let allowed = ElementCount {
        kind,
        besides,
        room,
    };
    Ok(read_number(bytes, 2, &allowed)? as u16)
}

fn is_constant_tag(tag: u8) -> bool
    ensures { result ≡ is_constant_tag tag }
{
    matches!(
        tag,
        b'B' | b'C' | b'D' | b'F' | b'I' | b'J' | b'S' | b'Z' | b's'
    )
}

/// A constant, behind its tag.
fn constant_at(
    depth: u16,
    besides: Elements,
    tag: u8,
    rest: &[u8],
    missing: u32,
) -> Result<Mark, usize>
    requires small { length rest.now + 1 + missing < 2 ^ 32 }
    requires near { (4 ≤ length rest.now) ⊎ (missing ≡ 0) }
    requires shallow { depth ≤ 255 }
    requires no_enum { tag ≡ 101 → ⊥ }
    requires no_class { tag ≡ 99 → ⊥ }
    requires no_nested { tag ≡ 64 → ⊥ }
    requires no_array { tag ≡ 91 → ⊥ }
    ensures { Steps kinds.Value depth besides (tag ∷ padded rest.now missing) result }
{
    if !is_constant_tag(tag) {
        return Err(0);
    }
    let [high, low, rest @ ..] = rest else {
        return Err(0);
    };
    if !leaves(
        besides,
        ElementKind::Value,
        0,
        rest.len() + missing as usize,
    ) {
        return Err(0);
    }
    Ok(Mark::Constant {
        tag,
        value: number(*high, *low),
    })
}

fn enum_at(depth: u16, besides: Elements, rest: &[u8], missing: u32) -> Result<Mark, usize>
    requires small { length rest.now + 1 + missing < 2 ^ 32 }
    requires near { (4 ≤ length rest.now) ⊎ (missing ≡ 0) }
    requires shallow { depth ≤ 255 }
    ensures { Steps kinds.Value depth besides (101 ∷ padded rest.now missing) result }
{
    let [first, second, third, fourth, rest @ ..] = rest else {
        return Err(0);
    };
    if !leaves(
        besides,
        ElementKind::Value,
        0,
        rest.len() + missing as usize,
    ) {
        return Err(0);
    }
    Ok(Mark::Enum {
        descriptor: number(*first, *second),
        name: number(*third, *fourth),
    })
}

fn class_at(depth: u16, besides: Elements, rest: &[u8], missing: u32) -> Result<Mark, usize>
    requires small { length rest.now + 1 + missing < 2 ^ 32 }
    requires near { (4 ≤ length rest.now) ⊎ (missing ≡ 0) }
    requires shallow { depth ≤ 255 }
    ensures { Steps kinds.Value depth besides (99 ∷ padded rest.now missing) result }
{
    let [high, low, rest @ ..] = rest else {
        return Err(0);
    };
    if !leaves(
        besides,
        ElementKind::Value,
        0,
        rest.len() + missing as usize,
    ) {
        return Err(0);
    }
    Ok(Mark::Class {
        descriptor: number(*high, *low),
    })
}

fn nested_at(depth: u16, besides: Elements, rest: &[u8], missing: u32) -> Result<Mark, usize>
    requires small { length rest.now + 1 + missing < 2 ^ 32 }
    requires near { (4 ≤ length rest.now) ⊎ (missing ≡ 0) }
    requires shallow { depth ≤ 255 }
    ensures { Steps kinds.Value depth besides (64 ∷ padded rest.now missing) result }
{
    if !leaves(
        besides,
        ElementKind::Annotation,
        1,
        rest.len() + missing as usize,
    ) {
        return Err(0);
    }
    Ok(Mark::Nested)
}

fn array_at(depth: u16, besides: Elements, rest: &[u8], missing: u32) -> Result<Mark, usize>
    requires small { length rest.now + 1 + missing < 2 ^ 32 }
    requires near { (4 ≤ length rest.now) ⊎ (missing ≡ 0) }
    requires shallow { depth ≤ 255 }
    ensures { Steps kinds.Value depth besides (91 ∷ padded rest.now missing) result }
{
    if rest.len() < 2 || !leaves_some(besides, rest.len() - 2 + missing as usize) {
        return Err(0);
    }
    match count_at(besides, ElementKind::Value, rest, missing) {
        Ok(count) => Ok(Mark::Array { count }),
        Err(place) => Err(1 + place),
    }
}

/// An element's value.
#[tactic(auto, using(crate::proofs::Padding::padded_cons))]
fn value_at(depth: u16, besides: Elements, bytes: &[u8], missing: u32) -> Result<Mark, usize>
    requires small { length bytes.now + missing < 2 ^ 32 }
    requires near { (5 ≤ length bytes.now) ⊎ (missing ≡ 0) }
    requires fits { ElementsFillRoom (elements_with kinds.Value 1 besides) (length bytes.now + missing) }
    ensures { Steps kinds.Value depth besides (padded bytes.now missing) result }
{
    let [tag, rest @ ..] = bytes else {
        unreachable!();
    };
    if depth > DEEPEST {
        return Err(0);
    }
    match *tag {
        b'e' => enum_at(depth, besides, rest, missing),
        b'c' => class_at(depth, besides, rest, missing),
        b'@' => nested_at(depth, besides, rest, missing),
        b'[' => array_at(depth, besides, rest, missing),
        tag => constant_at(depth, besides, tag, rest, missing),
    }
}

/// The name of an element, for which there is room.
fn name_at(depth: u16, besides: Elements, bytes: &[u8], missing: u32) -> Mark
    requires near { (5 ≤ length bytes.now) ⊎ (missing ≡ 0) }
    requires fits { ElementsFillRoom (elements_with kinds.Pair 1 besides) (length bytes.now + missing) }
    ensures { Steps kinds.Pair depth besides (padded bytes.now missing) (Ok result) }
{
    let [high, low, ..] = bytes else {
        unreachable!();
    };
    Mark::Name {
        name: number(*high, *low),
    }
}

/// An annotation's type and the number of its elements.
fn annotation_at(depth: u16, besides: Elements, bytes: &[u8], missing: u32) -> Result<Mark, usize>
    requires small { length bytes.now + missing < 2 ^ 32 }
    requires near { (5 ≤ length bytes.now) ⊎ (missing ≡ 0) }
    requires fits { ElementsFillRoom (elements_with kinds.Annotation 1 besides) (length bytes.now + missing) }
    ensures { Steps kinds.Annotation depth besides (padded bytes.now missing) result }
{
    let [high, low, rest @ ..] = bytes else {
        unreachable!();
    };
    let class = number(*high, *low);
    match count_at(besides, ElementKind::Pair, rest, missing) {
        Ok(count) => Ok(Mark::Annotation { class, count }),
        Err(place) => Err(2 + place),
    }
}

fn list_at(depth: u16, besides: Elements, bytes: &[u8], missing: u32) -> Result<Mark, usize>
    requires small { length bytes.now + missing < 2 ^ 32 }
    requires near { (5 ≤ length bytes.now) ⊎ (missing ≡ 0) }
    requires fits { ElementsFillRoom (elements_with kinds.Parameter 1 besides) (length bytes.now + missing) }
    ensures { Steps kinds.Parameter depth besides (padded bytes.now missing) result }
{
    match count_at(besides, ElementKind::Annotation, bytes, missing) {
        Ok(count) => Ok(Mark::List { count }),
        Err(place) => Err(place),
    }
}

/// The part at the front of the bytes, behind which so many are missing, where a part has no more
/// bytes than are there, or none is missing.
fn mark_at(group: Group, besides: Elements, bytes: &[u8], missing: u32) -> Result<Mark, usize>
    requires small { length bytes.now + missing < 2 ^ 32 }
    requires near { (5 ≤ length bytes.now) ⊎ (missing ≡ 0) }
    requires fits { ElementsFillRoom (elements_with group.kind 1 besides) (length bytes.now + missing) }
    ensures { Steps group.kind group.depth besides (padded bytes.now missing) result }
{
    match group.kind {
        ElementKind::Value => value_at(group.depth, besides, bytes, missing),
        ElementKind::Pair => Ok(name_at(group.depth, besides, bytes, missing)),
        ElementKind::Annotation => annotation_at(group.depth, besides, bytes, missing),
        ElementKind::Parameter => list_at(group.depth, besides, bytes, missing),
    }
}

/// The same where fewer bytes may be there: zeros stand for the next that are missing.
fn padded_mark_at(
    group: Group,
    besides: Elements,
    bytes: &[u8],
    missing: u32,
) -> Result<Mark, usize>
    requires small { length bytes.now + missing < 2 ^ 32 }
    requires fits { ElementsFillRoom (elements_with group.kind 1 besides) (length bytes.now + missing) }
    ensures { Steps group.kind group.depth besides (padded bytes.now missing) result }
{
    let there = bytes.len();
    if missing == 0 || there >= LONGEST {
        return mark_at(group, besides, bytes, missing);
    }
    let mut window = [0; LONGEST];
    window[..there].copy_from_slice(bytes);
    let zeros = (missing as usize).min(LONGEST - there);
    mark_at(
        group,
        besides,
        &window[..there + zeros],
        missing - zeros as u32,
    )
}

fn clip(place: usize, most: usize) -> usize
    ensures { result ≡ min place most }
{
    if place < most { place } else { most }
}

/// The part at the front of the bytes, behind which so many are missing. It is an item of the group,
/// where so many others are to come besides. A fault is the place of the first byte with which no
/// such part goes on, or the bytes' end.
pub(crate) fn next_mark(
    group: Group,
    besides: Elements,
    bytes: &[u8],
    missing: u32,
) -> Result<Mark, usize>
    requires small { length bytes.now + missing < 2 ^ 32 }
    requires fits { ElementsFillRoom (elements_with group.kind 1 besides) (length bytes.now + missing) }
    ensures { StepsWithin group.kind group.depth besides (padded bytes.now missing) (length bytes.now) result }
{
    let there = bytes.len();
    match padded_mark_at(group, besides, bytes, missing) {
        Ok(mark) if mark.len() <= there => Ok(mark),
        Ok(_) => Err(there),
        Err(place) => Err(clip(place, there)),
    }
}
