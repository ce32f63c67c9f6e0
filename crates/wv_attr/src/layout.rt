//! The layout of a table: its parts, whatever their numbers name.
ghost use Rattle.std.specs.Prelude.{◌≡◌, ◌↔◌, ◌+◌, ◌^◌, ◌<◌, [], ◌∷◌, List, length, IsTrue, IfOk, IfErr};
ghost use Rattle.std.specs.Result.{result_map_both};
ghost use Rattle.wv_room.specs.Counts.{ElementsFillRoom};
ghost use Rattle.wv_attr.specs.declared.mark.Mark.{Mark};
ghost use Rattle.wv_attr.specs.Groups.{pending};
ghost use Rattle.wv_attr.specs.Layout.{lists, IsTable, GivesParts, LayoutBreaks, IsParameterTable, ParametersBreak};

use crate::group::{Group, with, without};
use crate::mark::Mark;
use crate::step::next_mark;
use std::alloc::Global;
use wv_base::ClassFault;
use wv_room::{ElementKind, Elements};

const NOTHING: Elements = Elements {
    bytes: 0,
    values: 0,
    annotations: 0,
    parameters: 0,
};

/// The parts of these items, which have the bytes and so many more that are missing.
fn marks_in(
    alloc: Global,
    first: Group,
    bytes: &[u8],
    missing: u32,
) -> Result<Vec<Mark>, ClassFault>
    requires small { length bytes.now + missing < 2 ^ 32 }
    requires fits { ElementsFillRoom (pending (first ∷ [])) (length bytes.now + missing) }
    ensures found { IfOk result (λ parts. (missing ≡ 0) × IsTable (first ∷ []) bytes.now parts.items) }
    ensures only { missing ≡ 0 → (parts : List Mark) → IsTable (first ∷ []) bytes.now parts → GivesParts (result_map_both (λ x. x.items) (λ e. e) result) parts }
    ensures fault { IfErr result (LayoutBreaks (first ∷ []) bytes.now missing) }
{
    let mut marks = Vec::new(alloc);
    let mut groups = vec![in alloc; first]?;
    let mut due = with(NOTHING, first.kind, first.count);
    let mut at = 0;
    while let Some(group) = groups.pop() {
        if group.count == 0 {
            continue;
        }
        let besides = without(due, group.kind);
        let mark = match next_mark(group, besides, &bytes[at..], missing) {
            Ok(mark) => mark,
            Err(place) => return Err(ClassFault::Layout { at: at + place }),
        };
        let behind = mark.behind(group.depth);
        due = with(besides, behind.kind, behind.count);
        at += mark.len();
        marks.push(mark)?;
        groups.push(Group {
            kind: group.kind,
            depth: group.depth,
            count: group.count - 1,
        })?;
        groups.push(behind)?;
    }
    Ok(marks)
}

/// The lists, so many, that an attribute of a class, a member or a method's parameters begins with.
fn lists(count: u16) -> Group
    ensures { result ∷ [] ≡ lists count }
{
    Group {
        kind: ElementKind::Parameter,
        depth: 1,
        count,
    }
}

/// Whether so many lists can have so many bytes.
fn fills(count: u16, room: u32) -> bool
    ensures { IsTrue result ↔ ElementsFillRoom (pending (lists count)) room }
{
    let first = lists(count);
    with(NOTHING, first.kind, first.count).fits(room)
}

/// The parts of the annotations of a class or of a member, whatever their numbers name: `bytes` are the
/// first of the content of one RuntimeVisibleAnnotations or RuntimeInvisibleAnnotations attribute,
/// which has so many more that are missing (JVM Specification 4.7.16 and 4.7.17). There are parts
/// where none is missing and they fill it. Values nest at most 255 deep. The place of a fault counts
/// from the start of `bytes`: it is the first byte with which no content of that size goes on, or the
/// end of `bytes`.
pub fn read_layout(alloc: Global, bytes: &[u8], missing: u32) -> Result<Vec<Mark>, ClassFault>
    requires { length bytes.now + missing < 2 ^ 32 }
    ensures found { IfOk result (λ parts. (missing ≡ 0) × IsTable (lists 1) bytes.now parts.items) }
    // What has this layout is read, unless memory runs out.
    ensures only { missing ≡ 0 → (parts : List Mark) → IsTable (lists 1) bytes.now parts → GivesParts (result_map_both (λ x. x.items) (λ e. e) result) parts }
    ensures fault { IfErr result (LayoutBreaks (lists 1) bytes.now missing) }
{
    if !fills(1, bytes.len() as u32 + missing) {
        return Err(ClassFault::Layout { at: 0 });
    }
    marks_in(alloc, lists(1), bytes, missing)
}

/// The parts of the annotations of a method's parameters, whatever their numbers name: `bytes` are the
/// first of the content of one RuntimeVisibleParameterAnnotations or
/// RuntimeInvisibleParameterAnnotations attribute, which has so many more that are missing. It is a
/// count of lists and a list for each parameter, which fill it (JVM Specification 4.7.18 and 4.7.19).
/// There are parts where none is missing. The place of a fault counts from the start of `bytes`.
pub fn read_parameter_layout(
    alloc: Global,
    bytes: &[u8],
    missing: u32,
) -> Result<Vec<Mark>, ClassFault>
    requires { length bytes.now + missing < 2 ^ 32 }
    ensures found { IfOk result (λ parts. (missing ≡ 0) × IsParameterTable bytes.now parts.items) }
    ensures only { missing ≡ 0 → (parts : List Mark) → IsParameterTable bytes.now parts → GivesParts (result_map_both (λ x. x.items) (λ e. e) result) parts }
    ensures fault { IfErr result (ParametersBreak bytes.now missing) }
{
    let [count, rest @ ..] = bytes else {
        return Err(ClassFault::Layout { at: 0 });
    };
    let count = u16::from(*count);
    if !fills(count, rest.len() as u32 + missing) {
        return Err(ClassFault::Layout { at: 0 });
    }
    match marks_in(alloc, lists(count), rest, missing) {
        Ok(parts) => Ok(parts),
        Err(ClassFault::Layout { at }) => Err(ClassFault::Layout { at: at + 1 }),
        Err(fault) => Err(fault),
    }
}
