//! Annotations of classes and members.
ghost use Rattle.std.specs.Prelude.{◌≡◌, ◌↔◌, ◌^◌, IsTrue, ◌∷◌, ◌≤◌, ◌<◌, ℕ, suc, List, length, IfOk, IfErr};
ghost use Rattle.std.specs.List.{AllByRecursion};
ghost use Rattle.wv_base.specs.declared.note.Note.{Note};
ghost use Rattle.wv_attr.specs.declared.mark.Mark.{Mark};
ghost use Rattle.wv_attr.specs.declared.mark.Mark.TheVariants as marks;
ghost use Rattle.wv_attr.specs.Groups.{Follows};
ghost use Rattle.wv_attr.specs.Layout.{lists};
ghost use Rattle.wv_attr.specs.Types.{AreTypes};
ghost use Rattle.wv_attr.specs.References.{IsSound};
ghost use Rattle.wv_attr.specs.Fronts.{AnnotationsFront, ListsFront};
ghost use Rattle.wv_attr.specs.Meanings.{AreNotes, IsNoteList, AreListed, AreRead, NotesBreak, GivesNotes, AreParametersRead, ParameterNotesBreak};

use crate::layout::{read_layout, read_parameter_layout};
use crate::mark::Mark;
use crate::naming::annotation;
use crate::reference::first_break;
use crate::types::Types;
use std::alloc::Global;
use wv_base::{ClassFault, Items, Memory, Note};
use wv_pool::Pool;

/// So many annotations, and the parts behind them.
fn notes<'a>(
    alloc: Global,
    pool: &Pool,
    types: &Types,
    visible: bool,
    parameter: Option<u8>,
    count: u16,
    parts: &'a [Mark],
) -> Result<(Vec<Note>, &'a [Mark]), Memory>
    requires front { (rest : List Mark) × AnnotationsFront count parts.now rest }
    requires sound { AllByRecursion (IsSound pool.now) parts.now }
    requires types { AreTypes pool.now types.now }
    ensures read { IfOk result (λ x. AreNotes pool.now visible parameter x.0.items parts.now x.1.now) }
    ensures count { IfOk result (λ x. length x.0.items ≡ count) }
    ensures rest { IfOk result (λ x. (rest : List Mark) → AnnotationsFront count parts.now rest → x.1.now ≡ rest) }
    ensures sound { IfOk result (λ x. AllByRecursion (IsSound pool.now) x.1.now) }
    ensures shorter { IfOk result (λ x. length x.1.now ≤ length parts.now) }
{
    let mut found = Vec::new(alloc);
    let mut rest = parts;
    while found.len() < count as usize {
        let (annotation, after) = annotation(alloc, pool, types, rest)?;
        found.push(Note {
            visible,
            parameter,
            annotation,
        })?;
        rest = after;
    }
    Ok((found, rest))
}

/// The annotations of the list that the parts begin with, and the parts behind it.
fn list<'a>(
    alloc: Global,
    pool: &Pool,
    types: &Types,
    visible: bool,
    parameter: Option<u8>,
    parts: &'a [Mark],
) -> Result<(Vec<Note>, &'a [Mark]), Memory>
    requires front { (count : ℕ) × (rest : List Mark) × ListsFront (suc count) parts.now rest }
    requires sound { AllByRecursion (IsSound pool.now) parts.now }
    requires types { AreTypes pool.now types.now }
    ensures read { IfOk result (λ x. (list : List Mark) × (parts.now ≡ marks.List (length x.0.items) ∷ list) × AreNotes pool.now visible parameter x.0.items list x.1.now) }
    ensures rest { IfOk result (λ x. (count : ℕ) (rest : List Mark) → ListsFront (suc count) parts.now rest → ListsFront count x.1.now rest) }
    ensures sound { IfOk result (λ x. AllByRecursion (IsSound pool.now) x.1.now) }
    ensures shorter { IfOk result (λ x. length x.1.now < length parts.now) }
{
    let [mark, rest @ ..] = parts else {
        unreachable!();
    };
    match *mark {
        Mark::List { count } => notes(alloc, pool, types, visible, parameter, count, rest),
        _ => unreachable!(),
    }
}

/// The annotations of a class or of a member that the parts are, in a visible table or not (JVM
/// Specification 4.7.16 and 4.7.17): parts as `read_layout` gives them, in which `first_break` finds
/// no break.
pub fn notes_of(
    alloc: Global,
    pool: &Pool,
    types: &Types,
    visible: bool,
    parts: &[Mark],
) -> Result<Items<Note>, Memory>
    requires layout { (near : ℕ) × Follows near (lists 1) parts.now }
    requires sound { AllByRecursion (IsSound pool.now) parts.now }
    requires types { AreTypes pool.now types.now }
    ensures { IfOk result (λ notes. IsNoteList pool.now visible notes parts.now) }
{
    let (found, _) = list(alloc, pool, types, visible, None, parts)?;
    Ok(Items::from_vec(found))
}

/// The annotations of a method's parameters that the parts are, in a visible table or not (JVM
/// Specification 4.7.18 and 4.7.19), each with the place of its parameter, from 0: parts as
/// `read_parameter_layout` gives them, in which `first_break` finds no break.
pub fn parameter_notes_of(
    alloc: Global,
    pool: &Pool,
    types: &Types,
    visible: bool,
    parts: &[Mark],
) -> Result<Items<Note>, Memory>
    requires layout { (near : ℕ) × (count : ℕ) × (count ≤ 255) × Follows near (lists count) parts.now }
    requires sound { AllByRecursion (IsSound pool.now) parts.now }
    requires types { AreTypes pool.now types.now }
    ensures { IfOk result (λ notes. AreListed pool.now visible 0 notes parts.now) }
{
    let mut found = Vec::new(alloc);
    let mut rest = parts;
    let mut place = 0;
    while !rest.is_empty() {
        let (mut more, after) = list(alloc, pool, types, visible, Some(place), rest)?;
        found.append(&mut more)?;
        rest = after;
        place += 1;
    }
    Ok(Items::from_vec(found))
}

/// Whether an attribute can have so many bytes: its length has four (JVM Specification 4.7).
fn is_short(bytes: &[u8]) -> bool
    ensures { IsTrue result ↔ (length bytes.now < 2 ^ 32) }
{
    u32::try_from(bytes.len()).is_ok()
}

/// The annotations of a class or of a member, in a visible table or not: `bytes` is the content of one
/// RuntimeVisibleAnnotations or RuntimeInvisibleAnnotations attribute (JVM Specification 4.7.16 and
/// 4.7.17). A fault of the layout comes before every other. The place of a fault counts from the start
/// of `bytes`. For many tables of one pool, `read_layout`, `first_break` and `notes_of` share `Types`.
pub fn read_notes(
    alloc: Global,
    bytes: &[u8],
    pool: &Pool,
    visible: bool,
) -> Result<Items<Note>, ClassFault>
    ensures found { IfOk result (AreRead pool.now visible bytes.now) }
    // What is such a table of annotations is read, unless memory runs out.
    ensures only { (notes : List Note) → AreRead pool.now visible bytes.now notes → GivesNotes result notes }
    ensures fault { IfErr result (NotesBreak pool.now bytes.now) }
{
    if !is_short(bytes) {
        return Err(ClassFault::Layout { at: 0 });
    }
    let parts = read_layout(alloc, bytes, 0)?;
    let types = Types::of(alloc, pool)?;
    if let Some(at) = first_break(pool, &types, &parts) {
        return Err(ClassFault::Reference { at });
    }
    Ok(notes_of(alloc, pool, &types, visible, &parts)?)
}

/// The annotations of a method's parameters, in a visible table or not, each with the place of its
/// parameter, from 0: `bytes` is the content of one RuntimeVisibleParameterAnnotations or
/// RuntimeInvisibleParameterAnnotations attribute (JVM Specification 4.7.18 and 4.7.19). A fault of
/// the layout comes before every other. The place of a fault counts from the start of `bytes`. For
/// many tables of one pool, `read_parameter_layout`, `first_break` and `parameter_notes_of` share
/// `Types`.
pub fn read_parameter_notes(
    alloc: Global,
    bytes: &[u8],
    pool: &Pool,
    visible: bool,
) -> Result<Items<Note>, ClassFault>
    ensures found { IfOk result (AreParametersRead pool.now visible bytes.now) }
    // What is such a table of annotations is read, unless memory runs out.
    ensures only { (notes : List Note) → AreParametersRead pool.now visible bytes.now notes → GivesNotes result notes }
    ensures fault { IfErr result (ParameterNotesBreak pool.now bytes.now) }
{
    if !is_short(bytes) {
        return Err(ClassFault::Layout { at: 0 });
    }
    let parts = read_parameter_layout(alloc, bytes, 0)?;
    let types = Types::of(alloc, pool)?;
    if let Some(place) = first_break(pool, &types, &parts) {
        return Err(ClassFault::Reference { at: place + 1 });
    }
    Ok(parameter_notes_of(alloc, pool, &types, visible, &parts)?)
}
