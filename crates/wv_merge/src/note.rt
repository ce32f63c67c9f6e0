//! The annotations of thin classes (Mixin 0.8.5).
ghost use Rattle.std.specs.Prelude.{◌↔◌, ℕ, List, [], ◌∷◌, IsTrue, MatchOption};
ghost use Rattle.std.specs.List.{AllByRecursion};
ghost use Rattle.wv_merge.specs.ThinClass.{AreMixinElements, BeginsWith, HasOneNote, IsMixinNoteOn, IsOtherNote, IsOverwriteNote, IsPriority, IsTargetElement};
ghost use Rattle.wv_merge.specs.Marks.{AreMixinNotesOn, AreOneClass};

use wv_base::{Const, Element, Name, NamedElement, Note};

/// The packages of Mixin and of MixinExtras.
const MIXIN_PACKAGES: &str = "org/spongepowered/asm/";

const EXTRAS_PACKAGES: &str = "com/llamalad7/mixinextras/";

/// The annotations `@Mixin` of a class, and `@Overwrite` of a method.
const MIXIN: &str = "org/spongepowered/asm/mixin/Mixin";

const OVERWRITE: &str = "org/spongepowered/asm/mixin/Overwrite";

pub(crate) fn begins_with(name: &Name, front: &str) -> bool
    ensures { IsTrue result ↔ BeginsWith front.now name.now }
{
    let units = name.units();
    let bytes = front.as_bytes();
    if units.len() < bytes.len() {
        return false;
    }
    for (place, byte) in bytes.iter().enumerate() {
        if units[place] != *byte as u16 {
            return false;
        }
    }
    true
}

/// Whether an annotation is of other packages than those of Mixin and MixinExtras.
fn is_other(note: &Note) -> bool
    ensures { IsTrue result ↔ IsOtherNote note.now }
{
    let class = &note.annotation.class;
    !begins_with(class, MIXIN_PACKAGES) && !begins_with(class, EXTRAS_PACKAGES)
}

pub(crate) fn are_other(notes: &[Note]) -> bool
    ensures { IsTrue result ↔ AllByRecursion IsOtherNote notes.now }
{
    for note in notes {
        if !is_other(note) {
            return false;
        }
    }
    true
}

/// The descriptor of the one class.
fn one_class(classes: &[Element]) -> Option<&Name>
    ensures { MatchOption result ((descriptor : List ℕ) → AreOneClass descriptor classes.now → ⊥)
        (λ descriptor. AreOneClass descriptor.now classes.now) }
{
    match classes {
        [Element::Class(descriptor)] => Some(descriptor),
        _ => None,
    }
}

/// The descriptor of the class that the element `value` is.
fn target_in(element: &NamedElement) -> Option<&Name>
    ensures { MatchOption result ((descriptor : List ℕ) → IsTargetElement descriptor element.now → ⊥)
        (λ descriptor. IsTargetElement descriptor.now element.now) }
{
    if !element.name.is_ascii("value") {
        return None;
    }
    match &element.value {
        Element::Array(classes) => one_class(classes.as_slice()),
        _ => None,
    }
}

fn is_priority(element: &NamedElement) -> bool
    ensures { IsTrue result ↔ IsPriority element.now }
{
    element.name.is_ascii("priority")
        && matches!(
            element.value,
            Element::Constant {
                tag: b'I',
                value: Const::Integer(_),
            }
        )
}

/// The target that two elements of `@Mixin` name, of which one is a priority.
fn pair_target<'a>(first: &'a NamedElement, second: &'a NamedElement) -> Option<&'a Name>
    ensures { MatchOption result ((descriptor : List ℕ) → AreMixinElements descriptor (first.now ∷ second.now ∷ []) → ⊥)
        (λ descriptor. AreMixinElements descriptor.now (first.now ∷ second.now ∷ [])) }
{
    if is_priority(second) {
        return target_in(first);
    }
    if is_priority(first) {
        return target_in(second);
    }
    None
}

/// The target that the elements of `@Mixin` name, with a priority or without one.
fn target_among(elements: &[NamedElement]) -> Option<&Name>
    ensures { MatchOption result ((descriptor : List ℕ) → AreMixinElements descriptor elements.now → ⊥)
        (λ descriptor. AreMixinElements descriptor.now elements.now) }
{
    match elements {
        [] => None,
        [target] => target_in(target),
        [first, second] => pair_target(first, second),
        [_, _, _, ..] => None,
    }
}

/// The target that an annotation names, if it is `@Mixin` as the form has it.
fn mixin_target(note: &Note) -> Option<&Name>
    ensures { MatchOption result ((descriptor : List ℕ) → IsMixinNoteOn descriptor note.now → ⊥)
        (λ descriptor. IsMixinNoteOn descriptor.now note.now) }
{
    if note.parameter.is_some() || !note.annotation.class.is_ascii(MIXIN) {
        return None;
    }
    target_among(note.annotation.elements.as_slice())
}

fn is_overwrite(note: &Note) -> bool
    ensures { IsTrue result ↔ IsOverwriteNote note.now }
{
    note.parameter.is_none()
        && note.annotation.class.is_ascii(OVERWRITE)
        && note.annotation.elements.is_empty()
}

/// The target of the one annotation `@Mixin`, where all others are of other packages.
pub(crate) fn one_target(notes: &[Note]) -> Option<&Name>
    ensures { MatchOption result ((descriptor : List ℕ) → AreMixinNotesOn descriptor notes.now → ⊥)
        (λ descriptor. AreMixinNotesOn descriptor.now notes.now) }
{
    for (place, note) in notes.iter().enumerate() {
        if let Some(descriptor) = mixin_target(note) {
            if are_other(&notes[..place]) && are_other(&notes[place + 1..]) {
                return Some(descriptor);
            }
            return None;
        }
    }
    None
}

/// Whether one of the annotations is `@Mixin` as the form has it, and all others are of other packages.
pub(crate) fn has_mixin(notes: &[Note]) -> bool
    ensures { IsTrue result ↔ ((descriptor : List ℕ) × AreMixinNotesOn descriptor notes.now) }
{
    one_target(notes).is_some()
}

/// Whether one of the annotations is `@Overwrite`, and all others are of other packages.
pub(crate) fn has_overwrite(notes: &[Note]) -> bool
    ensures { IsTrue result ↔ HasOneNote IsOverwriteNote notes.now }
{
    for (place, note) in notes.iter().enumerate() {
        if is_overwrite(note) {
            return are_other(&notes[..place]) && are_other(&notes[place + 1..]);
        }
    }
    false
}
