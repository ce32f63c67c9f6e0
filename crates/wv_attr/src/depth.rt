//! How deep values nest.
ghost use Rattle.std.specs.Prelude.{◌↔◌, ◌≤◌, IsTrue};
ghost use Rattle.std.specs.List.{AllByRecursion};
ghost use Rattle.wv_base.specs.declared.note.Element.{Element};
ghost use Rattle.wv_base.specs.declared.note.NamedElement.{NamedElement};
ghost use Rattle.wv_attr.specs.Pieces.{value_depth, annotation_depth, pair_depth};
ghost use Rattle.wv_attr.specs.Writing.{AreShallow};

use wv_base::{Annotation, Element, NamedElement, Note};

/// The deepest that element values may nest.
const DEEPEST: u8 = 255;

/// Whether values nest at most so deep in a value.
#[cycle(depth)]
fn is_within(value: &Element, left: u8) -> bool
    ensures { IsTrue result ↔ (value_depth value.now ≤ left) }
{
    let Some(inside) = left.checked_sub(1) else {
        return false;
    };
    match value {
        Element::Annotation(nested) => pairs_are_within(nested.elements.as_slice(), inside),
        Element::Array(values) => are_within(values.as_slice(), inside),
        Element::Constant { .. } | Element::Enum { .. } | Element::Class(_) => true,
    }
}

#[cycle(depth)]
fn are_within(values: &[Element], left: u8) -> bool
    ensures { IsTrue result ↔ AllByRecursion (λ (e : Element). value_depth e ≤ left) values.now }
{
    for value in values {
        if !is_within(value, left) {
            return false;
        }
    }
    true
}

#[cycle(depth)]
fn pairs_are_within(pairs: &[NamedElement], left: u8) -> bool
    ensures { IsTrue result ↔ AllByRecursion (λ (p : NamedElement). pair_depth p ≤ left) pairs.now }
{
    for pair in pairs {
        if !pair_is_within(pair, left) {
            return false;
        }
    }
    true
}

#[cycle(depth)]
fn pair_is_within(pair: &NamedElement, left: u8) -> bool
    ensures { IsTrue result ↔ (pair_depth pair.now ≤ left) }
{
    is_within(&pair.value, left)
}

/// Whether values nest at most 255 deep in an annotation.
fn is_shallow(annotation: &Annotation) -> bool
    ensures { IsTrue result ↔ (annotation_depth annotation.now ≤ 255) }
{
    pairs_are_within(annotation.elements.as_slice(), DEEPEST)
}

/// Whether values nest at most 255 deep in the annotations.
pub(crate) fn are_shallow(notes: &[Note]) -> bool
    ensures { IsTrue result ↔ AreShallow notes.now }
{
    for note in notes {
        if !is_shallow(&note.annotation) {
            return false;
        }
    }
    true
}
