//! The parts of annotations, one behind the other.
ghost use Rattle.std.specs.Prelude.{◌≡◌, ◌++◌, IfOk, OnOk};
ghost use Rattle.std.specs.List.{flat_map};
ghost use Rattle.wv_attr.specs.Pieces.{value_pieces, annotation_pieces, pair_pieces, list_pieces};

use crate::piece::Piece;
use wv_base::{Annotation, Element, Memory, NamedElement, Note};

/// Puts the parts of a value at the end.
#[cycle(flattening)]
fn put_value(value: &Element, out: &mut Vec<Piece>) -> Result<(), Memory>
    ensures { OnOk result (out.new.items ≡ out.old.items ++ value_pieces value.now) }
{
    match value {
        Element::Constant { tag, value } => out.push(Piece::Constant {
            tag: *tag,
            value: value.copy()?,
        })?,
        Element::Enum { descriptor, name } => out.push(Piece::Enum {
            descriptor: descriptor.copy()?,
            name: name.copy()?,
        })?,
        Element::Class(descriptor) => out.push(Piece::Class(descriptor.copy()?))?,
        Element::Annotation(nested) => {
            out.push(Piece::Nested)?;
            put_annotation(nested, out)?;
        }
        Element::Array(values) => {
            let count = values.len();
            out.push(Piece::Array { count })?;
            put_values(values.as_slice(), out)?;
        }
    }
    Ok(())
}

#[cycle(flattening)]
fn put_values(values: &[Element], out: &mut Vec<Piece>) -> Result<(), Memory>
    ensures { OnOk result (out.new.items ≡ out.old.items ++ flat_map value_pieces values.now) }
{
    for value in values {
        put_value(value, out)?;
    }
    Ok(())
}

/// Puts the parts of an annotation at the end.
#[cycle(flattening)]
fn put_annotation(annotation: &Annotation, out: &mut Vec<Piece>) -> Result<(), Memory>
    ensures { OnOk result (out.new.items ≡ out.old.items ++ annotation_pieces annotation.now) }
{
    let count = annotation.elements.len();
    let class = annotation.class.copy()?;
    out.push(Piece::Annotation { class, count })?;
    put_pairs(annotation.elements.as_slice(), out)
}

#[cycle(flattening)]
fn put_pairs(pairs: &[NamedElement], out: &mut Vec<Piece>) -> Result<(), Memory>
    ensures { OnOk result (out.new.items ≡ out.old.items ++ flat_map pair_pieces pairs.now) }
{
    for pair in pairs {
        put_pair(pair, out)?;
    }
    Ok(())
}

/// Puts the parts of an annotation's element at the end.
#[cycle(flattening)]
fn put_pair(pair: &NamedElement, out: &mut Vec<Piece>) -> Result<(), Memory>
    ensures { OnOk result (out.new.items ≡ out.old.items ++ pair_pieces pair.now) }
{
    out.push(Piece::Name(pair.name.copy()?))?;
    put_value(&pair.value, out)
}

/// Puts the parts of a list of annotations at the end.
pub(crate) fn put_list(notes: &[Note], out: &mut Vec<Piece>) -> Result<(), Memory>
    ensures { OnOk result (out.new.items ≡ out.old.items ++ list_pieces notes.now) }
{
    out.push(Piece::List { count: notes.len() })?;
    for note in notes {
        put_annotation(&note.annotation, out)?;
    }
    Ok(())
}
