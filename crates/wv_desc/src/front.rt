//! The type at the front of a list of units.
ghost use Rattle.std.specs.Prelude.{◌≡◌, ◌≤◌, ◌==◌, length, IfOk, ℕ, List};
ghost use Rattle.std.specs.Option.{option_map};
ghost use Rattle.std.specs.List.{prefix_len, position};
ghost use Rattle.wv_base.specs.DescriptorReading.{class_at, element_at, field_at};
ghost use Rattle.wv_base.specs.declared.descriptor.ElementType.{ElementType};
ghost use Rattle.wv_base.specs.declared.descriptor.FieldType.{FieldType};
ghost use Rattle.wv_desc.specs.Front.{element_of, field_of};

use std::alloc::Global;
use wv_base::{ElementType, FieldType, Memory, Name, Primitive, is_class};

const BRACKET: u16 = b'[' as u16;

const CLASS: u16 = b'L' as u16;

const SEMICOLON: u16 = b';' as u16;

/// What an array is of, or a type that is no array, with the name of a class still among the units
/// of the descriptor.
#[derive(Clone, Copy)]
pub(crate) enum ElementFront<'a> {
    Primitive(Primitive),
    Class(&'a [u16]),
}

impl<'a> ElementFront<'a> {
    fn to_type(self, alloc: Global) -> Result<ElementType, Memory>
        ensures { IfOk result (λ element. element ≡ element_of self.entry) }
    {
        Ok(match self {
            ElementFront::Primitive(primitive) => ElementType::Primitive(primitive),
            ElementFront::Class(name) => ElementType::Class(Name::from_slice(alloc, name)?),
        })
    }
}

/// A field's type, with the name of a class still among the units of the descriptor.
#[derive(Clone, Copy)]
pub(crate) struct FieldFront<'a> {
    element: ElementFront<'a>,
    dimensions: u8,
}

impl<'a> FieldFront<'a> {
    pub(crate) fn to_type(self, alloc: Global) -> Result<FieldType, Memory>
        ensures { IfOk result (λ field. field ≡ field_of self.entry) }
    {
        Ok(FieldType {
            element: self.element.to_type(alloc)?,
            dimensions: self.dimensions,
        })
    }
}

/// How many brackets stand at the front.
fn bracket_count(units: &[u16]) -> usize
    ensures count { result ≡ prefix_len (λ unit. unit == BRACKET) units.now }
    ensures within { result ≤ length units.now }
{
    units.iter().take_while(|unit| **unit == BRACKET).count()
}

fn semicolon_in(units: &[u16]) -> Option<usize>
    ensures { result ≡ position (λ unit. unit == SEMICOLON) units.now }
{
    units.iter().position(|unit| *unit == SEMICOLON)
}

/// The class name that ends at the first semicolon, and what stands behind that.
#[tactic(auto, unfolding(wv_base::specs::DescriptorReading::class_at))]
fn class_front(units: &[u16]) -> Option<(&[u16], &[u16])>
    ensures { option_map {U = List ℕ × List ℕ} (λ x. (x.0.now, x.1.now)) result ≡ class_at units.now }
{
    let end = semicolon_in(units)?;
    let name = &units[..end];
    if is_class(name) {
        Some((name, &units[end + 1..]))
    } else {
        None
    }
}

/// The type at the front, which is no array, and what stands behind it.
#[tactic(auto, unfolding(wv_base::specs::DescriptorReading::element_at))]
fn element_front(units: &[u16]) -> Option<(ElementFront<'_>, &[u16])>
    ensures { option_map {U = ElementType × List ℕ} (λ x. (element_of x.0, x.1.now)) result ≡ element_at units.now }
{
    match units {
        [] => None,
        [CLASS, behind @ ..] => {
            let (name, rest) = class_front(behind)?;
            Some((ElementFront::Class(name), rest))
        }
        [letter, rest @ ..] => {
            Some((
                ElementFront::Primitive(Primitive::of_letter(*letter)?),
                rest,
            ))
        }
    }
}

/// The type at the front, and what stands behind it. None where no descriptor of a field stands
/// there, as with more than 255 dimensions.
#[tactic(auto, unfolding(wv_base::specs::DescriptorReading::field_at))]
pub(crate) fn field_front(units: &[u16]) -> Option<(FieldFront<'_>, &[u16])>
    ensures { option_map {U = FieldType × List ℕ} (λ x. (field_of x.0, x.1.now)) result ≡ field_at units.now }
{
    let count = bracket_count(units);
    let dimensions = u8::try_from(count).ok()?;
    let (element, rest) = element_front(&units[count..])?;
    Some((
        FieldFront {
            element,
            dimensions,
        },
        rest,
    ))
}
