//! The verification types of what descriptors say (JVM Specification 4.10.1.2).
ghost use Rattle.std.specs.Prelude.{◌≡◌, [], ◌∷◌, ◌++◌, IfOk, OnOk};
ghost use Rattle.wv_base.specs.declared.descriptor.ElementType.TheVariants as elements;
ghost use Rattle.wv_base.specs.Descriptor.{letters, element_descriptor, descriptor_of};
ghost use Rattle.wv_class.specs.StartFrame.{element_type, verification_type};

use std::alloc::Global;
use wv_base::{ElementType, FieldType, Memory, Name, Primitive, VType};

const BRACKET: u16 = b'[' as u16;

const CLASS: u16 = b'L' as u16;

const SEMICOLON: u16 = b';' as u16;

/// The letter of a primitive type (JVM Specification, table 4.3-A).
fn letter(primitive: Primitive) -> u16
    ensures { letters primitive ≡ result ∷ [] }
{
    let letter = match primitive {
        Primitive::Boolean => b'Z',
        Primitive::Byte => b'B',
        Primitive::Char => b'C',
        Primitive::Short => b'S',
        Primitive::Int => b'I',
        Primitive::Long => b'J',
        Primitive::Float => b'F',
        Primitive::Double => b'D',
    };
    u16::from(letter)
}

/// Adds the descriptor of a type that is no array.
fn push_element(units: &mut Vec<u16>, element: &ElementType) -> Result<(), Memory>
    ensures { OnOk result (units.new.items ≡ units.old.items ++ element_descriptor element.now) }
{
    match element {
        ElementType::Primitive(primitive) => units.push(letter(*primitive))?,
        ElementType::Class(name) => {
            units.push(CLASS)?;
            units.extend_from_slice(name.units())?;
            units.push(SEMICOLON)?;
        }
    }
    Ok(())
}

/// The descriptor of a type (JVM Specification 4.3.2).
fn descriptor_of(alloc: Global, field: &FieldType) -> Result<Name, Memory>
    ensures { IfOk result (λ descriptor. descriptor ≡ descriptor_of field.now) }
{
    let mut units = vec![in alloc; BRACKET; usize::from(field.dimensions)]?;
    push_element(&mut units, &field.element)?;
    Name::from_vec(alloc, units)
}

fn primitive_type(primitive: Primitive) -> VType
    ensures { result ≡ element_type (elements.Primitive primitive) }
{
    match primitive {
        Primitive::Long => VType::Long,
        Primitive::Float => VType::Float,
        Primitive::Double => VType::Double,
        Primitive::Boolean
        | Primitive::Byte
        | Primitive::Char
        | Primitive::Short
        | Primitive::Int => VType::Int,
    }
}

fn element_type(element: &ElementType) -> Result<VType, Memory>
    ensures { IfOk result (λ kind. kind ≡ element_type element.now) }
{
    match element {
        ElementType::Primitive(primitive) => Ok(primitive_type(*primitive)),
        ElementType::Class(name) => Ok(VType::Class(name.copy()?)),
    }
}

/// The verification type of a type: an array is a class by its descriptor.
pub(crate) fn verification_type(alloc: Global, field: &FieldType) -> Result<VType, Memory>
    ensures { IfOk result (λ kind. kind ≡ verification_type field.now) }
{
    if field.dimensions == 0 {
        element_type(&field.element)
    } else {
        Ok(VType::Class(descriptor_of(alloc, field)?))
    }
}
