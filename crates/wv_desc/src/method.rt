//! The type that a method descriptor says.
ghost use Rattle.std.specs.Prelude.{◌≡◌, ◌<◌, ◌^◌, ℕ, List, ◌∷◌, length, Option, IfOk, IfSome, IfNone, Some};
ghost use Rattle.wv_base.specs.Descriptor.{field_words, parameter_words, IsMethodDescriptor};
ghost use Rattle.wv_base.specs.declared.descriptor.FieldType.{FieldType};
ghost use Rattle.wv_base.specs.declared.descriptor.MethodType.{MethodType};
ghost use Rattle.wv_desc.specs.TypeOf.{IsMethodTypeOf, HasResult};

use crate::field::type_of;
use crate::front::field_front;
use std::alloc::Global;
use wv_base::{ElementType, FieldType, Items, Memory, MethodType, Name, Primitive};

const OPEN: u16 = b'(' as u16;

const CLOSE: u16 = b')' as u16;

const VOID: [u16; 1] = [b'V' as u16];

/// What stands behind this unit at the front.
fn behind(units: &[u16], first: u16) -> Option<&[u16]>
    ensures found { IfSome result (λ rest. units.now ≡ first ∷ rest.now) }
    ensures none { IfNone result ((rest : List ℕ) → units.now ≡ first ∷ rest → ⊥) }
{
    match units {
        [unit, rest @ ..] if *unit == first => Some(rest),
        _ => None,
    }
}

/// The type of the method with these parameters and the result whose descriptor the units are, if
/// they are one.
fn with_result(
    alloc: Global,
    parameters: Items<FieldType>,
    units: &[u16],
) -> Result<Option<MethodType>, Memory>
    ensures found { IfOk result (λ read. IfSome read (λ method. (method.parameters ≡ parameters) × HasResult units.now method.result)) }
    ensures none { IfOk result (λ read. IfNone read ((of : Option FieldType) → HasResult units.now of → ⊥)) }
{
    if units == VOID.as_slice() {
        return Ok(Some(MethodType {
            parameters,
            result: None,
        }));
    }
    match type_of(alloc, units)? {
        Some(field) => Ok(Some(MethodType {
            parameters,
            result: Some(field),
        })),
        None => Ok(None),
    }
}

/// The type whose method descriptor (JVM Specification 4.3.3) the units are, if they are one.
fn method_of(alloc: Global, units: &[u16]) -> Result<Option<MethodType>, Memory>
    ensures found { IfOk result (λ read. IfSome read (IsMethodTypeOf units.now)) }
    ensures none { IfOk result (λ read. IfNone read (IsMethodDescriptor units.now → ⊥)) }
{
    let Some(mut rest) = behind(units, OPEN) else {
        return Ok(None);
    };
    let mut parameters = Vec::new(alloc);
    loop {
        if let Some(after) = behind(rest, CLOSE) {
            return with_result(alloc, Items::from_vec(parameters), after);
        }
        let Some((field, after)) = field_front(rest) else {
            return Ok(None);
        };
        parameters.push(field.to_type(alloc)?)?;
        rest = after;
    }
}

/// The type that a method descriptor says (JVM Specification 4.3.3), of however many parameters.
/// None for a name that is no method descriptor.
pub fn method_type(alloc: Global, name: &Name) -> Result<Option<MethodType>, Memory>
    ensures found { IfOk result (λ read. IfSome read (IsMethodTypeOf name.now)) }
    ensures none { IfOk result (λ read. IfNone read (IsMethodDescriptor name.now → ⊥)) }

    // No other type has this descriptor.
    ensures only { IfOk result (λ read. (method : MethodType) → IsMethodTypeOf name.now method → read ≡ Some method) }
{
    method_of(alloc, name.units())
}

/// How many words a value of this type takes: two for a long or a double, one for any other, as for
/// an array of them.
fn field_words(field: &FieldType) -> u32
    ensures { result ≡ field_words field.now }
{
    match field {
        FieldType {
            element: ElementType::Primitive(Primitive::Long | Primitive::Double),
            dimensions: 0,
        } => 2,
        _ => 1,
    }
}

/// How many words the arguments of a method take, without `this` (JVM Specification 4.3.3): two for
/// each long and double, one for each other.
pub fn words(method: &MethodType) -> u32
    requires { length method.now.parameters < 2 ^ 31 }
    ensures { result ≡ parameter_words method.now }
{
    let mut words = 0;
    for field in method.parameters.as_slice() {
        words += field_words(field);
    }
    words
}
