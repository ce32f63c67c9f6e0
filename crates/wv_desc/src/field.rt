//! The type that a field descriptor says.
ghost use Rattle.std.specs.Prelude.{◌≡◌, IfOk, IfSome, IfNone, Some};
ghost use Rattle.wv_base.specs.Descriptor.{IsFieldDescriptor};
ghost use Rattle.wv_base.specs.declared.descriptor.FieldType.{FieldType};
ghost use Rattle.wv_desc.specs.TypeOf.{IsFieldTypeOf};

use crate::front::field_front;
use std::alloc::Global;
use wv_base::{FieldType, Memory, Name};

/// The type whose field descriptor (JVM Specification 4.3.2) the units are, if they are one.
pub(crate) fn type_of(alloc: Global, units: &[u16]) -> Result<Option<FieldType>, Memory>
    ensures found { IfOk result (λ read. IfSome read (IsFieldTypeOf units.now)) }
    ensures none { IfOk result (λ read. IfNone read (IsFieldDescriptor units.now → ⊥)) }
{
    let Some((field, rest)) = field_front(units) else {
        return Ok(None);
    };
    if !rest.is_empty() {
        return Ok(None);
    }
    Ok(Some(field.to_type(alloc)?))
}

/// The type that a field descriptor says (JVM Specification 4.3.2). None for a name that is no
/// field descriptor.
pub fn field_type(alloc: Global, name: &Name) -> Result<Option<FieldType>, Memory>
    ensures found { IfOk result (λ read. IfSome read (IsFieldTypeOf name.now)) }
    ensures none { IfOk result (λ read. IfNone read (IsFieldDescriptor name.now → ⊥)) }

    // No other type has this descriptor.
    ensures only { IfOk result (λ read. (field : FieldType) → IsFieldTypeOf name.now field → read ≡ Some field) }
{
    type_of(alloc, name.units())
}
