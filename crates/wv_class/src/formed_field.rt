//! Whether a class file can have a field.
ghost use Rattle.std.specs.Prelude.{◌≡◌, ◌↔◌, IsTrue, IfOk, []};
ghost use Rattle.std.specs.List.{AllByRecursion};
ghost use Rattle.wv_base.specs.Names.{is_unqualified};
ghost use Rattle.wv_base.specs.Descriptor.{IsFieldDescriptor};
ghost use Rattle.wv_pool.specs.Allowed.{IsShort};
ghost use Rattle.wv_class.specs.Formed.{IsFormedField};

use crate::formed_names::is_short;
use crate::formed_notes::{are_formed_kept, are_formed_notes};
use crate::formed_value::is_formed_value;
use crate::raw_class::Place;
use std::alloc::Global;
use wv_base::{Member, Memory, PoolEntry, is_field_descriptor, is_field_name};

/// Whether the field has a name and a descriptor.
fn is_named(field: &Member) -> Result<bool, Memory>
    ensures { IfOk result (λ is. IsTrue is ↔ ((IsTrue (is_unqualified field.now.name) × IsShort field.now.name) × IsFieldDescriptor field.now.descriptor × IsShort field.now.descriptor)) }
{
    Ok(
        is_field_name(&field.name)
            && is_short(&field.name)?
            && is_field_descriptor(&field.descriptor)
            && is_short(&field.descriptor)?,
    )
}

/// Whether it has nothing that methods alone have.
fn is_plain(field: &Member) -> bool
    ensures { IsTrue result ↔ ((field.now.body ≡ None) × (field.now.throws ≡ [])) }
{
    field.body.is_none() && field.throws.is_empty()
}

fn is_formed_field(alloc: Global, pool: &[PoolEntry], field: &Member) -> Result<bool, Memory>
    ensures { IfOk result (λ is. IsTrue is ↔ IsFormedField pool.now field.now) }
{
    Ok(
        is_named(field)?
            && is_plain(field)
            && is_formed_value(&field.descriptor, &field.value)
            && are_formed_notes(alloc, Place::Field, field.notes.as_slice())?
            && are_formed_kept(pool, Place::Field, field.kept.as_slice()),
    )
}

pub(crate) fn are_formed_fields(
    alloc: Global,
    pool: &[PoolEntry],
    fields: &[Member],
) -> Result<bool, Memory>
    ensures { IfOk result (λ are. IsTrue are ↔ AllByRecursion (IsFormedField pool.now) fields.now) }
{
    for field in fields {
        if !is_formed_field(alloc, pool, field)? {
            return Ok(false);
        }
    }
    Ok(true)
}
