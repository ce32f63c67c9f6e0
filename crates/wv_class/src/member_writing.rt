//! Writing fields and methods.
ghost use Rattle.std.specs.Prelude.{◌≡◌, ◌<◌, ◌^◌, length, OnOk};
ghost use Rattle.std.specs.List.{AllByRecursion};
ghost use Rattle.std.specs.Option.{option_copied};
ghost use Rattle.wv_base.specs.declared.class_file.Member.{Member as AnyMember};
ghost use Rattle.wv_class.specs.Limits.{member_attributes};
ghost use Rattle.wv_class.specs.Laid.{IsLaid, AreLaid};
ghost use Rattle.wv_class.specs.Appending.{Appends, WritesEach, WritesMember, WritesMembers, IsWritableMember};

use crate::attribute_writing::{put_code, put_exceptions, put_value};
use crate::limits::table_count;
use crate::note_writing::put_others;
use crate::putting::{put_number, put_text};
use bitflags::Flags;
use std::alloc::Global;
use wv_base::{Bytes, Member, Memory, Name};
use wv_code::CodeLayout;
use wv_desc::method_type;
use wv_pool::Pool;

/// How many parameters the descriptor has, if it is a method's.
fn parameter_count(alloc: Global, descriptor: &Name) -> Result<usize, Memory> {
    Ok(match method_type(alloc, descriptor)? {
        Some(method) => method.parameters.len(),
        None => 0,
    })
}

/// How many attributes a field or a method has.
fn attribute_count(member: &Member) -> usize
    requires { member_attributes member.now < 2 ^ 16 }
    ensures { result ≡ member_attributes member.now }
{
    usize::from(member.value.is_some())
        + usize::from(member.body.is_some())
        + usize::from(!member.throws.as_slice().is_empty())
        + table_count(member.notes.as_slice())
        + member.kept.len()
}

/// Puts a field or a method (JVM Specification 4.5 and 4.6). The code of a method has this layout.
fn put_member(
    alloc: Global,
    member: &Member,
    layout: Option<&CodeLayout>,
    pool: &mut Pool,
    out: &mut Bytes,
) -> Result<(), Memory>
    requires writable { IsWritableMember pool.old member.now }
    requires laid { IsLaid pool.old member.now.body (option_copied layout) }
    ensures same { OnOk result (pool.new ≡ pool.old) }
    ensures written { OnOk result (Appends (WritesMember pool.old member.now) out.old out.new) }
{
    let notes = member.notes.as_slice();
    let parameters = parameter_count(alloc, &member.descriptor)?;
    put_number(out, member.flags.bits())?;
    put_text(pool, member.name.copy()?, out)?;
    put_text(pool, member.descriptor.copy()?, out)?;
    put_number(out, attribute_count(member) as u16)?;
    put_value(alloc, &member.value, pool, out)?;
    put_code(alloc, &member.body, layout, pool, out)?;
    put_exceptions(alloc, member.throws.as_slice(), pool, out)?;
    put_others(alloc, notes, parameters, member.kept.as_slice(), pool, out)
}

fn put_each_field(
    alloc: Global,
    fields: &[Member],
    pool: &mut Pool,
    out: &mut Bytes,
) -> Result<(), Memory>
    requires writable { AllByRecursion (IsWritableMember pool.old) fields.now }
    requires no_bodies { AllByRecursion (λ (m : AnyMember). m.body ≡ None) fields.now }
    ensures same { OnOk result (pool.new ≡ pool.old) }
    ensures written { OnOk result (Appends (WritesEach (WritesMember pool.old) fields.now) out.old out.new) }
{
    for field in fields {
        put_member(alloc, field, None, pool, out)?;
    }
    Ok(())
}

fn put_each_method(
    alloc: Global,
    methods: &[Member],
    layouts: &[Option<CodeLayout>],
    pool: &mut Pool,
    out: &mut Bytes,
) -> Result<(), Memory>
    requires writable { AllByRecursion (IsWritableMember pool.old) methods.now }
    requires laid { AreLaid pool.old methods.now layouts.now }
    ensures same { OnOk result (pool.new ≡ pool.old) }
    ensures written { OnOk result (Appends (WritesEach (WritesMember pool.old) methods.now) out.old out.new) }
{
    for (index, method) in methods.iter().enumerate() {
        put_member(alloc, method, layouts[index].as_ref(), pool, out)?;
    }
    Ok(())
}

/// Puts the fields of a class, with their count.
pub(crate) fn put_fields(
    alloc: Global,
    fields: &[Member],
    pool: &mut Pool,
    out: &mut Bytes,
) -> Result<(), Memory>
    requires few { length fields.now < 2 ^ 16 }
    requires writable { AllByRecursion (IsWritableMember pool.old) fields.now }
    requires no_bodies { AllByRecursion (λ (m : AnyMember). m.body ≡ None) fields.now }
    ensures same { OnOk result (pool.new ≡ pool.old) }
    ensures written { OnOk result (Appends (WritesMembers pool.old fields.now) out.old out.new) }
{
    put_number(out, fields.len() as u16)?;
    put_each_field(alloc, fields, pool, out)
}

/// Puts the methods of a class, with their count. Their code has these layouts.
pub(crate) fn put_methods(
    alloc: Global,
    methods: &[Member],
    layouts: &[Option<CodeLayout>],
    pool: &mut Pool,
    out: &mut Bytes,
) -> Result<(), Memory>
    requires few { length methods.now < 2 ^ 16 }
    requires writable { AllByRecursion (IsWritableMember pool.old) methods.now }
    requires laid { AreLaid pool.old methods.now layouts.now }
    ensures same { OnOk result (pool.new ≡ pool.old) }
    ensures written { OnOk result (Appends (WritesMembers pool.old methods.now) out.old out.new) }
{
    put_number(out, methods.len() as u16)?;
    put_each_method(alloc, methods, layouts, pool, out)
}
