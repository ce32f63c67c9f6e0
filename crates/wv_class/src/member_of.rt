//! The fields and methods that a class file means.
ghost use Rattle.std.specs.Prelude.{◌≡◌, ◌≤◌, length, Some, IfOk};
ghost use Rattle.std.specs.List.{flat_map, AllByRecursion};
ghost use Rattle.wv_pool.specs.References.{text_of};
ghost use Rattle.wv_attr.specs.Types.{AreTypes};
ghost use Rattle.wv_code.specs.Breaks.{NamesClass};
ghost use Rattle.wv_class.specs.Meaning.{codes_in, values_in, exceptions_in, kept_in, AreNotesOf, IsBodyIn, IsValueIn, AreClasses, IsMemberOf, AreMembersOf};
ghost use Rattle.wv_class.specs.MemberRead.{HaveReadNotes, NamesText, NamesConstant, IsReadCode, IsBodyOfCode, IsRead};

use crate::attributes_of::{code_and_kept, throws_of, value_of};
use crate::names::text_at;
use crate::notes_of::all_notes;
use crate::raw_class::{RawAttribute, RawMember};
use crate::start_frame::start_of;
use bitflags::Flags;
use std::alloc::Global;
use wv_attr::Types;
use wv_base::{AccessFlags, Attribute, Body, Const, Frame, Items, Member, Memory, Name, Note};
use wv_code::{RawBody, body_of};
use wv_pool::Pool;

/// The body that the code, if there is some, means with this start frame.
fn body_in(
    alloc: Global,
    pool: &Pool,
    first: Option<Frame>,
    code: Option<RawBody>,
) -> Result<Option<Body>, Memory>
    requires { IsReadCode pool.now first code }
    ensures { IfOk result (IsBodyOfCode pool.now first code) }
{
    let Some(code) = code else {
        return Ok(None);
    };
    let Some(first) = first else {
        unreachable!();
    };
    Ok(Some(body_of(alloc, pool, &first, code)?))
}

/// A method's body, if it has one, and the attributes of a field or a method that are kept.
fn body_and_kept(
    alloc: Global,
    pool: &Pool,
    class: u16,
    raw: RawMember,
) -> Result<(Option<Body>, Items<Attribute>), Memory>
    requires { IsRead pool.now class raw }
    ensures body { IfOk result (λ x. IsBodyIn pool.now class raw (codes_in raw.attributes) x.0) }
    ensures kept { IfOk result (λ x. x.1 ≡ flat_map (kept_in pool.now) raw.attributes) }
{
    let first = start_of(alloc, pool, class, &raw)?;
    let (code, kept) = code_and_kept(alloc, pool, raw.attributes)?;
    let body = body_in(alloc, pool, first, code)?;
    Ok((body, kept))
}

/// What its other attributes mean.
#[derive(Drop)]
struct Marks {
    value: Option<Const>,
    throws: Items<Name>,
    notes: Items<Note>,
}

fn marks_of(
    alloc: Global,
    pool: &Pool,
    types: &Types,
    attributes: &[RawAttribute],
) -> Result<Marks, Memory>
    requires one { length (values_in attributes.now) ≤ 1 }
    requires values { AllByRecursion (NamesConstant pool.now) (values_in attributes.now) }
    requires throws { AllByRecursion (NamesClass pool.now) (exceptions_in attributes.now) }
    requires notes { HaveReadNotes pool.now attributes.now }
    requires types { AreTypes pool.now types.now }
    ensures value { IfOk result (λ x. IsValueIn pool.now (values_in attributes.now) x.value) }
    ensures throws { IfOk result (λ x. AreClasses pool.now (exceptions_in attributes.now) x.throws) }
    ensures notes { IfOk result (λ x. AreNotesOf pool.now attributes.now x.notes) }
{
    let value = value_of(pool, attributes)?;
    let throws = throws_of(alloc, pool, attributes)?;
    let notes = all_notes(alloc, pool, types, attributes)?;
    Ok(Marks {
        value,
        throws,
        notes,
    })
}

/// Its name and its descriptor.
fn names_of(pool: &Pool, raw: &RawMember) -> Result<(Name, Name), Memory>
    requires name { NamesText pool.now raw.now.name }
    requires descriptor { NamesText pool.now raw.now.descriptor }
    ensures name { IfOk result (λ x. text_of pool.now raw.now.name ≡ Some x.0) }
    ensures descriptor { IfOk result (λ x. text_of pool.now raw.now.descriptor ≡ Some x.1) }
{
    let name = text_at(pool, raw.name)?;
    let descriptor = text_at(pool, raw.descriptor)?;
    Ok((name, descriptor))
}

/// The field or method of the class with this number (JVM Specification 4.5 and 4.6).
fn member_of(
    alloc: Global,
    pool: &Pool,
    types: &Types,
    class: u16,
    raw: RawMember,
) -> Result<Member, Memory>
    requires read { IsRead pool.now class raw }
    requires types { AreTypes pool.now types.now }
    ensures { IfOk result (IsMemberOf pool.now class raw) }
{
    let flags = AccessFlags::from_bits_retain(raw.flags);
    let (name, descriptor) = names_of(pool, &raw)?;
    let Marks {
        value,
        throws,
        notes,
    } = marks_of(alloc, pool, types, raw.attributes.as_slice())?;
    let (body, kept) = body_and_kept(alloc, pool, class, raw)?;
    Ok(Member {
        flags,
        name,
        descriptor,
        body,
        value,
        throws,
        notes,
        kept,
    })
}

/// The fields or methods of the class with this number, in order.
pub(crate) fn members_of(
    alloc: Global,
    pool: &Pool,
    types: &Types,
    class: u16,
    raws: Items<RawMember>,
) -> Result<Items<Member>, Memory>
    requires read { AllByRecursion (IsRead pool.now class) raws }
    requires types { AreTypes pool.now types.now }
    ensures { IfOk result (AreMembersOf pool.now class raws) }
{
    let mut raws = raws;
    let mut members = Vec::with_capacity(alloc, raws.len())?;
    while let Some(raw) = raws.pop() {
        members.push(member_of(alloc, pool, types, class, raw)?)?;
    }
    members.reverse();
    Ok(Items::from_vec(members))
}
