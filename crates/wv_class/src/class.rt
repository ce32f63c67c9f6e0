//! The class that a class file means.
ghost use Rattle.std.specs.Prelude.{◌≡◌, ℕ, List, Some, IfOk};
ghost use Rattle.std.specs.List.{flat_map, AllByRecursion};
ghost use Rattle.wv_pool.specs.Constants.{class_name};
ghost use Rattle.wv_code.specs.Breaks.{NamesClass};
ghost use Rattle.wv_attr.specs.Types.{AreTypes};
ghost use Rattle.wv_class.specs.declared.raw_class.RawClass.{RawClass};
ghost use Rattle.wv_class.specs.Layout.{SpellsRest};
ghost use Rattle.wv_class.specs.Breaks.{RestBreaks};
ghost use Rattle.wv_class.specs.Meaning.{AreClasses, AreMembersOf, AreNotesOf, kept_in, IsClassOf};
ghost use Rattle.wv_class.specs.MemberRead.{HaveReadNotes, IsRead};

use crate::attributes_of::code_and_kept;
use crate::member_of::members_of;
use crate::names::{class_at, classes_at};
use crate::notes_of::all_notes;
use crate::raw_class::{RawAttribute, RawMember, RawRest};
use bitflags::Flags;
use std::alloc::Global;
use wv_attr::Types;
use wv_base::{
    AccessFlags, Attribute, ClassFile, ClassVersion, Items, Member, Memory, Name, Note, PoolEntry,
};
use wv_pool::Pool;

/// The names of a class, of its superclass and of its interfaces.
#[derive(Drop)]
struct Names {
    name: Name,
    superclass: Name,
    interfaces: Items<Name>,
}

fn names_of(alloc: Global, pool: &Pool, rest: &RawRest) -> Result<Names, Memory>
    requires class { NamesClass pool.now rest.now.class }
    requires superclass { NamesClass pool.now rest.now.superclass }
    requires interfaces { AllByRecursion (NamesClass pool.now) rest.now.interfaces }
    ensures name { IfOk result (λ x. class_name pool.now rest.now.class ≡ Some x.name) }
    ensures superclass { IfOk result (λ x. class_name pool.now rest.now.superclass ≡ Some x.superclass) }
    ensures interfaces { IfOk result (λ x. AreClasses pool.now rest.now.interfaces x.interfaces) }
{
    let name = class_at(pool, rest.class)?;
    let superclass = class_at(pool, rest.superclass)?;
    let interfaces = classes_at(alloc, pool, rest.interfaces.as_slice())?;
    Ok(Names {
        name,
        superclass,
        interfaces,
    })
}

/// The fields and the methods of the class with this number.
fn all_members(
    alloc: Global,
    pool: &Pool,
    types: &Types,
    class: u16,
    fields: Items<RawMember>,
    methods: Items<RawMember>,
) -> Result<(Items<Member>, Items<Member>), Memory>
    requires fields { AllByRecursion (IsRead pool.now class) fields }
    requires methods { AllByRecursion (IsRead pool.now class) methods }
    requires types { AreTypes pool.now types.now }
    ensures fields { IfOk result (λ x. AreMembersOf pool.now class fields x.0) }
    ensures methods { IfOk result (λ x. AreMembersOf pool.now class methods x.1) }
{
    let fields = members_of(alloc, pool, types, class, fields)?;
    let methods = members_of(alloc, pool, types, class, methods)?;
    Ok((fields, methods))
}

/// The annotations of the class, and its attributes that are kept.
fn notes_and_kept(
    alloc: Global,
    pool: &Pool,
    types: &Types,
    attributes: Items<RawAttribute>,
) -> Result<(Items<Note>, Items<Attribute>), Memory>
    requires read { HaveReadNotes pool.now attributes }
    requires types { AreTypes pool.now types.now }
    ensures notes { IfOk result (λ x. AreNotesOf pool.now attributes x.0) }
    ensures kept { IfOk result (λ x. x.1 ≡ flat_map (kept_in pool.now) attributes) }
{
    let notes = all_notes(alloc, pool, types, attributes.as_slice())?;
    let (_code, kept) = code_and_kept(alloc, pool, attributes)?;
    Ok((notes, kept))
}

/// The class that a class file means (JVM Specification 4): names in place of numbers, bodies with
/// indices in place of offsets, and annotations. `entries` are those of the pool. Each of its items
/// meets what it must, as `rest_break` shows.
pub(crate) fn class_of(
    alloc: Global,
    version: ClassVersion,
    entries: Items<PoolEntry>,
    pool: &Pool,
    types: &Types,
    rest: RawRest,
) -> Result<ClassFile, Memory>
    requires own { entries ≡ pool.now }
    requires spelled { (near : ℕ) × (bytes : List ℕ) × SpellsRest pool.now near rest bytes }
    requires sound { (at : ℕ) → RestBreaks pool.now rest at → ⊥ }
    requires types { AreTypes pool.now types.now }
    ensures { IfOk result (λ c. (raw : RawClass) → raw.version ≡ version → raw.pool ≡ pool.now → raw.rest ≡ rest → IsClassOf raw c) }
{
    let names = names_of(alloc, pool, &rest)?;
    let RawRest {
        flags,
        class,
        fields,
        methods,
        attributes,
        ..
    } = rest;
    let (fields, methods) = all_members(alloc, pool, types, class, fields, methods)?;
    let (notes, kept) = notes_and_kept(alloc, pool, types, attributes)?;
    Ok(ClassFile {
        version,
        flags: AccessFlags::from_bits_retain(flags),
        name: names.name,
        superclass: names.superclass,
        interfaces: names.interfaces,
        fields,
        methods,
        notes,
        pool: entries,
        kept,
    })
}
