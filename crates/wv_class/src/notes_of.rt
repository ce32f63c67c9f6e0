//! The annotations in attributes.
ghost use Rattle.std.specs.Prelude.{IfOk};
ghost use Rattle.wv_attr.specs.Types.{AreTypes};
ghost use Rattle.wv_class.specs.Meaning.{IsNotesOf, AreNotesOf};
ghost use Rattle.wv_class.specs.MemberRead.{HasReadNotes, HaveReadNotes};

use crate::raw_class::{Content, RawAttribute};
use std::alloc::Global;
use wv_attr::{Types, notes_of, parameter_notes_of};
use wv_base::{Items, Memory, Note};
use wv_pool::Pool;

/// The annotations of one attribute.
fn notes_in(
    alloc: Global,
    pool: &Pool,
    types: &Types,
    content: &Content,
) -> Result<Items<Note>, Memory>
    requires read { HasReadNotes pool.now content.now }
    requires types { AreTypes pool.now types.now }
    ensures { IfOk result (IsNotesOf pool.now content.now) }
{
    match content {
        Content::Annotations { visible, parts } => {
            notes_of(alloc, pool, types, *visible, parts.as_slice())
        }
        Content::ParameterAnnotations { visible, parts } => {
            parameter_notes_of(alloc, pool, types, *visible, parts.as_slice())
        }
        _ => Ok(Items::new(alloc)),
    }
}

/// The annotations of all attributes, in order (JVM Specification 4.7.16 to 4.7.19).
pub(crate) fn all_notes(
    alloc: Global,
    pool: &Pool,
    types: &Types,
    attributes: &[RawAttribute],
) -> Result<Items<Note>, Memory>
    requires read { HaveReadNotes pool.now attributes.now }
    requires types { AreTypes pool.now types.now }
    ensures { IfOk result (AreNotesOf pool.now attributes.now) }
{
    let mut found = Items::new(alloc);
    for attribute in attributes {
        found.append(notes_in(alloc, pool, types, &attribute.content)?)?;
    }
    Ok(found)
}
