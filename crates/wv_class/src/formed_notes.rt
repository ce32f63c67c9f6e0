//! Whether annotations and attributes can stand at their place.
ghost use Rattle.std.specs.Prelude.{◌↔◌, IsTrue, IfOk};
ghost use Rattle.wv_class.specs.Formed.{IsFormedTable, AreFormedNotes, IsFormedKept, AreFormedKept};

use crate::kind::kind_at;
use crate::raw_class::{Kind, Place};
use crate::tables::first_table_len;
use std::alloc::Global;
use wv_attr::{are_parameters_writable, are_writable};
use wv_base::{Attribute, Memory, Note, PoolEntry};

/// Whether an attribute can have these annotations, which can stand in one.
fn is_formed_table(alloc: Global, place: Place, notes: &[Note]) -> Result<bool, Memory>
    ensures { IfOk result (λ is. IsTrue is ↔ IsFormedTable place notes.now) }
{
    let [first, ..] = notes else {
        return Ok(true);
    };
    match (first.parameter, place) {
        (None, _) => are_writable(alloc, notes),
        (Some(_), Place::Method) => are_parameters_writable(alloc, notes, 255),
        (Some(_), _) => Ok(false),
    }
}

/// Whether the annotations can stand at the place: each of their tables is such as an attribute there
/// can have (JVM Specification 4.7.16 to 4.7.19).
pub(crate) fn are_formed_notes(alloc: Global, place: Place, notes: &[Note]) -> Result<bool, Memory>
    ensures { IfOk result (λ are. IsTrue are ↔ AreFormedNotes place notes.now) }
{
    let mut rest = notes;
    while !rest.is_empty() {
        let (table, after) = rest.split_at(first_table_len(rest));
        if !is_formed_table(alloc, place, table)? {
            return Ok(false);
        }
        rest = after;
    }
    Ok(true)
}

fn is_formed_kept(pool: &[PoolEntry], place: Place, attribute: &Attribute) -> bool
    ensures { IsTrue result ↔ IsFormedKept pool.now place attribute.now }
{
    attribute.name as usize <= pool.len()
        && matches!(kind_at(pool, place, attribute.name), Kind::Other)
        && attribute.content.len() < 0x1_0000_0000
}

/// Whether the attributes can be kept at the place: no name is known there, or of no entry.
pub(crate) fn are_formed_kept(pool: &[PoolEntry], place: Place, kept: &[Attribute]) -> bool
    ensures { IsTrue result ↔ AreFormedKept pool.now place kept.now }
{
    for attribute in kept {
        if !is_formed_kept(pool, place, attribute) {
            return false;
        }
    }
    true
}
