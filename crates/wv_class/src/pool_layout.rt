//! Whether entries are a pool's.
ghost use Rattle.std.specs.Prelude.{◌≡◌, ◌↔◌, ℕ, List, IsTrue, IfOk};
ghost use Rattle.wv_base.specs.Modified.{IsName};
ghost use Rattle.wv_pool.specs.Entries.{IsEntry, AreSlots, IsLayout};
ghost use Rattle.wv_pool.specs.Reading.{is_wide};
ghost use Rattle.wv_pool.specs.References.{IsPool};
ghost use Rattle.wv_class.specs.PoolLayout.{IsPair, IsSlot};

use crate::formed_names::is_short;
use std::alloc::Global;
use wv_base::{Memory, PoolEntry};
use wv_pool::first_break;

/// Units have 16 bits each.
fn are_units(units: &[u16])
    ensures { IsName units.now }
{}

/// Whether the entry has two numbers, which are read for their range alone.
fn is_pair(entry: &PoolEntry) -> bool
    ensures { IsTrue result ↔ IsPair entry.now }
{
    match entry {
        PoolEntry::Field {
            class: first,
            name_and_type: second,
        }
        | PoolEntry::Method {
            class: first,
            name_and_type: second,
        }
        | PoolEntry::InterfaceMethod {
            class: first,
            name_and_type: second,
        }
        | PoolEntry::NameAndType {
            name: first,
            descriptor: second,
        }
        | PoolEntry::InvokeDynamic {
            bootstrap: first,
            name_and_type: second,
        } => {
            let _numbers = (*first, *second);
            true
        }
        _ => false,
    }
}

/// Whether an entry that is no text can stand in a pool. Its numbers are read for their range alone.
fn is_usable(entry: &PoolEntry) -> bool
    requires { (text : List ℕ) → entry.now ≡ PoolEntry.Utf8 text → ⊥ }
    ensures { IsTrue result ↔ IsEntry entry.now }
{
    match entry {
        PoolEntry::Integer(value) => {
            let _value = *value;
            true
        }
        PoolEntry::Float(bits) => {
            let _bits = *bits;
            true
        }
        PoolEntry::Long(value) => {
            let _value = *value;
            true
        }
        PoolEntry::Double(bits) => {
            let _bits = *bits;
            true
        }
        PoolEntry::MethodHandle { kind, reference } => {
            let _numbers = (*kind, *reference);
            true
        }
        PoolEntry::Class { name: number }
        | PoolEntry::String { text: number }
        | PoolEntry::MethodType { descriptor: number } => {
            let _number = *number;
            true
        }
        _ => is_pair(entry),
    }
}

fn is_entry(entry: &PoolEntry) -> Result<bool, Memory>
    ensures { IfOk result (λ is. IsTrue is ↔ IsEntry entry.now) }
{
    match entry {
        PoolEntry::Utf8(text) => {
            are_units(text.units());
            is_short(text)
        }
        _ => Ok(is_usable(entry)),
    }
}

/// Whether the entry takes two numbers.
fn is_wide(entry: &PoolEntry) -> bool
    ensures { result ≡ is_wide entry.now }
{
    matches!(entry, PoolEntry::Long(_) | PoolEntry::Double(_))
}

/// Whether the entry may stand behind a long or a double, or elsewhere.
fn is_slot(entry: &PoolEntry, wide: bool) -> Result<bool, Memory>
    ensures { IfOk result (λ is. IsTrue is ↔ IsSlot wide entry.now) }
{
    if wide {
        Ok(matches!(entry, PoolEntry::Unusable))
    } else {
        is_entry(entry)
    }
}

/// Whether the entries have the layout of a pool.
fn is_layout(pool: &[PoolEntry]) -> Result<bool, Memory>
    ensures { IfOk result (λ is. IsTrue is ↔ IsLayout pool.now) }
{
    if pool.len() >= 0xFFFF {
        return Ok(false);
    }
    let mut wide = false;
    for entry in pool {
        if !is_slot(entry, wide)? {
            return Ok(false);
        }
        wide = !wide && is_wide(entry);
    }
    Ok(!wide)
}

/// Whether the entries are those of a pool, in which each number names what its place needs (JVM
/// Specification 4.4).
pub(crate) fn is_pool(alloc: Global, pool: &[PoolEntry]) -> Result<bool, Memory>
    ensures { IfOk result (λ is. IsTrue is ↔ IsPool pool.now) }
{
    if !is_layout(pool)? {
        return Ok(false);
    }
    match first_break(alloc, pool)? {
        Some(_) => Ok(false),
        None => Ok(true),
    }
}
