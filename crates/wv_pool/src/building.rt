//! The index of a pool that was read.
ghost use Rattle.std.specs.Prelude.{◌≡◌, ◌<◌, ◌≤◌, ◌+◌, length, IfOk, OnOk, Some};
ghost use Rattle.std.specs.List.{AllByRecursion};
ghost use Rattle.wv_pool.specs.References.{entry_of, IsSound, IsPool};
ghost use Rattle.wv_pool.specs.Index.{number_in};
ghost use Rattle.wv_pool.specs.Numbers.{IsIn, Enters};
ghost use Rattle.wv_pool.specs.Building.{level_in, first_of, key_with, IsBuilt};

use crate::index::Index;
use crate::key::Key;
use std::alloc::Global;
use wv_base::{Memory, PoolEntry};

/// How many entries stand behind the entry, one on the other.
fn level_of(entry: &PoolEntry) -> u8
    ensures { result ≡ level_in entry.now }
{
    match entry {
        PoolEntry::Utf8(_)
        | PoolEntry::Integer(_)
        | PoolEntry::Float(_)
        | PoolEntry::Long(_)
        | PoolEntry::Double(_) => 0,
        PoolEntry::Class { .. }
        | PoolEntry::String { .. }
        | PoolEntry::NameAndType { .. }
        | PoolEntry::MethodType { .. } => 1,
        PoolEntry::Field { .. }
        | PoolEntry::Method { .. }
        | PoolEntry::InterfaceMethod { .. }
        | PoolEntry::InvokeDynamic { .. } => 2,
        PoolEntry::MethodHandle { .. } => 3,
        PoolEntry::Unusable => 4,
    }
}

/// The least number that names what the number names.
fn first(firsts: &[u16], number: u16) -> u16
    ensures { result ≡ first_of firsts.now number }
{
    firsts.get(number as usize).copied().unwrap_or(0)
}

/// The key of a usable entry whose parts' numbers are in the table.
fn entry_key(firsts: &[u16], entry: &PoolEntry) -> Result<Option<Key>, Memory>
    ensures { IfOk result (λ key. key ≡ key_with (first_of firsts.now) entry.now) }
{
    Ok(Some(match entry {
        PoolEntry::Utf8(name) => Key::Utf8(name.copy()?),
        PoolEntry::Integer(value) => Key::Integer(*value),
        PoolEntry::Float(bits) => Key::Float(*bits),
        PoolEntry::Long(value) => Key::Long(*value),
        PoolEntry::Double(bits) => Key::Double(*bits),
        PoolEntry::Class { name } => Key::Class(first(firsts, *name)),
        PoolEntry::String { text } => Key::String(first(firsts, *text)),
        PoolEntry::Field {
            class,
            name_and_type,
        } => { Key::Field(first(firsts, *class), first(firsts, *name_and_type)) }
        PoolEntry::Method {
            class,
            name_and_type,
        } => { Key::Method(first(firsts, *class), first(firsts, *name_and_type)) }
        PoolEntry::InterfaceMethod {
            class,
            name_and_type,
        } => { Key::InterfaceMethod(first(firsts, *class), first(firsts, *name_and_type)) }
        PoolEntry::NameAndType { name, descriptor } => {
            Key::NameAndType(first(firsts, *name), first(firsts, *descriptor))
        }
        PoolEntry::MethodHandle { kind, reference } => {
            Key::MethodHandle(*kind, first(firsts, *reference))
        }
        PoolEntry::MethodType { descriptor } => Key::MethodType(first(firsts, *descriptor)),
        PoolEntry::InvokeDynamic {
            bootstrap,
            name_and_type,
        } => { Key::InvokeDynamic(*bootstrap, first(firsts, *name_and_type)) }
        PoolEntry::Unusable => return Ok(None),
    }))
}

/// Enters the numbers whose entries stand on this many others.
fn enter_level(
    pool: &[PoolEntry],
    level: u8,
    firsts: &mut Vec<u16>,
    index: &mut Index,
) -> Result<(), Memory>
    requires low { level ≤ 3 }
    requires few { length pool.now < 65535 }
    requires sound { AllByRecursion (IsSound pool.now) pool.now }
    requires built { IsBuilt pool.now level 0 firsts.old.items (number_in index.old) }
    ensures { OnOk result (IsBuilt pool.now level (length pool.now) firsts.new.items (number_in index.new)) }
{
    let mut number = 0u16;
    for entry in pool {
        number += 1;
        if level_of(entry) != level {
            continue;
        }
        let Some(key) = entry_key(firsts, entry)? else {
            unreachable!()
        };
        firsts[number as usize] = index.number_or_insert(key, number)?;
    }
    Ok(())
}

/// An index of the pool's constants.
pub(crate) fn index_of(alloc: Global, pool: &[PoolEntry]) -> Result<Index, Memory>
    requires { IsPool pool.now }
    ensures { IfOk result (λ index. Enters pool.now (IsIn pool.now) (number_in index)) }
{
    let mut index = Index::new(alloc);
    let mut firsts = vec![in alloc; 0u16; pool.len() + 1]?;
    for level in 0..4u8 {
        enter_level(pool, level, &mut firsts, &mut index)?;
    }
    Ok(index)
}
