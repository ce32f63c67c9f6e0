//! The first entry of a pool whose numbers don't name what they must.
ghost use Rattle.std.specs.Prelude.{◌≡◌, IfOk, IfSome, IfNone};
ghost use Rattle.std.specs.List.{AllByRecursion};
ghost use Rattle.wv_pool.specs.Entries.{IsLayout};
ghost use Rattle.wv_pool.specs.References.{IsSound, BreaksAt, FirstBreaks};
ghost use Rattle.wv_pool.specs.Facts.{AreAllFacts};

use crate::fact_table::facts_of;
use crate::facts::Facts;
use crate::length::entry_len;
use crate::reference::{first_holds, second_holds};
use std::alloc::Global;
use wv_base::{Memory, PoolEntry};

/// The place, from its tag on, of the first field of the entry that breaks what it must meet.
fn break_in(pool: &[PoolEntry], facts: &[Option<Facts>], entry: &PoolEntry) -> Option<usize>
    requires { AreAllFacts pool.now facts.now }
    ensures found { IfSome result (BreaksAt pool.now entry.now) }
    ensures none { IfNone result (IsSound pool.now entry.now) }
{
    if !first_holds(pool, facts, entry) {
        return Some(1);
    }
    if !second_holds(pool, facts, entry) {
        return match entry {
            PoolEntry::MethodHandle { .. } => Some(2),
            _ => Some(3),
        };
    }
    None
}

/// The place of the first field that doesn't name what it must (JVM Specification 4.4), counted from
/// the pool's count on, in entries that were read as a layout. None where each number names what
/// its place needs.
pub fn first_break(alloc: Global, pool: &[PoolEntry]) -> Result<Option<usize>, Memory>
    requires { IsLayout pool.now }
    ensures found { IfOk result (λ found. IfSome found (FirstBreaks pool.now)) }
    ensures none { IfOk result (λ found. IfNone found (AllByRecursion (IsSound pool.now) pool.now)) }
{
    let facts = facts_of(alloc, pool)?;
    let mut at = 2;
    for entry in pool {
        if let Some(field) = break_in(pool, &facts, entry) {
            return Ok(Some(at + field));
        }
        at += entry_len(entry);
    }
    Ok(None)
}
