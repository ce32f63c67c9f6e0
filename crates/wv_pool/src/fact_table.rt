//! The facts of a pool's texts, by their places.
ghost use Rattle.std.specs.Prelude.{IfOk};
ghost use Rattle.wv_pool.specs.Facts.{AreEntryFacts, AreAllFacts};

use crate::facts::Facts;
use std::alloc::Global;
use wv_base::{Memory, PoolEntry};

fn facts_of_entry(entry: &PoolEntry) -> Option<Facts>
    ensures { AreEntryFacts entry.now result }
{
    match entry {
        PoolEntry::Utf8(name) => Some(Facts::of(name)),
        _ => None,
    }
}

/// The facts of each text, by its place.
pub(crate) fn facts_of(alloc: Global, pool: &[PoolEntry]) -> Result<Vec<Option<Facts>>, Memory>
    ensures { IfOk result (λ facts. AreAllFacts pool.now facts.items) }
{
    let mut all = Vec::with_capacity(alloc, pool.len())?;
    for entry in pool {
        all.push(facts_of_entry(entry))?;
    }
    Ok(all)
}
