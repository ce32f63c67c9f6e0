//! The layout of a pool: its count and its entries, whatever their numbers name.
ghost use Rattle.std.specs.Prelude.{◌≡◌, false};
ghost use Rattle.wv_pool.specs.Reading.{Gives, fixed, number, slots_in, pool_at};

use crate::entry::{is_wide, slot_at, u16_at};
use crate::stop::Stop;
use std::alloc::Global;
use wv_base::PoolEntry;

fn slots_in(alloc: Global, count: usize, bytes: &[u8]) -> Result<(Vec<PoolEntry>, &[u8]), Stop>
    ensures { Gives (λ x. (x.0.items, x.1.now)) result (slots_in false count bytes.now) }
{
    let mut entries = Vec::new(alloc);
    let mut rest = bytes;
    let mut wide = false;
    for place in 0..count {
        let behind = count - place - 1;
        let (entry, after) = slot_at(alloc, wide, behind == 0, rest)?;
        wide = is_wide(&entry);
        entries.push(entry)?;
        rest = after;
    }
    Ok((entries, rest))
}

/// The entries of the pool at the front, and the bytes behind it.
#[tactic(auto, unfolding(crate::specs::Reading::pool_at))]
pub(crate) fn pool_at(alloc: Global, bytes: &[u8]) -> Result<(Vec<PoolEntry>, &[u8]), Stop>
    ensures { Gives (λ x. (x.0.items, x.1.now)) result (pool_at bytes.now) }
{
    let (count, rest) = u16_at(bytes)?;
    if count == 0 {
        return Err(Stop::Left(rest.len() + 1));
    }
    slots_in(alloc, count as usize - 1, rest)
}
