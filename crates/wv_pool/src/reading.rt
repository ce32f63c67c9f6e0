//! Reading a pool from the bytes of a class file.
ghost use Rattle.std.specs.Prelude.{◌≡◌, ◌++◌, List, ℕ, length, take, IfOk, IfErr};
ghost use Rattle.std.specs.Result.{result_map_both};
ghost use Rattle.wv_base.specs.declared.class_file.PoolEntry.{PoolEntry};
ghost use Rattle.wv_pool.specs.Entries.{IsLayout, pool_bytes};
ghost use Rattle.wv_pool.specs.References.{IsPool};
ghost use Rattle.wv_pool.specs.Answers.{GivesPool, LayoutBreaks, PoolBreaks};

use crate::layout::pool_at;
use crate::pool::Pool;
use crate::soundness::first_break;
use crate::stop::Stop;
use std::alloc::Global;
use wv_base::{ClassFault, PoolEntry};

/// The entries of the pool whose count the bytes start with, and the number of bytes that they take,
/// whatever their numbers name (JVM Specification 4.1 and 4.4). The place of a fault counts from the
/// start of `bytes`.
pub fn read_layout(alloc: Global, bytes: &[u8]) -> Result<(Vec<PoolEntry>, usize), ClassFault>
    // What is read was spelled so.
    ensures found { IfOk result (λ x. IsLayout x.0.items × (take x.1 bytes.now ≡ pool_bytes x.0.items)) }
    // What is spelled so is read, unless memory runs out.
    ensures only { (pool : List PoolEntry) (rest : List ℕ) → IsLayout pool → bytes.now ≡ pool_bytes pool ++ rest → GivesPool (result_map_both (λ x. (x.0.items, x.1)) (λ e. e) result) pool }
    ensures fault { IfErr result (LayoutBreaks bytes.now) }
{
    match pool_at(alloc, bytes) {
        Ok((entries, rest)) => Ok((entries, bytes.len() - rest.len())),
        Err(Stop::Left(left)) => Err(ClassFault::Layout {
            at: bytes.len() - left,
        }),
        Err(Stop::Memory) => Err(ClassFault::Memory),
    }
}

/// The pool whose count the bytes start with, and the number of bytes that it takes. A fault of the
/// layout comes before every other. The place of a fault counts from the start of `bytes`.
pub fn read_pool(alloc: Global, bytes: &[u8]) -> Result<(Pool, usize), ClassFault>
    ensures found { IfOk result (λ x. IsPool x.0 × (take x.1 bytes.now ≡ pool_bytes x.0)) }
    ensures only { (pool : List PoolEntry) (rest : List ℕ) → IsPool pool → bytes.now ≡ pool_bytes pool ++ rest → GivesPool result pool }
    ensures fault { IfErr result (PoolBreaks bytes.now) }
{
    let (entries, len) = read_layout(alloc, bytes)?;
    if let Some(at) = first_break(alloc, &entries)? {
        return Err(ClassFault::Reference { at });
    }
    Ok((Pool::from_entries(alloc, entries)?, len))
}
