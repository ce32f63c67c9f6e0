//! Reading class files.
ghost use Rattle.std.specs.Prelude.{◌≡◌, ◌^◌, ◌<◌, length, IfOk, IfErr};
ghost use Rattle.wv_pool.specs.Entries.{IsLayout, pool_bytes};
ghost use Rattle.wv_pool.specs.References.{IsPool};
ghost use Rattle.wv_class.specs.Reading.{PoolBreaks};
ghost use Rattle.wv_base.specs.declared.class_file.ClassFile.{ClassFile};
ghost use Rattle.wv_class.specs.Meaning.{Spells, GivesClass, ClassBreaks};

use crate::class::class_of;
use crate::layout::read_layout;
use crate::pool_copy::copied_entries;
use crate::raw_class::RawClass;
use crate::rest_break::rest_break;
use std::alloc::Global;
use wv_attr::Types;
use wv_base::{ClassFault, ClassFile, PoolEntry};
use wv_pool::{Pool, first_break};

/// The greatest length of a slice: no item has a place beyond it.
const MOST: usize = 0x7fff_ffff_ffff_ffff;

/// The pool of entries that were read as a layout, which begins at place 8 of the file. A fault is
/// the place of the first field that doesn't name what it must.
fn pool_of(alloc: Global, entries: &[PoolEntry]) -> Result<Pool, ClassFault>
    requires layout { IsLayout entries.now }
    requires small { length (pool_bytes entries.now) < 2 ^ 63 }
    ensures found { IfOk result (λ pool. pool ≡ entries.now) }
    ensures sound { IfOk result (λ _. IsPool entries.now) }
    ensures fault { IfErr result (PoolBreaks entries.now) }
{
    match first_break(alloc, entries)? {
        Some(at) => Err(ClassFault::Reference { at: 8 + at }),
        None => Ok(Pool::from_entries(alloc, copied_entries(alloc, entries)?)?),
    }
}

/// The class that the bytes of a class file spell (JVM Specification 4). The place of a fault is a
/// byte of the file: `Layout` comes where the bytes are no class file, at the first with which none
/// goes on, and else `Reference` at the first item that breaks what it must meet.
pub fn read_class(alloc: Global, bytes: &[u8]) -> Result<ClassFile, ClassFault>
    ensures found { IfOk result (Spells bytes.now) }
    // What the bytes spell is found, unless memory runs out.
    ensures only { (class : ClassFile) → Spells bytes.now class → GivesClass result class }
    ensures fault { IfErr result (ClassBreaks bytes.now) }
{
    if bytes.len() > MOST {
        return Err(ClassFault::Memory);
    }
    let (raw, behind_pool) = read_layout(alloc, bytes)?;
    let pool = pool_of(alloc, raw.pool.as_slice())?;
    let types = Types::of(alloc, &pool)?;
    match rest_break(alloc, &pool, &types, &raw.rest, behind_pool)? {
        Some(at) => Err(ClassFault::Reference { at }),
        None => {
            let RawClass {
                version,
                pool: entries,
                rest,
            } = raw;
            Ok(class_of(alloc, version, entries, &pool, &types, rest)?)
        }
    }
}
