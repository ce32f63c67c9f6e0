//! Writing class files.
ghost use Rattle.std.specs.Prelude.{◌≡◌, ◌^◌, ◌<◌, ◌++◌, IfOk, IfErr};
ghost use Rattle.wv_pool.specs.Adding.{Grows};
ghost use Rattle.wv_pool.specs.Entries.{number_bytes};
ghost use Rattle.wv_pool.specs.References.{IsPool};
ghost use Rattle.wv_class.specs.Formed.{IsFormedClass};
ghost use Rattle.wv_class.specs.Layout.{magic};
ghost use Rattle.wv_class.specs.Limits.{IsTooLong, IsCause};
ghost use Rattle.wv_class.specs.Needs.{class_needs};
ghost use Rattle.wv_class.specs.Same.{Writes};

use crate::entering::enter_class;
use crate::limits::{has_long_list, layouts};
use crate::pool_copy::copied_entries;
use crate::rest_writing::rest_to_bytes;
use std::alloc::Global;
use wv_base::{Bytes, ClassFile, ClassVersion, LimitFault, Memory};
use wv_pool::{Pool, PoolFault};

/// The magic number (JVM Specification 4.1).
const MAGIC: [u8; 4] = [0xca, 0xfe, 0xba, 0xbe];

/// The magic number and the version.
fn head(alloc: Global, version: ClassVersion) -> Result<Bytes, Memory>
    ensures fits { (version.minor < 2 ^ 16) × (version.major < 2 ^ 16) }
    ensures bytes { IfOk result (λ out. out ≡ magic ++ (number_bytes version.minor ++ number_bytes version.major)) }
{
    let mut out = Bytes::from_slice(alloc, &MAGIC)?;
    out.extend(&version.minor.to_be_bytes())?;
    out.extend(&version.major.to_be_bytes())?;
    Ok(out)
}

/// The pool as it was read, with the constants that the class names behind it.
fn full_pool(alloc: Global, class: &ClassFile) -> Result<Pool, LimitFault>
    requires { IsFormedClass class.now }
    ensures grown { IfOk result (Grows class.now.pool (class_needs class.now)) }
    ensures sound { IfOk result IsPool }
    ensures limit { IfErr result (IsCause class.now) }
{
    let mut pool = Pool::from_entries(alloc, copied_entries(alloc, class.pool.as_slice())?)?;
    let entered = enter_class(alloc, class, &mut pool);
    // In a pool each number names what its place needs.
    let _entries = pool.entries();
    match entered {
        Ok(()) => Ok(pool),
        Err(PoolFault::Full) => Err(LimitFault::PoolLarge),
        Err(PoolFault::Memory) => Err(LimitFault::Memory),
    }
}

/// The bytes of a class file that spell the class (JVM Specification 4): the pool as it was read stays
/// the front of the written one, and ldc_w stands in place of each ldc whose constant has no number of
/// one byte. Annotations that stand together in the list stand in one table, and attributes that are
/// kept come last.
pub fn write_class(alloc: Global, class: &ClassFile) -> Result<Bytes, LimitFault>
    // `is_formed` tests it.
    requires { IsFormedClass class.now }
    ensures written { IfOk result (Writes class.now) }
    // Where a list or the pool is too long, nothing is written.
    ensures short { IfOk result (λ _. IsTooLong class.now → ⊥) }
    ensures limit { IfErr result (IsCause class.now) }
{
    if has_long_list(class) {
        return Err(LimitFault::PoolLarge);
    }
    let mut pool = full_pool(alloc, class)?;
    let layouts = layouts(alloc, class, &mut pool)?;
    let rest = rest_to_bytes(alloc, class, &layouts, &mut pool)?;
    let mut out = head(alloc, class.version)?;
    out.extend(pool.write(alloc)?.as_slice())?;
    out.extend(rest.as_slice())?;
    Ok(out)
}
