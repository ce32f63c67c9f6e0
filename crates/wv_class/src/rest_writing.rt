//! Writing what stands behind the pool of a class file.
ghost use Rattle.std.specs.Prelude.{◌≡◌, ◌<◌, ◌^◌, length, IfOk, OnOk};
ghost use Rattle.std.specs.List.{AllByRecursion};
ghost use Rattle.wv_pool.specs.Adding.{Keeps};
ghost use Rattle.wv_pool.specs.Numbers.{Named};
ghost use Rattle.wv_class.specs.Formed.{IsFormedClass};
ghost use Rattle.wv_class.specs.Needs.{class_needs};
ghost use Rattle.wv_class.specs.Limits.{HasLongList};
ghost use Rattle.wv_class.specs.Laid.{AreLaid};
ghost use Rattle.wv_class.specs.Writing.{WritesRest};
ghost use Rattle.wv_class.specs.Limits.{class_attributes};
ghost use Rattle.wv_class.specs.Appending.{WritesParts};

use crate::limits::table_count;
use crate::member_writing::{put_fields, put_methods};
use crate::note_writing::put_others;
use crate::putting::{put_class, put_classes, put_number};
use bitflags::Flags;
use std::alloc::Global;
use wv_base::{Bytes, ClassFile, Memory};
use wv_code::CodeLayout;
use wv_pool::Pool;

/// The bytes of a class from its flags on.
fn parts_to_bytes(
    alloc: Global,
    class: &ClassFile,
    layouts: &[Option<CodeLayout>],
    pool: &mut Pool,
) -> Result<Bytes, Memory>
    requires formed { IsFormedClass class.now }
    requires few { HasLongList class.now → ⊥ }
    requires kept { Keeps class.now.pool pool.old }
    requires named { AllByRecursion (Named pool.old) (class_needs class.now) }
    requires laid { AreLaid pool.old class.now.methods layouts.now }
    ensures same { OnOk result (pool.new ≡ pool.old) }
    ensures written { IfOk result (WritesParts pool.old class.now) }
{
    let (notes, kept) = (class.notes.as_slice(), class.kept.as_slice());
    let mut out = Bytes::new(alloc);
    put_number(&mut out, class.flags.bits())?;
    put_class(pool, &class.name, &mut out)?;
    put_class(pool, &class.superclass, &mut out)?;
    put_classes(pool, class.interfaces.as_slice(), &mut out)?;
    put_fields(alloc, class.fields.as_slice(), pool, &mut out)?;
    put_methods(alloc, class.methods.as_slice(), layouts, pool, &mut out)?;
    put_number(&mut out, (table_count(notes) + kept.len()) as u16)?;
    put_others(alloc, notes, 0, kept, pool, &mut out)?;
    Ok(out)
}

/// The bytes of a class from its flags on (JVM Specification 4.1), with the numbers of the pool, which
/// has the constants of the class and stays as it is. Bodies are written with these layouts. The
/// content of an attribute with 2^32 bytes or more has no room: that is answered as want of memory.
pub(crate) fn rest_to_bytes(
    alloc: Global,
    class: &ClassFile,
    layouts: &[Option<CodeLayout>],
    pool: &mut Pool,
) -> Result<Bytes, Memory>
    requires formed { IsFormedClass class.now }
    requires few { HasLongList class.now → ⊥ }
    requires kept { Keeps class.now.pool pool.old }
    requires named { AllByRecursion (Named pool.old) (class_needs class.now) }
    requires laid { AreLaid pool.old class.now.methods layouts.now }
    ensures same { OnOk result (pool.new ≡ pool.old) }
    ensures written { IfOk result (WritesRest pool.old class.now) }
{
    // The pool is sound.
    let _entries = pool.entries();
    parts_to_bytes(alloc, class, layouts, pool)
}
