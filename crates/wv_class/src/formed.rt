//! Whether a class file can have a class.
ghost use Rattle.std.specs.Prelude.{◌↔◌, IsTrue, IfOk};
ghost use Rattle.std.specs.List.{AllByRecursion};
ghost use Rattle.wv_class.specs.Formed.{IsFormedClassName, IsFormedField, IsFormedMethod, AreDistinct, IsFormedClass};

use crate::distinct::are_distinct;
use crate::formed_field::are_formed_fields;
use crate::formed_method::are_formed_methods;
use crate::formed_names::{are_formed_class_names, is_formed_class_name};
use crate::formed_notes::{are_formed_kept, are_formed_notes};
use crate::pool_copy::copied_entries;
use crate::pool_layout::is_pool;
use crate::raw_class::Place;
use std::alloc::Global;
use wv_base::{ClassFile, Memory};
use wv_pool::Pool;

/// Whether the class has a name and names of its superclass and of its interfaces.
fn is_named(class: &ClassFile) -> Result<bool, Memory>
    ensures { IfOk result (λ is. IsTrue is ↔ (IsFormedClassName class.now.name × IsFormedClassName class.now.superclass × AllByRecursion IsFormedClassName class.now.interfaces)) }
{
    Ok(
        is_formed_class_name(&class.name)?
            && is_formed_class_name(&class.superclass)?
            && are_formed_class_names(class.interfaces.as_slice())?,
    )
}

fn has_formed_fields(alloc: Global, pool: &Pool, class: &ClassFile) -> Result<bool, Memory>
    ensures { IfOk result (λ has. IsTrue has ↔ (AllByRecursion (IsFormedField pool.now) class.now.fields × AreDistinct class.now.fields)) }
{
    let fields = class.fields.as_slice();
    Ok(are_formed_fields(alloc, pool.entries(), fields)? && are_distinct(alloc, fields)?)
}

fn has_formed_methods(alloc: Global, pool: &Pool, class: &ClassFile) -> Result<bool, Memory>
    ensures { IfOk result (λ has. IsTrue has ↔ (AllByRecursion (IsFormedMethod pool.now) class.now.methods × AreDistinct class.now.methods)) }
{
    let methods = class.methods.as_slice();
    Ok(are_formed_methods(alloc, pool, methods)? && are_distinct(alloc, methods)?)
}

/// Whether a class file can have the class, apart from the limits of the format (JVM Specification 4):
/// each name and descriptor has its grammar and room in the pool, members are distinct, bodies,
/// annotations and attributes that are kept fit their places, and the pool as read is sound. What
/// `read_class` gives is, unless a frame has more than 65,535 locals, or several tables of one kind
/// have more annotations together than one table can.
pub fn is_formed(alloc: Global, class: &ClassFile) -> Result<bool, Memory>
    ensures { IfOk result (λ is. IsTrue is ↔ IsFormedClass class.now) }
{
    let entries = class.pool.as_slice();
    if !is_pool(alloc, entries)? {
        return Ok(false);
    }
    let pool = Pool::from_entries(alloc, copied_entries(alloc, entries)?)?;
    Ok(
        is_named(class)?
            && has_formed_fields(alloc, &pool, class)?
            && has_formed_methods(alloc, &pool, class)?
            && are_formed_notes(alloc, Place::Class, class.notes.as_slice())?
            && are_formed_kept(entries, Place::Class, class.kept.as_slice()),
    )
}
