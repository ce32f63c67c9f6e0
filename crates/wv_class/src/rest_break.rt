//! The first item of a class file that breaks what it must meet.
ghost use Rattle.std.specs.Prelude.{ℕ, ◌+◌, ◌^◌, ◌<◌, List, length, IfOk};
ghost use Rattle.wv_attr.specs.Types.{AreTypes};
ghost use Rattle.wv_code.specs.Least.{IsLeastOf, Behind};
ghost use Rattle.wv_class.specs.Layout.{SpellsRest};
ghost use Rattle.wv_class.specs.Breaks.{RestBreaks};

use crate::attribute_break::class_attributes_break;
use crate::least::{lesser, unless};
use crate::len::members_len;
use crate::member_break::{fields_break, methods_break};
use crate::number_break::{interfaces_break, names_plain_class};
use crate::raw_class::RawRest;
use std::alloc::Global;
use wv_attr::Types;
use wv_base::Memory;
use wv_pool::Pool;

/// The place of the first item behind the pool that breaks what it must meet (JVM Specification 4),
/// where the flags of the class have place `base`. None where each item meets it.
pub(crate) fn rest_break(
    alloc: Global,
    pool: &Pool,
    types: &Types,
    rest: &RawRest,
    base: usize,
) -> Result<Option<usize>, Memory>
    requires spelled { (near : ℕ) × (bytes : List ℕ) × (base + length bytes < 2 ^ 63) × SpellsRest pool.now near rest.now bytes }
    requires types { AreTypes pool.now types.now }
    ensures { IfOk result (IsLeastOf (Behind base (RestBreaks pool.now rest.now))) }
{
    let number = rest.class;
    let fields = rest.fields.as_slice();
    let methods = rest.methods.as_slice();
    let fields_place = base + 10 + 2 * rest.interfaces.len();
    let methods_place = fields_place + members_len(fields) + 2;
    let attributes_place = methods_place + members_len(methods) + 2;
    let class = unless(names_plain_class(pool, number), base + 2);
    let superclass = unless(names_plain_class(pool, rest.superclass), base + 4);
    let interface = interfaces_break(pool, rest.interfaces.as_slice(), base + 8);
    let head = lesser(lesser(class, superclass), interface);
    let field = fields_break(alloc, pool, types, number, fields, fields_place)?;
    let method = methods_break(alloc, pool, types, number, methods, methods_place)?;
    let attributes = rest.attributes.as_slice();
    let attribute = class_attributes_break(pool, types, attributes, attributes_place);
    Ok(lesser(lesser(head, field), lesser(method, attribute)))
}
