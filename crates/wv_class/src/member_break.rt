//! The first item of fields and methods that breaks what it must meet.
ghost use Rattle.std.specs.Prelude.{◌≡◌, ◌↔◌, ◌+◌, ◌^◌, ◌<◌, length, take, List, IsTrue, IfOk};
ghost use Rattle.std.specs.List.{AllByRecursion, sum_by};
ghost use Rattle.wv_attr.specs.Types.{AreTypes};
ghost use Rattle.wv_code.specs.Least.{IsLeastOf, Behind};
ghost use Rattle.wv_class.specs.declared.raw_class.RawMember.{RawMember};
ghost use Rattle.wv_class.specs.Breaks.{member_len, InList, IsAgain, FieldBreaks, MethodBreaks};
ghost use Rattle.wv_class.specs.Checking.{IsSpelledMember, WholeBreaks};

use crate::attribute_break::member_attributes_break;
use crate::least::{lesser, unless};
use crate::len::member_len;
use crate::member_rules::{
    has_field_descriptor, has_field_name, has_its_code, has_method_descriptor, has_method_name,
    is_initializer, is_narrow,
};
use crate::raw_class::RawMember;
use crate::seen::is_again;
use std::alloc::Global;
use std::collections::BTreeSet;
use wv_attr::Types;
use wv_base::Memory;
use wv_pool::Pool;

/// The first item of a field that breaks what it must meet, where the field has place `base` and its
/// name and descriptor were there before or not (JVM Specification 4.5).
fn field_break(
    alloc: Global,
    pool: &Pool,
    types: &Types,
    class: u16,
    field: &RawMember,
    again: bool,
    base: usize,
) -> Result<Option<usize>, Memory>
    requires types { AreTypes pool.now types.now }
    requires spelled { IsSpelledMember pool.now field.now }
    requires low { base < 2 ^ 63 }
    ensures { (before : List RawMember) → IsTrue again ↔ IsAgain pool.now before field.now → IfOk result (IsLeastOf (Behind base (FieldBreaks pool.now class before field.now))) }
{
    let again = unless(!again, base);
    let name = unless(has_field_name(pool, field), base + 2);
    let descriptor = unless(has_field_descriptor(pool, field), base + 4);
    let attributes = member_attributes_break(alloc, pool, types, class, field, base + 8)?;
    Ok(lesser(lesser(again, name), lesser(descriptor, attributes)))
}

/// The place `base` of a method that breaks what it must meet as a whole.
fn whole_break(pool: &Pool, method: &RawMember, again: bool, base: usize) -> Option<usize>
    ensures { (before : List RawMember) → IsTrue again ↔ IsAgain pool.now before method.now → IsLeastOf (WholeBreaks pool.now before method.now base) result }
{
    let again = unless(!again, base);
    let initializer = unless(is_initializer(pool, method), base);
    let code = unless(has_its_code(method), base);
    let wide = unless(is_narrow(pool, method), base);
    lesser(lesser(again, initializer), lesser(code, wide))
}

/// The first item of a method that breaks what it must meet, where the method has place `base` and
/// its name and descriptor were there before or not (JVM Specification 4.6).
fn method_break(
    alloc: Global,
    pool: &Pool,
    types: &Types,
    class: u16,
    method: &RawMember,
    again: bool,
    base: usize,
) -> Result<Option<usize>, Memory>
    requires types { AreTypes pool.now types.now }
    requires spelled { IsSpelledMember pool.now method.now }
    requires low { base < 2 ^ 63 }
    ensures { (before : List RawMember) → IsTrue again ↔ IsAgain pool.now before method.now → IfOk result (IsLeastOf (Behind base (MethodBreaks pool.now class before method.now))) }
{
    let whole = whole_break(pool, method, again, base);
    let name = unless(has_method_name(pool, method), base + 2);
    let descriptor = unless(has_method_descriptor(pool, method), base + 4);
    let attributes = member_attributes_break(alloc, pool, types, class, method, base + 8)?;
    Ok(lesser(lesser(whole, name), lesser(descriptor, attributes)))
}

/// The first item of fields that breaks what it must meet, where the first field has place `base`.
pub(crate) fn fields_break(
    alloc: Global,
    pool: &Pool,
    types: &Types,
    class: u16,
    fields: &[RawMember],
    base: usize,
) -> Result<Option<usize>, Memory>
    requires types { AreTypes pool.now types.now }
    requires spelled { AllByRecursion (IsSpelledMember pool.now) fields.now }
    requires room { base + sum_by member_len fields.now < 2 ^ 63 }
    ensures { IfOk result (IsLeastOf (InList member_len base fields.now (λ k m. FieldBreaks pool.now class (take k fields.now) m))) }
{
    let mut found = None;
    let mut seen = BTreeSet::new(alloc);
    let mut place = base;
    for field in fields {
        let again = is_again(pool, &mut seen, field)?;
        let one = field_break(alloc, pool, types, class, field, again, place)?;
        found = lesser(found, one);
        place += member_len(field);
    }
    Ok(found)
}

/// The first item of methods that breaks what it must meet, where the first method has place `base`.
pub(crate) fn methods_break(
    alloc: Global,
    pool: &Pool,
    types: &Types,
    class: u16,
    methods: &[RawMember],
    base: usize,
) -> Result<Option<usize>, Memory>
    requires types { AreTypes pool.now types.now }
    requires spelled { AllByRecursion (IsSpelledMember pool.now) methods.now }
    requires room { base + sum_by member_len methods.now < 2 ^ 63 }
    ensures { IfOk result (IsLeastOf (InList member_len base methods.now (λ k m. MethodBreaks pool.now class (take k methods.now) m))) }
{
    let mut found = None;
    let mut seen = BTreeSet::new(alloc);
    let mut place = base;
    for method in methods {
        let again = is_again(pool, &mut seen, method)?;
        let one = method_break(alloc, pool, types, class, method, again, place)?;
        found = lesser(found, one);
        place += member_len(method);
    }
    Ok(found)
}
