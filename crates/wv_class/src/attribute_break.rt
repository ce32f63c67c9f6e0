//! The first item of attributes that breaks what it must meet.
ghost use Rattle.std.specs.Prelude.{◌≡◌, ◌+◌, ◌^◌, ◌<◌, ◌&&◌, ◌||◌, length, IfOk};
ghost use Rattle.std.specs.List.{AllByRecursion};
ghost use Rattle.wv_attr.specs.Types.{AreTypes};
ghost use Rattle.wv_code.specs.Least.{IsLeastOf, Behind};
ghost use Rattle.wv_class.specs.Breaks.{attribute_len, is_value, InList, PartsBreak, AttributesBreak};
ghost use Rattle.wv_class.specs.Checking.{IsSpelledAttribute};

use crate::content_break::{content_break, parts_break};
use crate::least::{lesser, unless};
use crate::len::attribute_len;
use crate::member_rules::is_value;
use crate::raw_class::{Content, RawAttribute, RawMember};
use std::alloc::Global;
use wv_attr::Types;
use wv_base::Memory;
use wv_pool::Pool;

/// Whether this is a ConstantValue behind another.
fn is_second(seen: bool, content: &Content) -> bool
    ensures { result ≡ (seen && is_value content.now) }
{
    seen && is_value(content)
}

/// Whether a ConstantValue was seen before or is this content.
fn sees_value(seen: bool, content: &Content) -> bool
    ensures { result ≡ (seen || is_value content.now) }
{
    seen || is_value(content)
}

/// The first item of a member's attributes that breaks what it must meet, where the first of them
/// has place `base`. A field has one ConstantValue at most (JVM Specification 4.7.2).
pub(crate) fn member_attributes_break(
    alloc: Global,
    pool: &Pool,
    types: &Types,
    class: u16,
    member: &RawMember,
    base: usize,
) -> Result<Option<usize>, Memory>
    requires types { AreTypes pool.now types.now }
    requires few { length member.now.attributes < 2 ^ 16 }
    requires spelled { AllByRecursion (IsSpelledAttribute pool.now) member.now.attributes }
    requires low { base < 2 ^ 63 + 2 ^ 40 }
    ensures { IfOk result (IsLeastOf (AttributesBreak pool.now class member.now member.now.attributes base)) }
{
    let mut found = None;
    let mut has_value = false;
    let mut place = base;
    for attribute in member.attributes.as_slice() {
        let content = &attribute.content;
        let again = unless(!is_second(has_value, content), place);
        let inner = content_break(alloc, pool, types, class, member, content, place + 6)?;
        found = lesser(found, lesser(again, inner));
        has_value = sees_value(has_value, content);
        place += attribute_len(attribute);
    }
    Ok(found)
}

/// The first item of a class's attributes that breaks what it must meet, where the first of them has
/// place `base`.
pub(crate) fn class_attributes_break(
    pool: &Pool,
    types: &Types,
    attributes: &[RawAttribute],
    base: usize,
) -> Option<usize>
    requires types { AreTypes pool.now types.now }
    requires few { length attributes.now < 2 ^ 16 }
    requires spelled { AllByRecursion (IsSpelledAttribute pool.now) attributes.now }
    requires low { base < 2 ^ 63 }
    ensures { IsLeastOf (InList attribute_len base attributes.now (λ k a. Behind 6 (PartsBreak pool.now a.content))) result }
{
    let mut found = None;
    let mut place = base;
    for attribute in attributes {
        let one = parts_break(pool, types, &attribute.content, place + 6);
        found = lesser(found, one);
        place += attribute_len(attribute);
    }
    found
}
