//! What the attributes of a class or of a member mean.
ghost use Rattle.std.specs.Prelude.{◌≡◌, ◌≤◌, length, IfOk};
ghost use Rattle.std.specs.List.{flat_map, AllByRecursion};
ghost use Rattle.wv_code.specs.Body.{kept_name};
ghost use Rattle.wv_code.specs.Breaks.{NamesClass};
ghost use Rattle.wv_class.specs.Meaning.{AreClasses, IsValueIn, content_codes, kept_in, codes_in, values_in, exceptions_in};
ghost use Rattle.wv_class.specs.MemberRead.{NamesConstant, in_list};

use crate::names::push_classes;
use crate::raw_class::{Content, RawAttribute};
use std::alloc::Global;
use wv_base::{Attribute, Const, Items, Memory, Name};
use wv_code::{RawBody, constant_at};
use wv_pool::Pool;

/// The value of a field, of which there is one at most (JVM Specification 4.7.2).
pub(crate) fn value_of(pool: &Pool, attributes: &[RawAttribute]) -> Result<Option<Const>, Memory>
    requires one { length (values_in attributes.now) ≤ 1 }
    requires named { AllByRecursion (NamesConstant pool.now) (values_in attributes.now) }
    ensures { IfOk result (IsValueIn pool.now (values_in attributes.now)) }
{
    for attribute in attributes {
        if let Content::ConstantValue(number) = &attribute.content {
            return constant_at(pool, *number);
        }
    }
    Ok(None)
}

/// The classes that a method declares to throw (JVM Specification 4.7.5).
pub(crate) fn throws_of(
    alloc: Global,
    pool: &Pool,
    attributes: &[RawAttribute],
) -> Result<Items<Name>, Memory>
    requires { AllByRecursion (NamesClass pool.now) (exceptions_in attributes.now) }
    ensures { IfOk result (AreClasses pool.now (exceptions_in attributes.now)) }
{
    let mut names = Vec::new(alloc);
    for attribute in attributes {
        if let Content::Exceptions(numbers) = &attribute.content {
            push_classes(pool, numbers.as_slice(), &mut names)?;
        }
    }
    Ok(Items::from_vec(names))
}

/// The number of a kept attribute's name; 0 where the pool has no such number.
fn kept_name(pool: &Pool, name: u16) -> u16
    ensures { result ≡ kept_name pool.now name }
{
    if name as usize <= pool.entries().len() {
        name
    } else {
        0
    }
}

/// The attribute's code, or the attribute as it is kept, if it is.
fn moved(pool: &Pool, attribute: RawAttribute) -> (Option<RawBody>, Option<Attribute>)
    ensures code { content_codes attribute.content ≡ in_list result.0 }
    ensures kept { kept_in pool.now attribute ≡ in_list result.1 }
{
    let RawAttribute { name, content } = attribute;
    match content {
        Content::Code(raw) => (Some(raw), None),
        Content::Other(content) => {
            let name = kept_name(pool, name);
            (None, Some(Attribute { name, content }))
        }
        _ => (None, None),
    }
}

/// The code, of which there is one at most, and the attributes that are kept, in order (JVM
/// Specification 4.7). They are moved.
pub(crate) fn code_and_kept(
    alloc: Global,
    pool: &Pool,
    attributes: Items<RawAttribute>,
) -> Result<(Option<RawBody>, Items<Attribute>), Memory>
    ensures code { length (codes_in attributes) ≤ 1 → IfOk result (λ x. codes_in attributes ≡ in_list x.0) }
    ensures kept { IfOk result (λ x. x.1 ≡ flat_map (kept_in pool.now) attributes) }
{
    let mut attributes = attributes;
    let mut code = None;
    let mut kept = Vec::new(alloc);
    while let Some(attribute) = attributes.pop() {
        let (raw, other) = moved(pool, attribute);
        if raw.is_some() {
            code = raw;
        }
        if let Some(other) = other {
            kept.push(other)?;
        }
    }
    kept.reverse();
    Ok((code, Items::from_vec(kept)))
}
