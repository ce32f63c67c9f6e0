//! Annotations made of their parts.
ghost use Rattle.std.specs.Prelude.{◌≡◌, ℕ, ◌<◌, ◌≤◌, List, Some, length, IfOk};
ghost use Rattle.std.specs.List.{AllByRecursion};
ghost use Rattle.wv_base.specs.declared.constant.Const.{Const};
ghost use Rattle.wv_base.specs.declared.note.Element.TheVariants as elements;
ghost use Rattle.wv_pool.specs.References.{text_of, IsText};
ghost use Rattle.wv_pool.specs.Constants.{constant_of};
ghost use Rattle.wv_attr.specs.declared.mark.Mark.{Mark};
ghost use Rattle.wv_attr.specs.declared.mark.Mark.TheVariants as marks;
ghost use Rattle.wv_attr.specs.Types.{AreTypes};
ghost use Rattle.wv_attr.specs.References.{IsClassDescriptor, FirstHolds, IsSound};
ghost use Rattle.wv_attr.specs.Fronts.{ValueFront, ValuesFront, AnnotationFront, PairFront, PairsFront};
ghost use Rattle.wv_attr.specs.Meanings.{class_descriptor, IsValue, AreValues, IsAnnotation, IsPair, ArePairs};

use crate::mark::Mark;
use crate::types::Types;
use std::alloc::Global;
use wv_base::{Annotation, Const, Element, Items, Memory, Name, NamedElement, PoolEntry};
use wv_pool::Pool;

/// The text that a sound part names.
fn text(pool: &Pool, number: u16) -> Result<Name, Memory>
    requires { (text : List ℕ) × (text_of pool.now number ≡ Some text) }
    ensures { IfOk result (λ text. text_of pool.now number ≡ Some text) }
{
    match pool.text(number) {
        Some(text) => text.copy(),
        None => unreachable!(),
    }
}

/// The class whose descriptor a sound part names.
fn class(pool: &Pool, types: &Types, number: u16) -> Result<Name, Memory>
    requires types { AreTypes pool.now types.now }
    requires class { IsText pool.now number IsClassDescriptor }
    ensures { IfOk result (λ name. text_of pool.now number ≡ Some (class_descriptor name)) }
{
    match types.class(number) {
        Some(name) => name.copy(),
        None => unreachable!(),
    }
}

/// The constant that a sound part names.
fn constant(pool: &Pool, tag: u8, number: u16) -> Result<Const, Memory>
    requires { FirstHolds pool.now (marks.Constant tag number) }
    ensures { IfOk result (λ value. constant_of pool.now number ≡ Some value) }
{
    Ok(match pool.entry(number) {
        Some(PoolEntry::Integer(value)) => Const::Integer(*value),
        Some(PoolEntry::Float(bits)) => Const::Float(*bits),
        Some(PoolEntry::Long(value)) => Const::Long(*value),
        Some(PoolEntry::Double(bits)) => Const::Double(*bits),
        Some(PoolEntry::Utf8(text)) => Const::Utf8(text.copy()?),
        _ => unreachable!(),
    })
}

/// The value that the parts begin with, and the parts behind it.
#[cycle(naming)]
fn value<'a>(
    alloc: Global,
    pool: &Pool,
    types: &Types,
    parts: &'a [Mark],
) -> Result<(Element, &'a [Mark]), Memory>
    requires front { (rest : List Mark) × ValueFront parts.now rest }
    requires sound { AllByRecursion (IsSound pool.now) parts.now }
    requires types { AreTypes pool.now types.now }
    ensures read { IfOk result (λ x. IsValue pool.now x.0 parts.now x.1.now) }
    ensures rest { IfOk result (λ x. (rest : List Mark) → ValueFront parts.now rest → x.1.now ≡ rest) }
    ensures sound { IfOk result (λ x. AllByRecursion (IsSound pool.now) x.1.now) }
    ensures shorter { IfOk result (λ x. length x.1.now < length parts.now) }
{
    let [mark, rest @ ..] = parts else {
        unreachable!();
    };
    match *mark {
        Mark::Constant { tag, value } => {
            let value = constant(pool, tag, value)?;
            Ok((Element::Constant { tag, value }, rest))
        }
        Mark::Enum { descriptor, name } => {
            let descriptor = text(pool, descriptor)?;
            let name = text(pool, name)?;
            Ok((Element::Enum { descriptor, name }, rest))
        }
        Mark::Class { descriptor } => Ok((Element::Class(text(pool, descriptor)?), rest)),
        Mark::Nested => {
            let (nested, after) = annotation(alloc, pool, types, rest)?;
            Ok((Element::Annotation(nested), after))
        }
        Mark::Array { count } => {
            let (array, after) = values(alloc, pool, types, count, rest)?;
            Ok((Element::Array(array), after))
        }
        _ => unreachable!(),
    }
}

/// So many values, and the parts behind them.
#[cycle(naming)]
fn values<'a>(
    alloc: Global,
    pool: &Pool,
    types: &Types,
    count: u16,
    parts: &'a [Mark],
) -> Result<(Items<Element>, &'a [Mark]), Memory>
    requires front { (rest : List Mark) × ValuesFront count parts.now rest }
    requires sound { AllByRecursion (IsSound pool.now) parts.now }
    requires types { AreTypes pool.now types.now }
    ensures read { IfOk result (λ x. AreValues pool.now x.0 parts.now x.1.now) }
    ensures count { IfOk result (λ x. length x.0 ≡ count) }
    ensures rest { IfOk result (λ x. (rest : List Mark) → ValuesFront count parts.now rest → x.1.now ≡ rest) }
    ensures sound { IfOk result (λ x. AllByRecursion (IsSound pool.now) x.1.now) }
    ensures shorter { IfOk result (λ x. length x.1.now ≤ length parts.now) }
{
    let mut found = Vec::new(alloc);
    let mut rest = parts;
    while found.len() < count as usize {
        let (value, after) = value(alloc, pool, types, rest)?;
        found.push(value)?;
        rest = after;
    }
    Ok((Items::from_vec(found), rest))
}

/// The annotation that the parts begin with, and the parts behind it.
#[cycle(naming)]
pub(crate) fn annotation<'a>(
    alloc: Global,
    pool: &Pool,
    types: &Types,
    parts: &'a [Mark],
) -> Result<(Annotation, &'a [Mark]), Memory>
    requires front { (rest : List Mark) × AnnotationFront parts.now rest }
    requires sound { AllByRecursion (IsSound pool.now) parts.now }
    requires types { AreTypes pool.now types.now }
    ensures read { IfOk result (λ x. IsAnnotation pool.now x.0 parts.now x.1.now) }
    ensures rest { IfOk result (λ x. (rest : List Mark) → AnnotationFront parts.now rest → x.1.now ≡ rest) }
    ensures sound { IfOk result (λ x. AllByRecursion (IsSound pool.now) x.1.now) }
    ensures shorter { IfOk result (λ x. length x.1.now < length parts.now) }
{
    let [mark, rest @ ..] = parts else {
        unreachable!();
    };
    match *mark {
        Mark::Annotation {
            class: number,
            count,
        } => {
            let class = class(pool, types, number)?;
            let (elements, after) = pairs(alloc, pool, types, count, rest)?;
            Ok((Annotation { class, elements }, after))
        }
        _ => unreachable!(),
    }
}

/// The element of an annotation that the parts begin with, and the parts behind it.
#[cycle(naming)]
fn pair<'a>(
    alloc: Global,
    pool: &Pool,
    types: &Types,
    parts: &'a [Mark],
) -> Result<(NamedElement, &'a [Mark]), Memory>
    requires front { (rest : List Mark) × PairFront parts.now rest }
    requires sound { AllByRecursion (IsSound pool.now) parts.now }
    requires types { AreTypes pool.now types.now }
    ensures read { IfOk result (λ x. IsPair pool.now x.0 parts.now x.1.now) }
    ensures rest { IfOk result (λ x. (rest : List Mark) → PairFront parts.now rest → x.1.now ≡ rest) }
    ensures sound { IfOk result (λ x. AllByRecursion (IsSound pool.now) x.1.now) }
    ensures shorter { IfOk result (λ x. length x.1.now < length parts.now) }
{
    let [mark, rest @ ..] = parts else {
        unreachable!();
    };
    match *mark {
        Mark::Name { name: number } => {
            let name = text(pool, number)?;
            let (value, after) = value(alloc, pool, types, rest)?;
            Ok((NamedElement { name, value }, after))
        }
        _ => unreachable!(),
    }
}

/// So many elements of an annotation, and the parts behind them.
#[cycle(naming)]
fn pairs<'a>(
    alloc: Global,
    pool: &Pool,
    types: &Types,
    count: u16,
    parts: &'a [Mark],
) -> Result<(Items<NamedElement>, &'a [Mark]), Memory>
    requires front { (rest : List Mark) × PairsFront count parts.now rest }
    requires sound { AllByRecursion (IsSound pool.now) parts.now }
    requires types { AreTypes pool.now types.now }
    ensures read { IfOk result (λ x. ArePairs pool.now x.0 parts.now x.1.now) }
    ensures count { IfOk result (λ x. length x.0 ≡ count) }
    ensures rest { IfOk result (λ x. (rest : List Mark) → PairsFront count parts.now rest → x.1.now ≡ rest) }
    ensures sound { IfOk result (λ x. AllByRecursion (IsSound pool.now) x.1.now) }
    ensures shorter { IfOk result (λ x. length x.1.now ≤ length parts.now) }
{
    let mut found = Vec::new(alloc);
    let mut rest = parts;
    while found.len() < count as usize {
        let (element, after) = pair(alloc, pool, types, rest)?;
        found.push(element)?;
        rest = after;
    }
    Ok((Items::from_vec(found), rest))
}
