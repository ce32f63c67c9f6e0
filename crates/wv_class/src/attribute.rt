//! Reading attributes.
ghost use Rattle.wv_class.specs.Layout.{SpellsAttribute, SpellsAttributes};
ghost use Rattle.wv_class.specs.Numbers.{SpellsTimes};
ghost use Rattle.wv_class.specs.Contents.{SpellsBehindLength};
ghost use Rattle.wv_class.specs.Reading.{Reads};

use crate::attribute_length::length_at;
use crate::content::content_at;
use crate::kind::kind_at;
use crate::number::short_at;
use crate::raw_class::{Content, Kind, Place, RawAttribute};
use crate::stop::Stop;
use std::alloc::Global;
use wv_base::{Items, PoolEntry};

/// The content of an attribute of this kind behind its length, and the bytes behind it.
fn behind_length_at<'a>(
    alloc: Global,
    pool: &[PoolEntry],
    kind: Kind,
    bytes: &'a [u8],
) -> Result<(Content, &'a [u8]), Stop>
    ensures { Reads (λ x. (x.0, x.1.now)) (SpellsBehindLength pool.now kind) bytes.now result }
{
    let (len, rest) = length_at(kind, bytes)?;
    content_at(alloc, pool, kind, len, rest)
}

/// An attribute at its place, and the bytes behind it.
fn attribute_at<'a>(
    alloc: Global,
    pool: &[PoolEntry],
    place: Place,
    bytes: &'a [u8],
) -> Result<(RawAttribute, &'a [u8]), Stop>
    ensures { Reads (λ x. (x.0, x.1.now)) (SpellsAttribute pool.now place) bytes.now result }
{
    let (name, rest) = short_at(bytes)?;
    let kind = kind_at(pool, place, name);
    let (content, rest) = behind_length_at(alloc, pool, kind, rest)?;
    Ok((RawAttribute { name, content }, rest))
}

fn attributes_in<'a>(
    alloc: Global,
    pool: &[PoolEntry],
    place: Place,
    count: u16,
    bytes: &'a [u8],
) -> Result<(Items<RawAttribute>, &'a [u8]), Stop>
    ensures { Reads (λ x. (x.0, x.1.now)) (SpellsTimes (SpellsAttribute pool.now place) count) bytes.now result }
{
    let mut attributes = Items::new(alloc);
    let mut rest = bytes;
    for _ in 0..count {
        let (attribute, after) = attribute_at(alloc, pool, place, rest)?;
        attributes.push(attribute)?;
        rest = after;
    }
    Ok((attributes, rest))
}

/// The attributes of a class, a field or a method with their count, and the bytes behind them.
pub(crate) fn attributes_at<'a>(
    alloc: Global,
    pool: &[PoolEntry],
    place: Place,
    bytes: &'a [u8],
) -> Result<(Items<RawAttribute>, &'a [u8]), Stop>
    ensures { Reads (λ x. (x.0, x.1.now)) (SpellsAttributes pool.now place) bytes.now result }
{
    let (count, rest) = short_at(bytes)?;
    attributes_in(alloc, pool, place, count, rest)
}
