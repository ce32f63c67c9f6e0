//! Reading fields and methods.
ghost use Rattle.wv_class.specs.Layout.{SpellsMember, SpellsMembers};
ghost use Rattle.wv_class.specs.Numbers.{SpellsTimes};
ghost use Rattle.wv_class.specs.Reading.{Reads};

use crate::attribute::attributes_at;
use crate::number::{short_at, three_at};
use crate::raw_class::{Place, RawMember};
use crate::stop::Stop;
use std::alloc::Global;
use wv_base::{Items, PoolEntry};

/// A field or a method, and the bytes behind it.
fn member_at<'a>(
    alloc: Global,
    pool: &[PoolEntry],
    place: Place,
    bytes: &'a [u8],
) -> Result<(RawMember, &'a [u8]), Stop>
    ensures { Reads (λ x. (x.0, x.1.now)) (SpellsMember pool.now place) bytes.now result }
{
    let (head, rest) = three_at(bytes)?;
    let (attributes, rest) = attributes_at(alloc, pool, place, rest)?;
    let member = RawMember {
        flags: head.first,
        name: head.second,
        descriptor: head.third,
        attributes,
    };
    Ok((member, rest))
}

fn members_in<'a>(
    alloc: Global,
    pool: &[PoolEntry],
    place: Place,
    count: u16,
    bytes: &'a [u8],
) -> Result<(Items<RawMember>, &'a [u8]), Stop>
    ensures { Reads (λ x. (x.0, x.1.now)) (SpellsTimes (SpellsMember pool.now place) count) bytes.now result }
{
    let mut members = Items::new(alloc);
    let mut rest = bytes;
    for _ in 0..count {
        let (member, after) = member_at(alloc, pool, place, rest)?;
        members.push(member)?;
        rest = after;
    }
    Ok((members, rest))
}

/// The fields or the methods of a class with their count, and the bytes behind them.
pub(crate) fn members_at<'a>(
    alloc: Global,
    pool: &[PoolEntry],
    place: Place,
    bytes: &'a [u8],
) -> Result<(Items<RawMember>, &'a [u8]), Stop>
    ensures { Reads (λ x. (x.0, x.1.now)) (SpellsMembers pool.now place) bytes.now result }
{
    let (count, rest) = short_at(bytes)?;
    members_in(alloc, pool, place, count, rest)
}
