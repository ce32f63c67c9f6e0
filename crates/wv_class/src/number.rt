//! Numbers of two bytes, and numbers of which not every value is allowed.
ghost use Rattle.std.specs.Prelude.{◌≡◌, ◌^◌, ◌<◌, ◌≤◌, ℕ, IfOk, length};
ghost use Rattle.wv_class.specs.Layout.{SpellsTable};
ghost use Rattle.wv_class.specs.Reading.{Reads};
ghost use Rattle.wv_class.specs.Numbers.{SpellsShort, SpellsThree, SpellsAllowed, SpellsExactly, SpellsTimes};

use crate::stop::Stop;
use std::alloc::Global;
use wv_base::Items;
use wv_room::{Allows, read_number};

/// A number of two bytes, and the bytes behind it.
pub(crate) fn short_at(bytes: &[u8]) -> Result<(u16, &[u8]), Stop>
    ensures { Reads (λ x. (x.0, x.1.now)) SpellsShort bytes.now result }
{
    if bytes.len() < 2 {
        return Err(Stop::Left(0));
    }
    let (front, rest) = bytes.split_at(2);
    Ok((u16::from_be_bytes([front[0], front[1]]), rest))
}

/// Three numbers of two bytes.
#[derive(Clone, Copy, Debug, PartialEq, Eq)]
pub(crate) struct Three {
    pub first: u16,
    pub second: u16,
    pub third: u16,
}

/// Three numbers of two bytes, and the bytes behind them.
pub(crate) fn three_at(bytes: &[u8]) -> Result<(Three, &[u8]), Stop>
    ensures { Reads (λ x. (x.0, x.1.now)) SpellsThree bytes.now result }
{
    let (first, rest) = short_at(bytes)?;
    let (second, rest) = short_at(rest)?;
    let (third, rest) = short_at(rest)?;
    let three = Three {
        first,
        second,
        third,
    };
    Ok((three, rest))
}

/// Numbers of two bytes, so many, and the bytes behind them.
pub(crate) fn shorts_in(
    alloc: Global,
    count: u16,
    bytes: &[u8],
) -> Result<(Items<u16>, &[u8]), Stop>
    ensures { Reads (λ x. (x.0, x.1.now)) (SpellsTimes SpellsShort count) bytes.now result }
{
    let mut shorts = Items::new(alloc);
    let mut rest = bytes;
    for _ in 0..count {
        let (short, after) = short_at(rest)?;
        shorts.push(short)?;
        rest = after;
    }
    Ok((shorts, rest))
}

/// Numbers of two bytes with their count, and the bytes behind them.
pub(crate) fn shorts_at(alloc: Global, bytes: &[u8]) -> Result<(Items<u16>, &[u8]), Stop>
    ensures { Reads (λ x. (x.0, x.1.now)) (SpellsTable SpellsShort) bytes.now result }
{
    let (count, rest) = short_at(bytes)?;
    shorts_in(alloc, count, rest)
}

/// The number in the first bytes, so many, and the bytes behind it. It stops at the first byte at
/// which no allowed number is left.
pub(crate) fn number_at<'a, A: Allows>(
    width: usize,
    allowed: &A,
    bytes: &'a [u8],
) -> Result<(u32, &'a [u8]), Stop>
    requires some { 0 < width }
    requires few { width ≤ 4 }
    ensures { (n : ℕ) → n < 256 ^ width → A.allows allowed.now n → Reads (λ x. (x.0, x.1.now)) (SpellsAllowed width (A.allows allowed.now)) bytes.now result }
{
    match read_number(bytes, width, allowed) {
        Ok(number) => Ok((number, &bytes[width..])),
        Err(place) => Err(Stop::Left(bytes.len() - place)),
    }
}

/// The only number that is allowed.
#[derive(Clone, Copy, Debug, PartialEq, Eq)]
struct Exactly {
    number: u32,
}

impl Allows for Exactly {
    ghost use Rattle.std.specs.Prelude.{◌≡◌};

    ghost allows = { λ e n. n ≡ e.number };

    fn allows_value(&self, value: u32) -> bool {
        value == self.number
    }

    fn allows_some(&self, least: u32, most: u32) -> bool {
        least <= self.number && self.number <= most
    }
}

/// The bytes behind this number, which the first bytes, so many, have to spell.
pub(crate) fn exactly_at(width: usize, number: u32, bytes: &[u8]) -> Result<(u32, &[u8]), Stop>
    requires some { 0 < width }
    requires few { width ≤ 4 }
    requires fits { number < 256 ^ width }
    ensures { Reads (λ x. (x.0, x.1.now)) (SpellsExactly width number) bytes.now result }
{
    number_at(width, &Exactly { number }, bytes)
}
