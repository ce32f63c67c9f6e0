//! The exception ranges that bytes mean.
ghost use Rattle.std.specs.Prelude.{◌≡◌, ◌<◌, ◌⊎◌, ℕ, Some, IfOk, slice_get};
ghost use Rattle.std.specs.List.{AllByRecursion};
ghost use Rattle.std.specs.List.Sorted.{IsStrictlyIncreasing};
ghost use Rattle.wv_code.specs.declared.raw_body.RawRange.{RawRange};
ghost use Rattle.wv_code.specs.Body.{IsEnd, Catches, IsRangeOf, AreRangesOf};
ghost use Rattle.wv_code.specs.Breaks.{RangeBreaks, Starts, NamesClass};

use crate::pool_constant::class_at;
use crate::raw_body::RawRange;
use crate::target::{start_at, start_of};
use std::alloc::Global;
use wv_base::{ExceptionRange, Items, Memory, Name};
use wv_pool::Pool;

/// The index of the instruction that starts at the offset, or the number of instructions at the
/// code's end.
fn end(offsets: &[u32], len: u32, at: u16) -> u32
    requires ascend { IsStrictlyIncreasing offsets.now }
    requires within { AllByRecursion (λ o. o < len) offsets.now }
    requires ends { (Starts offsets.now at ⊎ (at ≡ len) → ⊥) → ⊥ }
    ensures { IsEnd offsets.now len result at }
{
    match start_at(offsets, u32::from(at)) {
        Some(index) => index,
        None => offsets.len() as u32,
    }
}

/// The class that a catch type names, or none for 0, which catches every class.
fn catch(pool: &Pool, number: u16) -> Result<Option<Name>, Memory>
    requires { ((number ≡ 0) ⊎ NamesClass pool.now number → ⊥) → ⊥ }
    ensures { IfOk result (Catches pool.now number) }
{
    if number == 0 {
        return Ok(None);
    }
    match class_at(pool, number)? {
        Some(name) => Ok(Some(name)),
        None => unreachable!(),
    }
}

/// The range that the bytes mean, in code of so many bytes whose instructions start at these offsets.
fn range_of(pool: &Pool, offsets: &[u32], len: u32, raw: RawRange) -> Result<ExceptionRange, Memory>
    requires ascend { IsStrictlyIncreasing offsets.now }
    requires within { AllByRecursion (λ o. o < len) offsets.now }
    requires sound { (place : ℕ) → RangeBreaks pool.now offsets.now len raw place → ⊥ }
    ensures { IfOk result (IsRangeOf pool.now offsets.now len raw) }
{
    Ok(ExceptionRange {
        start: start_of(offsets, u32::from(raw.start)),
        end: end(offsets, len, raw.end),
        handler: start_of(offsets, u32::from(raw.handler)),
        catch: catch(pool, raw.catch)?,
    })
}

/// The ranges that the bytes of an exception table mean, in code of so many bytes whose instructions
/// start at these offsets.
pub(crate) fn ranges_of(
    alloc: Global,
    pool: &Pool,
    offsets: &[u32],
    len: u32,
    raws: &[RawRange],
) -> Result<Items<ExceptionRange>, Memory>
    requires ascend { IsStrictlyIncreasing offsets.now }
    requires within { AllByRecursion (λ o. o < len) offsets.now }
    requires sound { (k : ℕ) (r : RawRange) (place : ℕ) → slice_get raws.now k ≡ Some r → RangeBreaks pool.now offsets.now len r place → ⊥ }
    ensures { IfOk result (AreRangesOf pool.now offsets.now len raws.now) }
{
    let mut ranges = Items::new(alloc);
    for raw in raws {
        ranges.push(range_of(pool, offsets, len, *raw)?)?;
    }
    Ok(ranges)
}
