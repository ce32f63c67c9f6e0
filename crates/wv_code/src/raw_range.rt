//! Ranges with offsets and numbers.
ghost use Rattle.std.specs.Prelude.{◌≡◌, ◌++◌, ◌≤◌, ◌<◌, ◌^◌, length, IfOk, OnOk};
ghost use Rattle.std.specs.List.{flat_map, AllByRecursion};
ghost use Rattle.wv_pool.specs.Numbers.{Named};
ghost use Rattle.wv_pool.specs.Entries.{number_bytes};
ghost use Rattle.wv_code.specs.Content.{IsRange, range_bytes};
ghost use Rattle.wv_code.specs.Body.{IsAt, IsEnd, Catches, IsRangeOf, AreRangesOf};
ghost use Rattle.wv_code.specs.FormedBody.{IsFormedRange};
ghost use Rattle.wv_code.specs.BodyConstants.{caught_class, range_constants};

use crate::code_layout::CodeLayout;
use crate::laying::offset_at;
use crate::raw_body::RawRange;
use crate::writing::number_of;
use std::alloc::Global;
use wv_base::{Bytes, Const, ExceptionRange, Items, Memory, Name};
use wv_pool::Pool;

/// The number of the class that is caught, or 0 for every class.
fn catch_number(catch: &Option<Name>, pool: &Pool) -> Result<u16, Memory>
    requires { AllByRecursion (Named pool.now) (caught_class catch.now) }
    ensures { IfOk result (λ number. Catches pool.now number catch.now) }
{
    match catch {
        Some(name) => Ok(number_of(pool, &Const::Class(name.copy()?))),
        None => Ok(0),
    }
}

/// Where an instruction starts, or the code ends.
fn end_at(layout: &CodeLayout, index: u32) -> u32
    requires { index ≤ length layout.now.offsets }
    ensures { IsEnd layout.now.offsets layout.now.len index result }
{
    match layout.offsets.get(index as usize) {
        Some(at) => *at,
        None => layout.len,
    }
}

/// Where an instruction starts.
fn start_at(layout: &CodeLayout, index: u32) -> u32
    requires { index < length layout.now.offsets }
    ensures { IsAt layout.now.offsets index result }
{
    offset_at(layout.offsets.as_slice(), index as usize)
}

fn raw_range(range: &ExceptionRange, layout: &CodeLayout, pool: &Pool) -> Result<RawRange, Memory>
    requires formed { IsFormedRange (length layout.now.offsets) range.now }
    requires few { AllByRecursion (λ o. o ≤ 65535) layout.now.offsets }
    requires small { layout.now.len ≤ 65535 }
    requires named { AllByRecursion (Named pool.now) (range_constants range.now) }
    ensures of { IfOk result (λ raw. IsRangeOf pool.now layout.now.offsets layout.now.len raw range.now) }
    ensures fits { IfOk result IsRange }
{
    Ok(RawRange {
        start: start_at(layout, range.start) as u16,
        end: end_at(layout, range.end) as u16,
        handler: start_at(layout, range.handler) as u16,
        catch: catch_number(&range.catch, pool)?,
    })
}

/// The ranges with offsets, and with numbers of the pool, which has the classes that they catch.
pub(crate) fn raw_ranges(
    alloc: Global,
    ranges: &[ExceptionRange],
    layout: &CodeLayout,
    pool: &Pool,
) -> Result<Items<RawRange>, Memory>
    requires formed { AllByRecursion (IsFormedRange (length layout.now.offsets)) ranges.now }
    requires few { AllByRecursion (λ o. o ≤ 65535) layout.now.offsets }
    requires small { layout.now.len ≤ 65535 }
    requires named { AllByRecursion (Named pool.now) (flat_map range_constants ranges.now) }
    ensures of { IfOk result (λ raws. AreRangesOf pool.now layout.now.offsets layout.now.len raws ranges.now) }
    ensures fit { IfOk result (AllByRecursion IsRange) }
{
    let mut raws = Items::new(alloc);
    for range in ranges {
        raws.push(raw_range(range, layout, pool)?)?;
    }
    Ok(raws)
}
