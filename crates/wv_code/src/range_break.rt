//! The first item of an exception table that breaks what it must meet.
ghost use Rattle.std.specs.Prelude.{◌≡◌, ◌↔◌, ◌<◌, ◌^◌, length, IsTrue, ◌⊎◌};
ghost use Rattle.std.specs.List.Sorted.{IsStrictlyIncreasing};
ghost use Rattle.wv_code.specs.Breaks.{Starts, NamesClass, RangeBreaks};
ghost use Rattle.wv_code.specs.Least.{IsLeastOf, Behind, InItems};
ghost use Rattle.wv_code.specs.Checking.{RangeAtBreaks};

use crate::demand::{names_class, starts};
use crate::least::{lesser, unless};
use crate::raw_body::RawRange;
use wv_pool::Pool;

/// Whether an instruction starts where a range does, before the range's end.
fn is_start(offsets: &[u32], start: u16, end: u16) -> bool
    requires { IsStrictlyIncreasing offsets.now }
    ensures { IsTrue result ↔ (Starts offsets.now start × (start < end)) }
{
    start < end && starts(offsets, u32::from(start))
}

/// Whether an instruction starts where a range ends, or the code of so many bytes ends there.
fn is_end(offsets: &[u32], len: u32, end: u16) -> bool
    requires { IsStrictlyIncreasing offsets.now }
    ensures { IsTrue result ↔ (Starts offsets.now end ⊎ (end ≡ len)) }
{
    u32::from(end) == len || starts(offsets, u32::from(end))
}

/// Whether the number is 0, for every class, or names one.
fn is_catch(pool: &Pool, catch: u16) -> bool
    ensures { IsTrue result ↔ ((catch ≡ 0) ⊎ NamesClass pool.now catch) }
{
    catch == 0 || names_class(pool, catch)
}

/// The first item of a range that breaks what it must meet, where the range has place `base`.
fn range_break(
    pool: &Pool,
    offsets: &[u32],
    len: u32,
    range: RawRange,
    base: usize,
) -> Option<usize>
    requires ascend { IsStrictlyIncreasing offsets.now }
    requires low { base < 2 ^ 40 }
    ensures { IsLeastOf (Behind base (RangeBreaks pool.now offsets.now len range)) result }
{
    let start = unless(is_start(offsets, range.start, range.end), base);
    let end = unless(is_end(offsets, len, range.end), base + 2);
    let handler = unless(starts(offsets, u32::from(range.handler)), base + 4);
    let catch = unless(is_catch(pool, range.catch), base + 6);
    lesser(lesser(start, end), lesser(handler, catch))
}

/// The first item of an exception table that breaks what it must meet, in code of so many bytes whose
/// instructions start at the offsets, where the first range has place `base` (JVM Specification 4.7.3).
pub(crate) fn ranges_break(
    pool: &Pool,
    offsets: &[u32],
    len: u32,
    ranges: &[RawRange],
    base: usize,
) -> Option<usize>
    requires ascend { IsStrictlyIncreasing offsets.now }
    requires few { length ranges.now < 2 ^ 16 }
    requires low { base < 2 ^ 36 }
    ensures { IsLeastOf (InItems ranges.now (RangeAtBreaks pool.now offsets.now len base)) result }
{
    let mut first = None;
    for (index, range) in ranges.iter().enumerate() {
        first = lesser(
            first,
            range_break(pool, offsets, len, *range, base + 8 * index),
        );
    }
    first
}
