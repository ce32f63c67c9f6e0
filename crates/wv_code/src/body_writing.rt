//! Writing the content of a Code attribute.
ghost use Rattle.std.specs.Prelude.{◌≡◌, ℕ, List, length, Some, IfOk, OnOk, IfErr};
ghost use Rattle.std.specs.List.{AllByRecursion};
ghost use Rattle.wv_base.specs.declared.class_file.PoolEntry.{PoolEntry};
ghost use Rattle.wv_base.specs.declared.constant.Const.{Const};
ghost use Rattle.wv_base.specs.declared.frame.Frame.{Frame};
ghost use Rattle.wv_pool.specs.declared.add.PoolFault.TheVariants as faults;
ghost use Rattle.wv_pool.specs.Adding.{Keeps};
ghost use Rattle.wv_pool.specs.Constants.{constant_of};
ghost use Rattle.wv_pool.specs.Numbers.{Named};
ghost use Rattle.wv_code.specs.Entering.{short_constants, Enters, MeetsFull};
ghost use Rattle.wv_code.specs.Laying.{IsLayout};
ghost use Rattle.wv_code.specs.Writing.{WritesCode};
ghost use Rattle.wv_code.specs.FormedBody.{IsFormedBody};
ghost use Rattle.wv_code.specs.BodyConstants.{other_constants, body_constants};
ghost use Rattle.wv_code.specs.WritingBody.{WritesBody};

use crate::body_constants::enter_others;
use crate::code_layout::CodeLayout;
use crate::content_writing::body_to_bytes;
use crate::offset_frame::tables;
use crate::raw_range::raw_ranges;
use crate::writing::write_insns;
use std::alloc::Global;
use wv_base::{Body, Bytes};
use wv_pool::{Pool, PoolFault};

/// The content of a Code attribute that means the body and has this code, with the numbers of the pool, which has what
/// ranges and frames name.
fn content(
    alloc: Global,
    body: &Body,
    layout: &CodeLayout,
    code: &Bytes,
    pool: &mut Pool,
) -> Result<Bytes, PoolFault>
    requires formed { (older : List PoolEntry) × IsFormedBody older body.now × Keeps older pool.old }
    requires laid { IsLayout pool.old body.now.insns layout.now }
    requires code { WritesCode pool.old body.now.insns layout.now.offsets code.now }
    requires len { length code.now ≡ layout.now.len }
    requires named { AllByRecursion (Named pool.old) (other_constants body.now) }
    ensures read_again { (first : Frame) → IfOk result (WritesBody pool.new first body.now) }
    ensures same { OnOk result (pool.new ≡ pool.old) }
    ensures kept { Keeps pool.old pool.new }
    ensures not_full { IfErr result (λ e. e ≡ faults.Full → ⊥) }
{
    // The entries as they are: their numbers have 16 bits.
    let _entries = pool.entries();
    let ranges = raw_ranges(alloc, body.ranges.as_slice(), layout, pool)?;
    let tables = tables(alloc, body, layout, pool)?;
    let (ranges, tables) = (ranges.as_slice(), tables.as_slice());
    Ok(body_to_bytes(alloc, body, code, ranges, tables)?)
}

/// The content of a Code attribute that means the body (JVM Specification 4.7.3 and 4.7.4), at the offsets of the layout,
/// which was made of it with this pool: ldc_w stands in place of each ldc whose constant has no number of one byte, each
/// frame is a full one, and the attributes that were kept come before the StackMapTable, with the numbers that they had.
/// The constants that the body names are put into the pool, in which older numbers name what they named; after an error
/// those before it may be there. A StackMapTable of 2^32 bytes or more has no room in an attribute: that is answered as
/// want of memory.
pub fn write_code(
    alloc: Global,
    body: &Body,
    layout: &CodeLayout,
    pool: &mut Pool,
) -> Result<Bytes, PoolFault>
    // What it calls for can be asked with `is_formed`, and `layout` gives the rest.
    requires formed { IsFormedBody pool.old body.now }
    requires laid { IsLayout pool.old body.now.insns layout.now }
    requires named { AllByRecursion (Named pool.old) (short_constants body.now.insns) }
    ensures read_again { (first : Frame) → IfOk result (WritesBody pool.new first body.now) }
    ensures older { (n : ℕ) (c : Const) → constant_of pool.old n ≡ Some c → constant_of pool.new n ≡ Some c }
    ensures kept { Keeps pool.old pool.new }
    ensures entered { OnOk result (Enters pool.old (body_constants body.now) pool.new) }
    // Those that have no number yet would make the pool's count pass 65,535.
    ensures full { IfErr result (λ e. e ≡ faults.Full → MeetsFull pool.old (body_constants body.now)) }
{
    // The entries as they were: each number names what its place needs.
    let _entries = pool.entries();
    let code = write_insns(alloc, body.insns.as_slice(), layout, pool)?;
    enter_others(alloc, body, pool)?;
    Ok(content(alloc, body, layout, &code, pool)?)
}
