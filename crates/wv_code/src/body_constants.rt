//! The constants that a body names outside its code.
ghost use Rattle.std.specs.Prelude.{◌≡◌, ◌++◌, List, IfOk, OnOk, IfErr};
ghost use Rattle.std.specs.List.{flat_map, AllByRecursion};
ghost use Rattle.wv_pool.specs.declared.add.PoolFault.TheVariants as faults;
ghost use Rattle.wv_pool.specs.Adding.{Keeps};
ghost use Rattle.wv_pool.specs.Allowed.{IsAllowed};
ghost use Rattle.wv_pool.specs.Numbers.{Named};
ghost use Rattle.wv_pool.specs.References.{IsPool};
ghost use Rattle.wv_base.specs.declared.class_file.PoolEntry.{PoolEntry};
ghost use Rattle.wv_code.specs.BodyConstants.{range_constants, type_constants, frame_constants, table_names, other_constants, body_constants};
ghost use Rattle.wv_code.specs.Constants.{all_constants};
ghost use Rattle.wv_code.specs.FormedBody.{IsFormedBody};
ghost use Rattle.wv_code.specs.Entering.{Enters, MeetsFull};

use crate::constants::constant_of;
use std::alloc::Global;
use wv_base::{Body, Const, ExceptionRange, FrameAt, Insn, Items, Memory, Name, VType};
use wv_pool::{Pool, PoolFault};

fn push_insns(insns: &[Insn], out: &mut Items<Const>) -> Result<(), Memory>
    ensures { OnOk result (out.new ≡ out.old ++ all_constants insns.now) }
{
    for insn in insns {
        if let Some(constant) = constant_of(insn)? {
            out.push(constant)?;
        }
    }
    Ok(())
}

fn push_caught(ranges: &[ExceptionRange], out: &mut Items<Const>) -> Result<(), Memory>
    ensures { OnOk result (out.new ≡ out.old ++ flat_map range_constants ranges.now) }
{
    for range in ranges {
        if let Some(name) = &range.catch {
            out.push(Const::Class(name.copy()?))?;
        }
    }
    Ok(())
}

fn push_classes(kinds: &[VType], out: &mut Items<Const>) -> Result<(), Memory>
    ensures { OnOk result (out.new ≡ out.old ++ flat_map type_constants kinds.now) }
{
    for kind in kinds {
        if let VType::Class(name) = kind {
            out.push(Const::Class(name.copy()?))?;
        }
    }
    Ok(())
}

fn push_frames(frames: &[FrameAt], out: &mut Items<Const>) -> Result<(), Memory>
    ensures { OnOk result (out.new ≡ out.old ++ flat_map frame_constants frames.now) }
{
    for one in frames {
        push_classes(one.frame.locals.as_slice(), out)?;
        push_classes(one.frame.stack.as_slice(), out)?;
    }
    Ok(())
}

fn push_name(alloc: Global, frames: &[FrameAt], out: &mut Items<Const>) -> Result<(), Memory>
    ensures { OnOk result (out.new ≡ out.old ++ table_names frames.now) }
{
    if !frames.is_empty() {
        out.push(Const::Utf8(Name::from_ascii(alloc, "StackMapTable")?))?;
    }
    Ok(())
}

/// Adds the constants that ranges and frames name at the end.
fn push_others(alloc: Global, body: &Body, out: &mut Items<Const>) -> Result<(), Memory>
    ensures { OnOk result (out.new ≡ out.old ++ other_constants body.now) }
{
    push_caught(body.ranges.as_slice(), out)?;
    push_frames(body.frames.as_slice(), out)?;
    push_name(alloc, body.frames.as_slice(), out)
}

/// The constants that ranges and frames name.
fn other_constants(alloc: Global, body: &Body) -> Result<Items<Const>, Memory>
    ensures { IfOk result (λ found. found ≡ other_constants body.now) }
{
    let mut found = Items::new(alloc);
    push_others(alloc, body, &mut found)?;
    Ok(found)
}

/// Adds the constants that a body names at the end, in the order in which `layout` and `write_code`
/// put them into a pool: those of the instructions, of the ranges and of the frames. A pool may hold
/// each of them.
pub fn push_body_constants(alloc: Global, body: &Body, out: &mut Items<Const>) -> Result<(), Memory>
    requires { (pool : List PoolEntry) × IsFormedBody pool body.now }
    ensures constants { OnOk result (out.new ≡ out.old ++ body_constants body.now) }
    ensures allowed { AllByRecursion IsAllowed (body_constants body.now) }
{
    push_insns(body.insns.as_slice(), out)?;
    push_others(alloc, body, out)
}

/// Puts the constants into the pool.
fn enter_each(constants: &[Const], pool: &mut Pool) -> Result<(), PoolFault>
    requires { AllByRecursion IsAllowed constants.now }
    ensures kept { Keeps pool.old pool.new }
    ensures entered { OnOk result (Enters pool.old constants.now pool.new) }
    ensures named { OnOk result (AllByRecursion (Named pool.new) constants.now) }
    ensures full { IfErr result (λ e. e ≡ faults.Full → MeetsFull pool.old constants.now) }
{
    for constant in constants {
        pool.add(constant)?;
    }
    Ok(())
}

/// Puts the constants that ranges and frames name into the pool.
pub(crate) fn enter_others(alloc: Global, body: &Body, pool: &mut Pool) -> Result<(), PoolFault>
    requires { AllByRecursion IsAllowed (other_constants body.now) }
    ensures sound { IsPool pool.old }
    ensures kept { Keeps pool.old pool.new }
    ensures entered { OnOk result (Enters pool.old (other_constants body.now) pool.new) }
    ensures named { OnOk result (AllByRecursion (Named pool.new) (other_constants body.now)) }
    ensures full { IfErr result (λ e. e ≡ faults.Full → MeetsFull pool.old (other_constants body.now)) }
{
    // The entries as they are: each number names what its place needs.
    let _entries = pool.entries();
    let constants = other_constants(alloc, body)?;
    enter_each(constants.as_slice(), pool)
}
