//! The instructions that a method's bytes mean.
ghost use Rattle.std.specs.Prelude.{◌≡◌, ℕ, List, Some, IfOk, slice_get};
ghost use Rattle.std.specs.List.Sorted.{IsStrictlyIncreasing};
ghost use Rattle.wv_insn.specs.declared.raw.Raw.{Raw};
ghost use Rattle.wv_insn.specs.Spelling.{IsInstruction};
ghost use Rattle.wv_code.specs.Breaks.{InsnBreaks};
ghost use Rattle.wv_code.specs.Code.{Follow, AllMean};
ghost use Rattle.wv_code.specs.Meaning.{Means};

use crate::laying::offset_at;
use crate::opcode::INVOKEINTERFACE;
use crate::operand::{class_named, interface_method, loaded, member_insn, reference, site_insn};
use crate::target::{case_landings, landing, landings};
use std::alloc::Global;
use wv_base::{Insn, Items, Memory};
use wv_insn::Raw;
use wv_pool::Pool;

/// The instruction that bytes at the offset mean, where no item of it breaks what it must meet and the
/// instructions of the method start at these offsets.
pub(crate) fn insn_of(
    alloc: Global,
    pool: &Pool,
    offsets: &[u32],
    at: u32,
    raw: &Raw,
) -> Result<Insn, Memory>
    requires ascend { IsStrictlyIncreasing offsets.now }
    requires spelled { IsInstruction raw.now }
    requires sound { (place : ℕ) → InsnBreaks pool.now offsets.now at raw.now place → ⊥ }
    ensures { IfOk result (Means pool.now offsets.now at raw.now) }
{
    match raw {
        Raw::Plain { op } => Ok(Insn::Plain { op: *op }),
        Raw::Push { op, value } => Ok(Insn::Push {
            op: *op,
            value: *value,
        }),
        Raw::Load { op, number } => Ok(Insn::Load {
            op: *op,
            value: loaded(pool, *op, *number)?,
        }),
        Raw::Local { op, slot, wide } => Ok(Insn::Local {
            op: *op,
            slot: *slot,
            wide: *wide,
        }),
        Raw::Inc { slot, by, wide } => Ok(Insn::Inc {
            slot: *slot,
            by: *by,
            wide: *wide,
        }),
        Raw::Branch { op, offset } => Ok(Insn::Branch {
            op: *op,
            to: landing(offsets, at, *offset),
        }),
        Raw::Table {
            low,
            other,
            offsets: distances,
            ..
        } => Ok(Insn::Table {
            low: *low,
            other: landing(offsets, at, *other),
            targets: landings(alloc, offsets, at, distances.as_slice())?,
        }),
        Raw::Lookup { other, cases } => Ok(Insn::Lookup {
            other: landing(offsets, at, *other),
            cases: case_landings(alloc, offsets, at, cases.as_slice())?,
        }),
        Raw::Reference { op, number } => member_insn(pool, *op, *number),
        Raw::Interface { number, .. } => {
            Ok(reference(INVOKEINTERFACE, interface_method(pool, *number)?, true))
        }
        Raw::Dynamic { number } => site_insn(pool, *number),
        Raw::Class { op, number } => Ok(Insn::Class {
            op: *op,
            class: class_named(pool, *number)?,
        }),
        Raw::NewArray { kind } => Ok(Insn::NewArray { kind: *kind }),
        Raw::MultiArray { number, dimensions } => Ok(Insn::MultiArray {
            class: class_named(pool, *number)?,
            dimensions: *dimensions,
        }),
    }
}

/// The instructions that bytes at the offsets mean.
pub(crate) fn insns_of(
    alloc: Global,
    pool: &Pool,
    offsets: &[u32],
    raws: &[Raw],
) -> Result<Items<Insn>, Memory>
    requires follow { (code : List ℕ) × (end : ℕ) × Follow code 0 raws.now offsets.now end }
    requires sound { (k : ℕ) (r : Raw) (at place : ℕ) → slice_get raws.now k ≡ Some r → slice_get offsets.now k ≡ Some at → InsnBreaks pool.now offsets.now at r place → ⊥ }
    ensures { IfOk result (AllMean pool.now offsets.now raws.now offsets.now) }
{
    let mut insns = Items::new(alloc);
    for (index, raw) in raws.iter().enumerate() {
        insns.push(insn_of(alloc, pool, offsets, offset_at(offsets, index), raw)?)?;
    }
    Ok(insns)
}
