//! The first operand of an instruction that breaks what it must meet.
ghost use Rattle.std.specs.Prelude.{◌≡◌, ◌↔◌, ℕ, ◌+◌, ◌*◌, ◌<◌, ◌≤◌, ◌≤ℤ◌, ◌^◌, List, length, FitsSigned, IsTrue, slice_get, slice_index, Some};
ghost use Rattle.std.specs.Int.{w32};
ghost use Rattle.std.specs.List.{AllByRecursion};
ghost use Rattle.wv_base.specs.declared.class_file.PoolEntry.{PoolEntry};
ghost use Rattle.std.specs.List.Sorted.{IsStrictlyIncreasing};
ghost use Rattle.wv_insn.specs.declared.raw.Raw.TheVariants as raws;
ghost use Rattle.wv_insn.specs.Spelling.{padding, targets, IsCase, IsTyped, IsInstruction};
ghost use Rattle.wv_pool.specs.References.{IsPool};
ghost use Rattle.wv_code.specs.Breaks.{InsnBreaks};
ghost use Rattle.wv_code.specs.Least.{IsLeastOf, Broken, Behind, InItems};
ghost use Rattle.wv_code.specs.Checking.{AreStarts, IsAbove, TargetBreaks, CaseBreaks, InsnAtBreaks};

use crate::demand::{
    has_dimensions, interface_descriptor, is_count_of, lands, names_class, names_loaded,
    names_site, names_taken,
};
use crate::least::{lesser, unless};
use crate::splitting::RawCode;
use wv_insn::{Raw, RawCase};
use wv_pool::Pool;

/// The first of a switch's distances, which stand from `base` on, that leads to no instruction.
fn targets_break(offsets: &[u32], at: u32, distances: &[i32], base: usize) -> Option<usize>
    requires ascend { IsStrictlyIncreasing offsets.now }
    requires typed { AllByRecursion (FitsSigned w32) distances.now }
    requires few { length distances.now ≤ 2 ^ 32 }
    requires low { base < 2 ^ 40 }
    ensures { IsLeastOf (InItems distances.now (TargetBreaks offsets.now at base)) result }
{
    let mut first = None;
    for (k, distance) in distances.iter().enumerate() {
        first = lesser(first, unless(lands(offsets, at, *distance), base + 4 * k));
    }
    first
}

/// Whether the key of the case with the index is above the one before it.
fn is_above(cases: &[RawCase], index: usize) -> bool
    requires { index < length cases.now }
    ensures { (case : RawCase) → slice_get cases.now index ≡ Some case → IsTrue result ↔ IsAbove cases.now index case }
{
    index == 0 || cases[index - 1].key < cases[index].key
}

/// The first of a lookupswitch's keys and distances, which stand from `base` on, that isn't above the
/// key before it, or leads to no instruction.
fn cases_break(offsets: &[u32], at: u32, cases: &[RawCase], base: usize) -> Option<usize>
    requires ascend { IsStrictlyIncreasing offsets.now }
    requires typed { AllByRecursion IsCase cases.now }
    requires few { length cases.now ≤ 2 ^ 32 }
    requires low { base < 2 ^ 40 }
    ensures { IsLeastOf (InItems cases.now (CaseBreaks offsets.now at cases.now base)) result }
{
    let mut first = None;
    for (k, case) in cases.iter().enumerate() {
        let key = unless(is_above(cases, k), base + 8 * k);
        let target = unless(lands(offsets, at, case.offset), base + 8 * k + 4);
        first = lesser(first, lesser(key, target));
    }
    first
}

/// The first operand of an invokeinterface that breaks what it must meet.
fn interface_break(pool: &Pool, number: u16, count: u8, zero: u8, base: usize) -> Option<usize>
    requires pool { IsPool pool.now }
    requires low { base < 2 ^ 40 }
    ensures { (offsets : List ℕ) (at : ℕ) → IsLeastOf (Behind base (InsnBreaks pool.now offsets at (raws.Interface number count zero))) result }
{
    let last = unless(zero == 0, base + 4);
    match interface_descriptor(pool, number) {
        Some(descriptor) => lesser(unless(is_count_of(descriptor, count), base + 3), last),
        None => lesser(Some(base + 1), last),
    }
}

/// The first operand of a multianewarray that breaks what it must meet.
fn multi_array_break(pool: &Pool, number: u16, dimensions: u8, base: usize) -> Option<usize>
    requires { base < 2 ^ 40 }
    ensures { (offsets : List ℕ) (at : ℕ) → IsLeastOf (Behind base (InsnBreaks pool.now offsets at (raws.MultiArray number dimensions))) result }
{
    match pool.class_name(number) {
        Some(name) => unless(has_dimensions(name, dimensions), base + 3),
        None => Some(base + 1),
    }
}

/// Where the operands of a switch at the offset begin, counted from its opcode (JVM Specification 6.5).
fn switch_place(at: u32) -> usize
    ensures { result ≡ 1 + padding at }
{
    4 - at as usize % 4
}

fn is_ordered(low: i32, high: i32) -> bool
    ensures { IsTrue result ↔ (low ≤ℤ high) }
{
    low <= high
}

/// The first part of a tableswitch at the offset that breaks what it must meet.
fn table_break(
    offsets: &[u32],
    at: u32,
    low: i32,
    high: i32,
    other: i32,
    distances: &[i32],
    base: usize,
) -> Option<usize>
    requires ascend { IsStrictlyIncreasing offsets.now }
    requires typed { AllByRecursion (FitsSigned w32) distances.now }
    requires few { length distances.now ≡ targets low high }
    requires low { base < 2 ^ 36 }
    ensures { (pool : List PoolEntry) → IsLeastOf (Behind base (InsnBreaks pool offsets.now at (raws.Table low high other distances.now))) result }
{
    let place = base + switch_place(at);
    let elsewhere = unless(lands(offsets, at, other), place);
    let keys = unless(is_ordered(low, high), place + 4);
    let targets = targets_break(offsets, at, distances, place + 12);
    lesser(lesser(elsewhere, keys), targets)
}

/// The first part of a lookupswitch at the offset that breaks what it must meet.
fn lookup_break(
    offsets: &[u32],
    at: u32,
    other: i32,
    cases: &[RawCase],
    base: usize,
) -> Option<usize>
    requires ascend { IsStrictlyIncreasing offsets.now }
    requires typed { AllByRecursion IsCase cases.now }
    requires few { length cases.now < 2 ^ 31 }
    requires low { base < 2 ^ 36 }
    ensures { (pool : List PoolEntry) → IsLeastOf (Behind base (InsnBreaks pool offsets.now at (raws.Lookup other cases.now))) result }
{
    let place = base + switch_place(at);
    let elsewhere = unless(lands(offsets, at, other), place);
    let cases = cases_break(offsets, at, cases, place + 8);
    lesser(elsewhere, cases)
}

fn is_array_kind(kind: u8) -> bool
    ensures { IsTrue result ↔ ((4 ≤ kind) × (kind ≤ 11)) }
{
    4 <= kind && kind <= 11
}

/// The place of the first operand of an instruction that breaks what it must meet (JVM Specification
/// 4.9.1). Its opcode stands at the offset in the code; places are counted so that it has place `base`.
fn insn_break(pool: &Pool, offsets: &[u32], at: u32, insn: &Raw, base: usize) -> Option<usize>
    requires pool { IsPool pool.now }
    requires ascend { IsStrictlyIncreasing offsets.now }
    requires typed { IsTyped insn.now }
    requires instruction { IsInstruction insn.now }
    requires low { base < 2 ^ 36 }
    ensures { IsLeastOf (Behind base (InsnBreaks pool.now offsets.now at insn.now)) result }
{
    match insn {
        Raw::Load { op, number } => unless(names_loaded(pool, *op, *number), base + 1),
        Raw::Branch { offset, .. } => unless(lands(offsets, at, *offset), base + 1),
        Raw::Table {
            low,
            high,
            other,
            offsets: distances,
        } => {
            let distances = distances.as_slice();
            table_break(offsets, at, *low, *high, *other, distances, base)
        }
        Raw::Lookup { other, cases } => lookup_break(offsets, at, *other, cases.as_slice(), base),
        Raw::Reference { op, number } => unless(names_taken(pool, *op, *number), base + 1),
        Raw::Interface {
            number,
            count,
            zero,
        } => interface_break(pool, *number, *count, *zero, base),
        Raw::Dynamic { number } => unless(names_site(pool, *number), base + 1),
        Raw::Class { number, .. } => unless(names_class(pool, *number), base + 1),
        Raw::NewArray { kind } => unless(is_array_kind(*kind), base + 1),
        Raw::MultiArray { number, dimensions } => {
            multi_array_break(pool, *number, *dimensions, base)
        }
        Raw::Plain { .. } | Raw::Push { .. } | Raw::Local { .. } | Raw::Inc { .. } => None,
    }
}

/// The place of the first operand of the code's instructions that breaks what it must meet, where the
/// code begins at place 8.
pub(crate) fn insns_break(pool: &Pool, code: &RawCode) -> Option<usize>
    requires pool { IsPool pool.now }
    requires starts { (len : ℕ) × AreStarts code.now len }
    ensures { IsLeastOf (InItems code.now.raws (InsnAtBreaks pool.now code.now.offsets)) result }
{
    let offsets = code.offsets.as_slice();
    let insns = code.raws.as_slice();
    let mut first = None;
    for index in 0..insns.len() {
        let at = offsets[index];
        let base = 8 + at as usize;
        first = lesser(first, insn_break(pool, offsets, at, &insns[index], base));
    }
    first
}
