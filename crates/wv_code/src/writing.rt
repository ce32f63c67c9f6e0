//! Writing code.
ghost use Rattle.std.specs.Prelude.{◌≡◌, Some, pos, ◌-ℤ◌, slice_index, ◌<◌, ◌≤◌, ◌+◌, ◌^◌, ℕ, List, ◌∷◌, [], ◌⊎◌, length, FitsSigned, IfOk, IfErr, OnOk};
ghost use Rattle.std.specs.Int.{w16, w32};
ghost use Rattle.std.specs.List.{AllByRecursion};
ghost use Rattle.wv_base.specs.declared.constant.Const.{Const};
ghost use Rattle.wv_base.specs.declared.class_file.PoolEntry.{PoolEntry};
ghost use Rattle.wv_pool.specs.declared.add.PoolFault.TheVariants as faults;
ghost use Rattle.wv_pool.specs.Adding.{needs, AreTooMany, Keeps};
ghost use Rattle.wv_pool.specs.Constants.{constant_of};
ghost use Rattle.wv_pool.specs.Numbers.{IsLeast, Named};
ghost use Rattle.wv_pool.specs.Allowed.{IsAllowed};
ghost use Rattle.wv_insn.specs.Spelling.{IsInstruction};
ghost use Rattle.wv_insn.specs.declared.raw.Raw.TheVariants as raws;
ghost use Rattle.wv_base.specs.declared.insn.Insn.TheVariants as insns;
ghost use Rattle.wv_code.specs.Constants.{constants_in, all_constants};
ghost use Rattle.wv_code.specs.Formed.{loaded_words, LoadsWords, TakesMember, last_key, IsShaped, IsFormed, AreFormed};
ghost use Rattle.wv_code.specs.Entering.{short_constants, Puts, Enters, MeetsFull};
ghost use Rattle.wv_code.specs.Laying.{Reaches, IsLayout};
ghost use Rattle.wv_code.specs.Meaning.{Means, Leads, AllLead, AllCasesLead};
ghost use Rattle.wv_code.specs.Writing.{load_opcode, IsMember, IsWritten, WritesCode};

use crate::code_layout::CodeLayout;
use crate::constants::constant_of;
use crate::laying::offset_at;
use crate::opcode::{GOTO_W, INVOKEINTERFACE, LDC, LDC_W};
use std::alloc::Global;
use wv_base::{Bytes, Case, Const, Insn, Items, Memory, Name, parameter_words};
use wv_insn::{Offsets, Raw, RawCase, RawCases, encode};
use wv_pool::{Pool, PoolFault};

/// Adds a constant to the pool.
fn add(constant: Const, pool: &mut Pool) -> Result<(), PoolFault>
    requires { IsAllowed constant }
    ensures older { (n : ℕ) (c : Const) → constant_of pool.old n ≡ Some c → constant_of pool.new n ≡ Some c }
    ensures kept { Keeps pool.old pool.new }
    ensures puts { OnOk result (Puts pool.old constant pool.new) }
    ensures named { OnOk result (Named pool.new constant) }
    ensures full { IfErr result (λ e. e ≡ faults.Full → AreTooMany pool.old (needs constant)) }
{
    match pool.add(&constant) {
        Ok(_) => Ok(()),
        Err(fault) => Err(fault),
    }
}

/// Puts the constant that the instruction names, if it names one, into the pool.
fn enter(insn: &Insn, pool: &mut Pool) -> Result<(), PoolFault>
    requires { AllByRecursion IsAllowed (constants_in insn.now) }
    ensures older { (n : ℕ) (c : Const) → constant_of pool.old n ≡ Some c → constant_of pool.new n ≡ Some c }
    ensures kept { Keeps pool.old pool.new }
    ensures puts { OnOk result (((constants_in insn.now ≡ []) × (pool.new ≡ pool.old)) ⊎ ((c : Const) × (constants_in insn.now ≡ c ∷ []) × Puts pool.old c pool.new × Named pool.new c)) }
    ensures full { IfErr result (λ e. e ≡ faults.Full → (c : Const) × (constants_in insn.now ≡ c ∷ []) × AreTooMany pool.old (needs c)) }
{
    match constant_of(insn)? {
        Some(constant) => add(constant, pool),
        None => Ok(()),
    }
}

/// Puts the constants that the instructions name into the pool.
pub(crate) fn enter_all(insns: &[Insn], pool: &mut Pool) -> Result<(), PoolFault>
    requires { (count : ℕ) × AllByRecursion (IsFormed count) insns.now }
    ensures older { (n : ℕ) (c : Const) → constant_of pool.old n ≡ Some c → constant_of pool.new n ≡ Some c }
    ensures kept { Keeps pool.old pool.new }
    ensures entered { OnOk result (Enters pool.old (all_constants insns.now) pool.new) }
    ensures named { OnOk result (AllByRecursion (Named pool.new) (all_constants insns.now)) }
    ensures full { IfErr result (λ e. e ≡ faults.Full → MeetsFull pool.old (all_constants insns.now)) }
{
    for insn in insns {
        enter(insn, pool)?;
    }
    Ok(())
}

/// The least number of a constant that the pool names.
pub(crate) fn number_of(pool: &Pool, constant: &Const) -> u16
    requires { Named pool.now constant.now }
    ensures { IsLeast pool.now constant.now result }
{
    match pool.number_of(constant) {
        Some(number) => number,
        None => unreachable!(),
    }
}

/// The least number of the constant that the instruction names; 0 where it names none.
fn number_in(insn: &Insn, pool: &Pool) -> Result<u16, Memory>
    requires { AllByRecursion (Named pool.now) (constants_in insn.now) }
    ensures { IfOk result (λ number. AllByRecursion (λ c. IsLeast pool.now c number) (constants_in insn.now)) }
{
    Ok(match constant_of(insn)? {
        Some(constant) => number_of(pool, &constant),
        None => 0,
    })
}

/// The distance from the offset to the instruction with the index.
#[tactic(auto, using(crate::proofs::Lists::small_at))]
fn distance(at: u32, to: u32, offsets: &[u32]) -> i32
    requires here { at ≤ 65535 }
    requires few { AllByRecursion (λ o. o ≤ 65535) offsets.now }
    requires there { to < length offsets.now }
    ensures leads { Leads offsets.now at result to }
    ensures is { result ≡ pos (slice_index offsets.now to) -ℤ pos at }
{
    offset_at(offsets, to as usize) as i32 - at as i32
}

fn distances(alloc: Global, at: u32, targets: &[u32], offsets: &[u32]) -> Result<Offsets, Memory>
    requires here { at ≤ 65535 }
    requires few { AllByRecursion (λ o. o ≤ 65535) offsets.now }
    requires there { AllByRecursion (λ to. to < length offsets.now) targets.now }
    ensures { IfOk result (λ found. AllLead offsets.now at found targets.now) }
{
    let mut found = Items::new(alloc);
    for to in targets {
        found.push(distance(at, *to, offsets))?;
    }
    Ok(found)
}

fn raw_case(at: u32, case: Case, offsets: &[u32]) -> RawCase
    requires here { at ≤ 65535 }
    requires few { AllByRecursion (λ o. o ≤ 65535) offsets.now }
    requires there { case.to < length offsets.now }
    ensures key { result.key ≡ case.key }
    ensures leads { Leads offsets.now at result.offset case.to }
{
    RawCase {
        key: case.key,
        offset: distance(at, case.to, offsets),
    }
}

fn raw_cases(alloc: Global, at: u32, cases: &[Case], offsets: &[u32]) -> Result<RawCases, Memory>
    requires here { at ≤ 65535 }
    requires few { AllByRecursion (λ o. o ≤ 65535) offsets.now }
    requires there { AllByRecursion (λ c. c.to < length offsets.now) cases.now }
    ensures { IfOk result (λ found. AllCasesLead offsets.now at found cases.now) }
{
    let mut found = Items::new(alloc);
    for case in cases {
        found.push(raw_case(at, *case, offsets))?;
    }
    Ok(found)
}

/// The opcode with which a constant with the number is loaded.
fn load_opcode(op: u8, number: u16) -> u8
    ensures { result ≡ load_opcode op number }
{
    if op == LDC && number > 255 { LDC_W } else { op }
}

/// The last of so many keys.
#[tactic(auto, using(crate::proofs::Stands::targets_few))]
fn last_key(low: i32, count: usize) -> i32
    requires low { FitsSigned w32 low }
    requires high { FitsSigned w32 (last_key low count) }
    ensures { result ≡ last_key low count }
{
    (i64::from(low) + count as i64 - 1) as i32
}

/// The raw instruction of a load.
#[tactic(auto, using(crate::proofs::Forms::load_form))]
fn load(op: u8, number: u16, value: &Const) -> Raw
    requires { LoadsWords op (loaded_words value.now) }
    ensures is { result ≡ raws.Load (load_opcode op number) number }
    ensures encodable { IsInstruction result }
{
    Raw::Load {
        op: load_opcode(op, number),
        number,
    }
}

/// The raw instruction that takes a member.
#[tactic(auto, using(crate::proofs::Forms::takes_form))]
fn reference(op: u8, number: u16, descriptor: &Name, interface: bool) -> Raw
    requires { TakesMember op descriptor.now interface }
    ensures is { IsMember op number descriptor.now result }
    ensures encodable { IsInstruction result }
{
    if op != INVOKEINTERFACE {
        return Raw::Reference { op, number };
    }
    match parameter_words(descriptor) {
        Some(words) => Raw::Interface {
            number,
            count: (words + 1) as u8,
            zero: 0,
        },
        None => unreachable!(),
    }
}

/// The raw instruction of a jump.
#[tactic(auto, using(crate::proofs::Forms::branch_form))]
fn branch(op: u8, to: u32, at: u32, offsets: &[u32]) -> Raw
    requires here { at ≤ 65535 }
    requires few { AllByRecursion (λ o. o ≤ 65535) offsets.now }
    requires there { to < length offsets.now }
    requires jump { IsInstruction (raws.Branch op (pos 0)) }
    requires reaches { (op ≡ GOTO_W) ⊎ FitsSigned w16 (pos (slice_index offsets.now to) -ℤ pos at) }
    ensures means { (pool : List PoolEntry) → Means pool offsets.now at result (insns.Branch op to) }
    ensures encodable { IsInstruction result }
{
    let offset = distance(at, to, offsets);
    Raw::Branch { op, offset }
}

fn table(
    alloc: Global,
    low: i32,
    other: u32,
    targets: &[u32],
    at: u32,
    offsets: &[u32],
) -> Result<Raw, Memory>
    requires here { at ≤ 65535 }
    requires few { AllByRecursion (λ o. o ≤ 65535) offsets.now }
    requires other { other < length offsets.now }
    requires there { AllByRecursion (λ to. to < length offsets.now) targets.now }
    requires some { 1 ≤ length targets.now }
    requires low { FitsSigned w32 low }
    requires high { FitsSigned w32 (last_key low (length targets.now)) }
    ensures means { (pool : List PoolEntry) → IfOk result (λ r. Means pool offsets.now at r (insns.Table low other targets.now)) }
    ensures encodable { IfOk result IsInstruction }
{
    let offsets_of_keys = distances(alloc, at, targets, offsets)?;
    Ok(Raw::Table {
        low,
        high: last_key(low, targets.len()),
        other: distance(at, other, offsets),
        offsets: offsets_of_keys,
    })
}

fn lookup(
    alloc: Global,
    other: u32,
    cases: &[Case],
    at: u32,
    offsets: &[u32],
) -> Result<Raw, Memory>
    requires here { at ≤ 65535 }
    requires few { AllByRecursion (λ o. o ≤ 65535) offsets.now }
    requires other { other < length offsets.now }
    requires there { AllByRecursion (λ c. c.to < length offsets.now) cases.now }
    requires fits { length cases.now < 2 ^ 31 }
    ensures means { (pool : List PoolEntry) → IfOk result (λ r. Means pool offsets.now at r (insns.Lookup other cases.now)) }
    ensures encodable { IfOk result IsInstruction }
{
    let cases = raw_cases(alloc, at, cases, offsets)?;
    let other = distance(at, other, offsets);
    Ok(Raw::Lookup { other, cases })
}

/// The instruction as it is written at the offset, where the others stand at these offsets.
fn raw_of(alloc: Global, insn: &Insn, at: u32, offsets: &[u32], pool: &Pool) -> Result<Raw, Memory>
    requires here { at ≤ 65535 }
    requires few { AllByRecursion (λ o. o ≤ 65535) offsets.now }
    requires shaped { IsShaped (length offsets.now) insn.now }
    requires reaches { Reaches offsets.now at insn.now }
    requires named { AllByRecursion (Named pool.now) (constants_in insn.now) }
    ensures written { IfOk result (λ r. IsWritten pool.now offsets.now at r insn.now) }
    ensures encodable { IfOk result IsInstruction }
{
    let number = number_in(insn, pool)?;
    Ok(match insn {
        Insn::Plain { op } => Raw::Plain { op: *op },
        Insn::Push { op, value } => Raw::Push {
            op: *op,
            value: *value,
        },
        Insn::Load { op, value } => load(*op, number, value),
        Insn::Local { op, slot, wide } => Raw::Local {
            op: *op,
            slot: *slot,
            wide: *wide,
        },
        Insn::Inc { slot, by, wide } => Raw::Inc {
            slot: *slot,
            by: *by,
            wide: *wide,
        },
        Insn::Branch { op, to } => branch(*op, *to, at, offsets),
        Insn::Table {
            low,
            other,
            targets,
        } => table(alloc, *low, *other, targets.as_slice(), at, offsets)?,
        Insn::Lookup { other, cases } => lookup(alloc, *other, cases.as_slice(), at, offsets)?,
        Insn::Reference {
            op,
            descriptor,
            interface,
            ..
        } => reference(*op, number, descriptor, *interface),
        Insn::Site { .. } => Raw::Dynamic { number },
        Insn::Class { op, .. } => Raw::Class { op: *op, number },
        Insn::NewArray { kind } => Raw::NewArray { kind: *kind },
        Insn::MultiArray { dimensions, .. } => Raw::MultiArray {
            number,
            dimensions: *dimensions,
        },
    })
}

/// The code of the instructions, whose constants the pool names.
fn encode_all(
    alloc: Global,
    insns: &[Insn],
    layout: &CodeLayout,
    pool: &Pool,
) -> Result<Bytes, Memory>
    requires formed { AreFormed insns.now }
    requires named { AllByRecursion (Named pool.now) (all_constants insns.now) }
    requires laid { IsLayout pool.now insns.now layout.now }
    ensures code { IfOk result (WritesCode pool.now insns.now layout.now.offsets) }
    ensures len { IfOk result (λ code. length code ≡ layout.now.len) }
{
    let offsets = layout.offsets.as_slice();
    let mut code = Bytes::new(alloc);
    for (index, insn) in insns.iter().enumerate() {
        let at = offset_at(offsets, index);
        let raw = raw_of(alloc, insn, at, offsets, pool)?;
        encode(&raw, at as usize, &mut code)?;
    }
    Ok(code)
}

/// The code array of a method (JVM Specification 4.7.3): the instructions, one behind the other at the
/// offsets of the layout, which was made of them with this pool. The constants that they name are put into
/// the pool, in which older numbers name what they named; after an error those before it may be there.
pub fn write_insns(
    alloc: Global,
    insns: &[Insn],
    layout: &CodeLayout,
    pool: &mut Pool,
) -> Result<Bytes, PoolFault>
    // What it calls for can be asked with `are_formed`, and `layout` gives the rest.
    requires formed { AreFormed insns.now }
    requires laid { IsLayout pool.old insns.now layout.now }
    requires named { AllByRecursion (Named pool.old) (short_constants insns.now) }
    ensures code { IfOk result (WritesCode pool.new insns.now layout.now.offsets) }
    ensures len { IfOk result (λ code. length code ≡ layout.now.len) }
    ensures older { (n : ℕ) (c : Const) → constant_of pool.old n ≡ Some c → constant_of pool.new n ≡ Some c }
    ensures kept { Keeps pool.old pool.new }
    ensures entered { OnOk result (Enters pool.old (all_constants insns.now) pool.new) }
    // Those that have no number yet would make the pool's count pass 65,535.
    ensures full { IfErr result (λ e. e ≡ faults.Full → MeetsFull pool.old (all_constants insns.now)) }
{
    // The entries as they were: each number names what its place needs.
    let _entries = pool.entries();
    enter_all(insns, pool)?;
    Ok(encode_all(alloc, insns, layout, pool)?)
}
