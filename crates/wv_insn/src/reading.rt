//! Reading one instruction.
ghost use Rattle.std.specs.Prelude.{◌≡◌, ℕ, IfOk, IfErr};
ghost use Rattle.std.specs.Int.{w32};
ghost use Rattle.wv_insn.specs.Spelling.{targets};
ghost use Rattle.wv_insn.specs.declared.raw.Raw.{Raw};
ghost use Rattle.wv_insn.specs.Standing.{Stands, IsCause, IsUnlessMemory};
ghost use Rattle.wv_insn.specs.Reading.{Gives, times, signed_at, case_at, opcode_at, push_byte_at, push_short_at, constant_at, wide_constant_at, local_at, increment_at, branch_at, wide_branch_at, table_at, lookup_at, reference_at, interface_at, dynamic_at, class_at, array_at, multi_array_at, wide_at, operands_at, instruction_at};

use crate::fault::{InsnFault, Stop};
use crate::number::{bytes_at, count_at, i8_at, i16_at, i32_at, u8_at, u16_at, zero_at};
use crate::opcode::form_of;
use crate::raw::{Offsets, Raw, RawCase, RawCases};
use crate::switch::{padding, targets};
use std::alloc::Global;
use wv_base::{Form, Items};

#[tactic(auto, unfolding(crate::specs::Reading::opcode_at))]
fn opcode_at(bytes: &[u8]) -> Result<((u8, Form), &[u8]), Stop>
    ensures { Gives (λ x. (x.0, x.1.now)) result (opcode_at bytes.now) }
{
    let (op, rest) = u8_at(bytes)?;
    match form_of(op) {
        Some(form) => Ok(((op, form), rest)),
        None => Err(Stop::At(bytes.len())),
    }
}

#[tactic(auto, unfolding(crate::specs::Reading::push_byte_at))]
fn push_byte(op: u8, bytes: &[u8]) -> Result<(Raw, &[u8]), Stop>
    ensures { Gives (λ x. (x.0, x.1.now)) result (push_byte_at op bytes.now) }
{
    let (value, rest) = i8_at(bytes)?;
    let value = i16::from(value);
    Ok((Raw::Push { op, value }, rest))
}

#[tactic(auto, unfolding(crate::specs::Reading::push_short_at))]
fn push_short(op: u8, bytes: &[u8]) -> Result<(Raw, &[u8]), Stop>
    ensures { Gives (λ x. (x.0, x.1.now)) result (push_short_at op bytes.now) }
{
    let (value, rest) = i16_at(bytes)?;
    Ok((Raw::Push { op, value }, rest))
}

#[tactic(auto, unfolding(crate::specs::Reading::constant_at))]
fn constant(op: u8, bytes: &[u8]) -> Result<(Raw, &[u8]), Stop>
    ensures { Gives (λ x. (x.0, x.1.now)) result (constant_at op bytes.now) }
{
    let (number, rest) = u8_at(bytes)?;
    let number = u16::from(number);
    Ok((Raw::Load { op, number }, rest))
}

#[tactic(auto, unfolding(crate::specs::Reading::wide_constant_at))]
fn wide_constant(op: u8, bytes: &[u8]) -> Result<(Raw, &[u8]), Stop>
    ensures { Gives (λ x. (x.0, x.1.now)) result (wide_constant_at op bytes.now) }
{
    let (number, rest) = u16_at(bytes)?;
    Ok((Raw::Load { op, number }, rest))
}

#[tactic(auto, unfolding(crate::specs::Reading::local_at))]
fn local(op: u8, bytes: &[u8]) -> Result<(Raw, &[u8]), Stop>
    ensures { Gives (λ x. (x.0, x.1.now)) result (local_at op bytes.now) }
{
    let (slot, rest) = u8_at(bytes)?;
    let slot = u16::from(slot);
    let wide = false;
    Ok((Raw::Local { op, slot, wide }, rest))
}

#[tactic(auto, unfolding(crate::specs::Reading::increment_at))]
fn increment(bytes: &[u8]) -> Result<(Raw, &[u8]), Stop>
    ensures { Gives (λ x. (x.0, x.1.now)) result (increment_at bytes.now) }
{
    let (slot, rest) = u8_at(bytes)?;
    let (by, rest) = i8_at(rest)?;
    let (slot, by) = (u16::from(slot), i16::from(by));
    let wide = false;
    Ok((Raw::Inc { slot, by, wide }, rest))
}

#[tactic(auto, unfolding(crate::specs::Reading::branch_at))]
fn branch(op: u8, bytes: &[u8]) -> Result<(Raw, &[u8]), Stop>
    ensures { Gives (λ x. (x.0, x.1.now)) result (branch_at op bytes.now) }
{
    let (offset, rest) = i16_at(bytes)?;
    let offset = i32::from(offset);
    Ok((Raw::Branch { op, offset }, rest))
}

#[tactic(auto, unfolding(crate::specs::Reading::wide_branch_at))]
fn wide_branch(op: u8, bytes: &[u8]) -> Result<(Raw, &[u8]), Stop>
    ensures { Gives (λ x. (x.0, x.1.now)) result (wide_branch_at op bytes.now) }
{
    let (offset, rest) = i32_at(bytes)?;
    Ok((Raw::Branch { op, offset }, rest))
}

#[tactic(auto, unfolding(crate::specs::Reading::reference_at))]
fn reference(op: u8, bytes: &[u8]) -> Result<(Raw, &[u8]), Stop>
    ensures { Gives (λ x. (x.0, x.1.now)) result (reference_at op bytes.now) }
{
    let (number, rest) = u16_at(bytes)?;
    Ok((Raw::Reference { op, number }, rest))
}

#[tactic(auto, unfolding(crate::specs::Reading::class_at))]
fn class(op: u8, bytes: &[u8]) -> Result<(Raw, &[u8]), Stop>
    ensures { Gives (λ x. (x.0, x.1.now)) result (class_at op bytes.now) }
{
    let (number, rest) = u16_at(bytes)?;
    Ok((Raw::Class { op, number }, rest))
}

#[tactic(auto, unfolding(crate::specs::Reading::interface_at))]
fn interface(bytes: &[u8]) -> Result<(Raw, &[u8]), Stop>
    ensures { Gives (λ x. (x.0, x.1.now)) result (interface_at bytes.now) }
{
    let (number, rest) = u16_at(bytes)?;
    let (count, rest) = u8_at(rest)?;
    let (zero, rest) = u8_at(rest)?;
    let raw = Raw::Interface {
        number,
        count,
        zero,
    };
    Ok((raw, rest))
}

#[tactic(auto, unfolding(crate::specs::Reading::dynamic_at))]
fn dynamic(bytes: &[u8]) -> Result<(Raw, &[u8]), Stop>
    ensures { Gives (λ x. (x.0, x.1.now)) result (dynamic_at bytes.now) }
{
    let (number, rest) = u16_at(bytes)?;
    let (_zero, rest) = zero_at(rest)?;
    let (_zero, rest) = zero_at(rest)?;
    Ok((Raw::Dynamic { number }, rest))
}

#[tactic(auto, unfolding(crate::specs::Reading::array_at))]
fn array(bytes: &[u8]) -> Result<(Raw, &[u8]), Stop>
    ensures { Gives (λ x. (x.0, x.1.now)) result (array_at bytes.now) }
{
    let (kind, rest) = u8_at(bytes)?;
    Ok((Raw::NewArray { kind }, rest))
}

#[tactic(auto, unfolding(crate::specs::Reading::multi_array_at))]
fn multi_array(bytes: &[u8]) -> Result<(Raw, &[u8]), Stop>
    ensures { Gives (λ x. (x.0, x.1.now)) result (multi_array_at bytes.now) }
{
    let (number, rest) = u16_at(bytes)?;
    let (dimensions, rest) = u8_at(rest)?;
    Ok((Raw::MultiArray { number, dimensions }, rest))
}

#[tactic(auto, unfolding(crate::specs::Reading::wide_at))]
fn wide(bytes: &[u8]) -> Result<(Raw, &[u8]), Stop>
    ensures { Gives (λ x. (x.0, x.1.now)) result (wide_at bytes.now) }
{
    let (op, rest) = u8_at(bytes)?;
    match form_of(op) {
        Some(Form::Local) => {
            let (slot, rest) = u16_at(rest)?;
            let wide = true;
            Ok((Raw::Local { op, slot, wide }, rest))
        }
        Some(Form::Increment) => {
            let (slot, rest) = u16_at(rest)?;
            let (by, rest) = i16_at(rest)?;
            let wide = true;
            Ok((Raw::Inc { slot, by, wide }, rest))
        }
        _ => Err(Stop::At(bytes.len())),
    }
}

fn offsets(alloc: Global, count: u64, bytes: &[u8]) -> Result<(Offsets, &[u8]), Stop>
    ensures { Gives (λ x. (x.0, x.1.now)) result (times (signed_at w32) count bytes.now) }
{
    let mut offsets = Items::new(alloc);
    let mut rest = bytes;
    for _ in 0..count {
        let (offset, after) = i32_at(rest)?;
        offsets.push(offset)?;
        rest = after;
    }
    Ok((offsets, rest))
}

#[tactic(auto, unfolding(crate::specs::Reading::case_at))]
fn case(bytes: &[u8]) -> Result<(RawCase, &[u8]), Stop>
    ensures { Gives (λ x. (x.0, x.1.now)) result (case_at bytes.now) }
{
    let (key, rest) = i32_at(bytes)?;
    let (offset, rest) = i32_at(rest)?;
    Ok((RawCase { key, offset }, rest))
}

fn cases(alloc: Global, count: u32, bytes: &[u8]) -> Result<(RawCases, &[u8]), Stop>
    ensures { Gives (λ x. (x.0, x.1.now)) result (times case_at count bytes.now) }
{
    let mut cases = Items::new(alloc);
    let mut rest = bytes;
    for _ in 0..count {
        let (case, after) = case(rest)?;
        cases.push(case)?;
        rest = after;
    }
    Ok((cases, rest))
}

#[tactic(auto, unfolding(crate::specs::Reading::table_at))]
fn table(alloc: Global, at: usize, bytes: &[u8]) -> Result<(Raw, &[u8]), Stop>
    ensures { Gives (λ x. (x.0, x.1.now)) result (table_at at bytes.now) }
{
    let (_pad, rest) = bytes_at(bytes, padding(at))?;
    let (other, rest) = i32_at(rest)?;
    let (low, rest) = i32_at(rest)?;
    let (high, rest) = i32_at(rest)?;
    let count = targets(low, high);
    let (offsets, rest) = offsets(alloc, count, rest)?;
    let raw = Raw::Table {
        low,
        high,
        other,
        offsets,
    };
    Ok((raw, rest))
}

#[tactic(auto, unfolding(crate::specs::Reading::lookup_at))]
fn lookup(alloc: Global, at: usize, bytes: &[u8]) -> Result<(Raw, &[u8]), Stop>
    ensures { Gives (λ x. (x.0, x.1.now)) result (lookup_at at bytes.now) }
{
    let (_pad, rest) = bytes_at(bytes, padding(at))?;
    let (other, rest) = i32_at(rest)?;
    let (count, rest) = count_at(rest)?;
    let (cases, rest) = cases(alloc, count, rest)?;
    Ok((Raw::Lookup { other, cases }, rest))
}

#[tactic(auto, unfolding(crate::specs::Reading::operands_at))]
fn operands(
    alloc: Global,
    at: usize,
    op: u8,
    form: Form,
    bytes: &[u8],
) -> Result<(Raw, &[u8]), Stop>
    ensures { Gives (λ x. (x.0, x.1.now)) result (operands_at at op form bytes.now) }
{
    match form {
        Form::Plain => Ok((Raw::Plain { op }, bytes)),
        Form::Byte => push_byte(op, bytes),
        Form::Short => push_short(op, bytes),
        Form::Constant => constant(op, bytes),
        Form::WideConstant => wide_constant(op, bytes),
        Form::Local => local(op, bytes),
        Form::Increment => increment(bytes),
        Form::Branch => branch(op, bytes),
        Form::WideBranch => wide_branch(op, bytes),
        Form::Table => table(alloc, at, bytes),
        Form::Lookup => lookup(alloc, at, bytes),
        Form::Reference => reference(op, bytes),
        Form::Interface => interface(bytes),
        Form::Dynamic => dynamic(bytes),
        Form::Class => class(op, bytes),
        Form::Array => array(bytes),
        Form::MultiArray => multi_array(bytes),
        Form::Wide => wide(bytes),
    }
}

#[tactic(auto, unfolding(crate::specs::Reading::instruction_at))]
fn instruction(alloc: Global, at: usize, bytes: &[u8]) -> Result<(Raw, &[u8]), Stop>
    ensures { Gives (λ x. (x.0, x.1.now)) result (instruction_at at bytes.now) }
{
    let ((op, form), rest) = opcode_at(bytes)?;
    operands(alloc, at, op, form, rest)
}

/// The instruction that stands at the offset `at` of a method's code, and its length in bytes (JVM
/// Specification chapter 6, without jsr, jsr_w, ret and the reserved opcodes). Code may follow it;
/// the padding of a switch is counted from the code's start.
pub fn decode(alloc: Global, code: &[u8], at: usize) -> Result<(Raw, usize), InsnFault>
    ensures found { IfOk result (λ x. Stands code.now at x.0 x.1) }
    // What stands there is found, unless memory runs out.
    ensures only { (r : Raw) (len : ℕ) → Stands code.now at r len → IsUnlessMemory result (r, len) }
    // Else the fault is the first one.
    ensures fault { IfErr result (IsCause code.now at) }
{
    if code.len() < at {
        return Err(InsnFault::Fault { at });
    }
    let bytes = &code[at..];
    match instruction(alloc, at, bytes) {
        Ok((raw, rest)) => Ok((raw, bytes.len() - rest.len())),
        Err(Stop::At(left)) => Err(InsnFault::Fault {
            at: code.len() - left,
        }),
        Err(Stop::Memory) => Err(InsnFault::Memory),
    }
}
