//! The instruction that fits in the room that is left of the code.
ghost use Rattle.std.specs.Prelude.{◌≡◌, ◌+◌, ◌<◌, ◌≤◌, ◌^◌, nat_le, length, drop, IfOk};
ghost use Rattle.std.specs.Int.{w32};
ghost use Rattle.wv_base.specs.Instructions.{form_of};
ghost use Rattle.wv_insn.specs.Spelling.{padding};
ghost use Rattle.wv_insn.specs.Reading.{bytes_at, signed_at};
ghost use Rattle.wv_code.specs.Answers.{Gives};
ghost use Rattle.wv_code.specs.Behind.{IsBounded};
ghost use Rattle.wv_code.specs.Fitting.{least_behind, behind_wide, part_at, opcode_in, table_room, lookup_room, wide_room, room_at, insn_at};

use crate::number::number_at;
use crate::stop::Stop;
use crate::switch_number::{SwitchNumber, SwitchPart};
use std::alloc::Global;
use wv_base::Form;
use wv_insn::{InsnFault, Raw, decode, form_of};

/// How many bytes stand behind the opcode of a switch up to the next multiple of four.
fn padding(at: usize) -> usize
    ensures { result ≡ padding at }
{
    3 - at % 4
}

/// How many bytes stand at least behind an opcode whose operands have this form.
fn least_behind(at: usize, form: Form) -> usize
    ensures value { result ≡ least_behind at form }
    ensures few { result < 16 }
{
    match form {
        Form::Plain => 0,
        Form::Byte | Form::Constant | Form::Local | Form::Array => 1,
        Form::Short
        | Form::WideConstant
        | Form::Increment
        | Form::Branch
        | Form::Reference
        | Form::Class => 2,
        Form::MultiArray | Form::Wide => 3,
        Form::WideBranch | Form::Interface | Form::Dynamic => 4,
        Form::Table => padding(at) + 12,
        Form::Lookup => padding(at) + 8,
    }
}

/// How many bytes stand behind an opcode that stands behind `wide`.
fn behind_wide(op: u8) -> Option<usize>
    ensures { result ≡ behind_wide (form_of op) }
{
    match form_of(op) {
        Some(Form::Local) => Some(2),
        Some(Form::Increment) => Some(4),
        _ => None,
    }
}

/// What goes on behind the bytes that are given.
#[derive(Clone, Copy, Debug, PartialEq, Eq)]
struct Behind {
    /// How many bytes stand behind the code, at least.
    tail: usize,
    /// How many of all bytes, the last ones, aren't there.
    missing: usize,
}

impl Behind {
    /// Whether so many bytes of the code fit before the tail, where so many bytes are there.
    fn fits(self, count: usize, there: usize) -> bool
        requires some { count + self.tail < 2 ^ 64 }
        requires all { there + self.missing < 2 ^ 64 }
        ensures { result ≡ nat_le (count + self.tail) (there + self.missing) }
    {
        count + self.tail <= there + self.missing
    }
}

/// The opcode at the front, and its form, where an instruction with it fits.
fn opcode_in(at: usize, behind: Behind, bytes: &[u8]) -> Result<((u8, Form), &[u8]), Stop>
    requires { IsBounded behind bytes.now }
    ensures gives { Gives (λ x. (x.0, x.1.now)) result (opcode_in at behind.tail behind.missing bytes.now) }
    ensures shorter { IfOk result (λ x. length x.1.now ≤ length bytes.now) }
{
    let [op, rest @ ..] = bytes else {
        return Err(Stop::Left(0));
    };
    match form_of(*op) {
        Some(form) if behind.fits(least_behind(at, form), rest.len()) => Ok(((*op, form), rest)),
        _ => Err(Stop::Left(bytes.len())),
    }
}

/// So many bytes at the front, whatever they are.
fn bytes_at(count: usize, bytes: &[u8]) -> Result<(&[u8], &[u8]), Stop>
    ensures gives { Gives (λ x. (x.0.now, x.1.now)) result (bytes_at count bytes.now) }
    ensures shorter { IfOk result (λ x. length x.1.now ≤ length bytes.now) }
{
    if bytes.len() < count {
        return Err(Stop::Left(0));
    }
    Ok(bytes.split_at(count))
}

/// The number of 32 bits at the front.
fn int_at(bytes: &[u8]) -> Result<(i32, &[u8]), Stop>
    ensures gives { Gives (λ x. (x.0, x.1.now)) result (signed_at w32 bytes.now) }
    ensures shorter { IfOk result (λ x. length x.1.now ≤ length bytes.now) }
{
    if bytes.len() < 4 {
        return Err(Stop::Left(0));
    }
    let (front, rest) = bytes.split_at(4);
    let number = i32::from_be_bytes([front[0], front[1], front[2], front[3]]);
    Ok((number, rest))
}

/// A number of a switch, where what stands behind it fits.
fn part_at(part: SwitchPart, behind: Behind, bytes: &[u8]) -> Result<(u32, &[u8]), Stop>
    requires { IsBounded behind bytes.now }
    ensures gives { Gives (λ x. (x.0, x.1.now)) result (part_at part behind.tail behind.missing bytes.now) }
    ensures shorter { IfOk result (λ x. length x.1.now ≤ length bytes.now) }
{
    let room = (bytes.len() + behind.missing).saturating_sub(4);
    let allowed = SwitchNumber {
        part,
        tail: behind.tail as u32,
        room: room as u32,
    };
    number_at(4, &allowed, bytes)
}

#[tactic(auto, unfolding(crate::specs::Fitting::table_room))]
fn table_room(at: usize, behind: Behind, bytes: &[u8]) -> Result<(), Stop>
    requires { IsBounded behind bytes.now }
    ensures { Gives (λ x. x) result (table_room at behind.tail behind.missing bytes.now) }
{
    let (_pad, rest) = bytes_at(padding(at), bytes)?;
    let (_other, rest) = int_at(rest)?;
    let (low, rest) = part_at(SwitchPart::Low, behind, rest)?;
    let low = low.cast_signed();
    let (_high, _rest) = part_at(SwitchPart::High { low }, behind, rest)?;
    Ok(())
}

#[tactic(auto, unfolding(crate::specs::Fitting::lookup_room))]
fn lookup_room(at: usize, behind: Behind, bytes: &[u8]) -> Result<(), Stop>
    requires { IsBounded behind bytes.now }
    ensures { Gives (λ x. x) result (lookup_room at behind.tail behind.missing bytes.now) }
{
    let (_pad, rest) = bytes_at(padding(at), bytes)?;
    let (_other, rest) = int_at(rest)?;
    let (_count, _rest) = part_at(SwitchPart::Count, behind, rest)?;
    Ok(())
}

#[tactic(auto, unfolding(crate::specs::Fitting::wide_room))]
fn wide_room(behind: Behind, bytes: &[u8]) -> Result<(), Stop>
    requires { IsBounded behind bytes.now }
    ensures { Gives (λ x. x) result (wide_room behind.tail behind.missing bytes.now) }
{
    let [op, rest @ ..] = bytes else {
        return Err(Stop::Left(0));
    };
    match behind_wide(*op) {
        Some(count) if behind.fits(count, rest.len()) => Ok(()),
        _ => Err(Stop::Left(bytes.len())),
    }
}

/// Stops at the first byte with which no instruction fits the room, as far as the room tells.
#[tactic(auto, unfolding(crate::specs::Fitting::room_at))]
fn check_room(at: usize, behind: Behind, bytes: &[u8]) -> Result<(), Stop>
    requires { IsBounded behind bytes.now }
    ensures { Gives (λ x. x) result (room_at at behind.tail behind.missing bytes.now) }
{
    let ((_op, form), rest) = opcode_in(at, behind, bytes)?;
    match form {
        Form::Table => table_room(at, behind, rest),
        Form::Lookup => lookup_room(at, behind, rest),
        Form::Wide => wide_room(behind, rest),
        _ => Ok(()),
    }
}

/// The instruction whose opcode stands at the offset `at`, and the bytes behind it. `code` goes on
/// behind the method's code, where at least `tail` bytes stand; of all these the last ones, so many
/// as `missing` says, aren't there. It stops at the first byte with which no instruction goes on
/// that fits the room before the tail.
#[tactic(auto, unfolding(crate::specs::Fitting::insn_at))]
pub(crate) fn insn_at<'a>(
    alloc: Global,
    code: &'a [u8],
    at: usize,
    tail: usize,
    missing: usize,
) -> Result<(Raw, &'a [u8]), Stop>
    requires start { at ≤ length code.now }
    requires few { length code.now + missing < 2 ^ 32 }
    requires room { tail < 2 ^ 32 }
    ensures { Gives (λ x. (x.0, x.1.now)) result (insn_at at tail missing (drop at code.now)) }
{
    let behind = Behind { tail, missing };
    check_room(at, behind, &code[at..])?;
    match decode(alloc, code, at) {
        Ok((raw, len)) => Ok((raw, &code[at + len..])),
        Err(InsnFault::Fault { at }) => Err(Stop::Left(code.len() - at)),
        Err(InsnFault::Memory) => Err(Stop::Memory),
    }
}
