//! Writing one instruction.
ghost use Rattle.std.specs.Prelude.{◌≡◌, ◌<◌, ◌^◌, ◌++◌, ◌∷◌, [], ◌⊎◌, length, replicate, FitsSigned, OnOk, OnErr};
ghost use Rattle.std.specs.List.{flat_map, AllByRecursion};
ghost use Rattle.std.specs.Int.{w8, w16, w32};
ghost use Rattle.wv_base.specs.declared.form.Form.TheVariants as form;
ghost use Rattle.wv_base.specs.Instructions.{form_of};
ghost use Rattle.wv_insn.specs.Spelling.{unsigned, signed, case as case_bytes, width_of, padding, plain_spelling, HasForm, IsInstruction, IsCase, Spells};

use crate::opcode::{
    IINC, INVOKEDYNAMIC, INVOKEINTERFACE, LOOKUPSWITCH, MULTIANEWARRAY, NEWARRAY, TABLESWITCH,
    WIDE, form_of,
};
use crate::raw::{Raw, RawCase};
use crate::switch::padding;
use wv_base::{Bytes, Form, Memory};

fn put_u16(out: &mut Bytes, number: u16) -> Result<(), Memory>
    ensures { OnOk result (out.new ≡ out.old ++ unsigned w16 number) }
{
    out.extend(&number.to_be_bytes())
}

fn put_i32(out: &mut Bytes, number: i32) -> Result<(), Memory>
    ensures { OnOk result (out.new ≡ out.old ++ signed w32 number) }
{
    out.extend(&number.to_be_bytes())
}

/// An opcode and a number of two bytes.
fn numbered(out: &mut Bytes, op: u8, number: u16) -> Result<(), Memory>
    ensures { OnOk result (out.new ≡ out.old ++ op ∷ unsigned w16 number) }
{
    out.push(op)?;
    put_u16(out, number)
}

fn push(out: &mut Bytes, op: u8, value: i16) -> Result<(), Memory>
    requires { HasForm op form.Byte × FitsSigned w8 value ⊎ HasForm op form.Short }
    ensures { OnOk result (out.new ≡ out.old ++ op ∷ signed (width_of (form_of op)) value) }
{
    out.push(op)?;
    match form_of(op) {
        Some(Form::Byte) => out.extend(&(value as i8).to_be_bytes()),
        _ => out.extend(&value.to_be_bytes()),
    }
}

fn load(out: &mut Bytes, op: u8, number: u16) -> Result<(), Memory>
    requires { HasForm op form.Constant × (number < 2 ^ 8) ⊎ HasForm op form.WideConstant }
    ensures { OnOk result (out.new ≡ out.old ++ op ∷ unsigned (width_of (form_of op)) number) }
{
    out.push(op)?;
    match form_of(op) {
        Some(Form::Constant) => out.push(number as u8),
        _ => put_u16(out, number),
    }
}

fn branch(out: &mut Bytes, op: u8, offset: i32) -> Result<(), Memory>
    requires { HasForm op form.Branch × FitsSigned w16 offset ⊎ HasForm op form.WideBranch }
    ensures { OnOk result (out.new ≡ out.old ++ op ∷ signed (width_of (form_of op)) offset) }
{
    out.push(op)?;
    match form_of(op) {
        Some(Form::Branch) => out.extend(&(offset as i16).to_be_bytes()),
        _ => put_i32(out, offset),
    }
}

fn local(out: &mut Bytes, op: u8, slot: u16) -> Result<(), Memory>
    requires { slot < 2 ^ 8 }
    ensures { OnOk result (out.new ≡ out.old ++ op ∷ slot ∷ []) }
{
    out.push(op)?;
    out.push(slot as u8)
}

fn wide_local(out: &mut Bytes, op: u8, slot: u16) -> Result<(), Memory>
    ensures { OnOk result (out.new ≡ out.old ++ WIDE ∷ op ∷ unsigned w16 slot) }
{
    out.push(WIDE)?;
    numbered(out, op, slot)
}

fn increment(out: &mut Bytes, slot: u16, by: i16) -> Result<(), Memory>
    requires slot { slot < 2 ^ 8 }
    requires by { FitsSigned w8 by }
    ensures { OnOk result (out.new ≡ out.old ++ IINC ∷ slot ∷ signed w8 by) }
{
    local(out, IINC, slot)?;
    out.extend(&(by as i8).to_be_bytes())
}

fn wide_increment(out: &mut Bytes, slot: u16, by: i16) -> Result<(), Memory>
    ensures { OnOk result (out.new ≡ out.old ++ (WIDE ∷ IINC ∷ unsigned w16 slot ++ signed w16 by)) }
{
    wide_local(out, IINC, slot)?;
    out.extend(&by.to_be_bytes())
}

fn interface(out: &mut Bytes, number: u16, count: u8, zero: u8) -> Result<(), Memory>
    ensures { OnOk result (out.new ≡ out.old ++ (INVOKEINTERFACE ∷ unsigned w16 number ++ count ∷ zero ∷ [])) }
{
    numbered(out, INVOKEINTERFACE, number)?;
    out.push(count)?;
    out.push(zero)
}

fn dynamic(out: &mut Bytes, number: u16) -> Result<(), Memory>
    ensures { OnOk result (out.new ≡ out.old ++ (INVOKEDYNAMIC ∷ unsigned w16 number ++ 0 ∷ 0 ∷ [])) }
{
    numbered(out, INVOKEDYNAMIC, number)?;
    put_u16(out, 0)
}

fn multi_array(out: &mut Bytes, number: u16, dimensions: u8) -> Result<(), Memory>
    ensures { OnOk result (out.new ≡ out.old ++ (MULTIANEWARRAY ∷ unsigned w16 number ++ dimensions ∷ [])) }
{
    numbered(out, MULTIANEWARRAY, number)?;
    out.push(dimensions)
}

#[tactic(auto, using(crate::proofs::Padding::zeros_taken))]
fn pad(out: &mut Bytes, at: usize) -> Result<(), Memory>
    ensures { OnOk result (out.new ≡ out.old ++ replicate (padding at) 0) }
{
    out.extend(&[0; 3][..padding(at)])
}

/// The opcode of a switch at this offset, its pad bytes, and where it leads for other keys.
fn switch(out: &mut Bytes, op: u8, at: usize, other: i32) -> Result<(), Memory>
    ensures { OnOk result (out.new ≡ out.old ++ (op ∷ replicate (padding at) 0 ++ signed w32 other)) }
{
    out.push(op)?;
    pad(out, at)?;
    put_i32(out, other)
}

fn put_offsets(out: &mut Bytes, offsets: &[i32]) -> Result<(), Memory>
    ensures spelled { OnOk result (out.new ≡ out.old ++ flat_map (signed w32) offsets.now) }
    ensures typed { OnOk result (AllByRecursion (FitsSigned w32) offsets.now) }
{
    for offset in offsets {
        put_i32(out, *offset)?;
    }
    Ok(())
}

fn put_case(out: &mut Bytes, case: RawCase) -> Result<(), Memory>
    ensures spelled { OnOk result (out.new ≡ out.old ++ case_bytes case) }
    ensures typed { IsCase case }
{
    put_i32(out, case.key)?;
    put_i32(out, case.offset)
}

fn put_cases(out: &mut Bytes, cases: &[RawCase]) -> Result<(), Memory>
    ensures spelled { OnOk result (out.new ≡ out.old ++ flat_map case_bytes cases.now) }
    ensures typed { OnOk result (AllByRecursion IsCase cases.now) }
{
    for case in cases {
        put_case(out, *case)?;
    }
    Ok(())
}

fn table(
    out: &mut Bytes,
    at: usize,
    keys: (i32, i32),
    other: i32,
    offsets: &[i32],
) -> Result<(), Memory>
    ensures spelled { OnOk result (out.new ≡ out.old ++ (TABLESWITCH ∷ replicate (padding at) 0 ++ signed w32 other ++ signed w32 keys.0 ++ signed w32 keys.1 ++ flat_map (signed w32) offsets.now)) }
    ensures typed { OnOk result (AllByRecursion (FitsSigned w32) offsets.now) }
{
    switch(out, TABLESWITCH, at, other)?;
    put_i32(out, keys.0)?;
    put_i32(out, keys.1)?;
    put_offsets(out, offsets)
}

fn lookup(out: &mut Bytes, at: usize, other: i32, cases: &[RawCase]) -> Result<(), Memory>
    requires { length cases.now < 2 ^ 31 }
    ensures spelled { OnOk result (out.new ≡ out.old ++ (LOOKUPSWITCH ∷ replicate (padding at) 0 ++ signed w32 other ++ unsigned w32 (length cases.now) ++ flat_map case_bytes cases.now)) }
    ensures typed { OnOk result (AllByRecursion IsCase cases.now) }
{
    switch(out, LOOKUPSWITCH, at, other)?;
    out.extend(&(cases.len() as u32).to_be_bytes())?;
    put_cases(out, cases)
}

/// Appends the bytes of the instruction, as it is spelled where its opcode stands at the offset
/// `at` of the code: a switch is padded with zeros from there. After want of memory `out` may end
/// with a part of them.
#[tactic(auto, using(crate::proofs::Padding::is_plain))]
pub fn encode(raw: &Raw, at: usize, out: &mut Bytes) -> Result<(), Memory>
    // What it calls for can be asked with `is_encodable`.
    requires { IsInstruction raw.now }
    ensures appended { OnOk result (out.new ≡ out.old ++ plain_spelling at raw.now) }
    ensures spelled { OnOk result (Spells at raw.now (plain_spelling at raw.now)) }
{
    match raw {
        Raw::Plain { op } => out.push(*op),
        Raw::Push { op, value } => push(out, *op, *value),
        Raw::Load { op, number } => load(out, *op, *number),
        Raw::Local {
            op,
            slot,
            wide: false,
        } => local(out, *op, *slot),
        Raw::Local {
            op,
            slot,
            wide: true,
        } => wide_local(out, *op, *slot),
        Raw::Inc {
            slot,
            by,
            wide: false,
        } => increment(out, *slot, *by),
        Raw::Inc {
            slot,
            by,
            wide: true,
        } => wide_increment(out, *slot, *by),
        Raw::Branch { op, offset } => branch(out, *op, *offset),
        Raw::Table {
            low,
            high,
            other,
            offsets,
        } => { table(out, at, (*low, *high), *other, offsets.as_slice()) }
        Raw::Lookup { other, cases } => lookup(out, at, *other, cases.as_slice()),
        Raw::Reference { op, number } => numbered(out, *op, *number),
        Raw::Interface {
            number,
            count,
            zero,
        } => interface(out, *number, *count, *zero),
        Raw::Dynamic { number } => dynamic(out, *number),
        Raw::Class { op, number } => numbered(out, *op, *number),
        Raw::NewArray { kind } => out.extend(&[NEWARRAY, *kind]),
        Raw::MultiArray { number, dimensions } => multi_array(out, *number, *dimensions),
    }
}
