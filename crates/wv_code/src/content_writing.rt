//! The bytes of a Code attribute's parts.
ghost use Rattle.std.specs.Prelude.{◌≡◌, ◌+◌, ◌++◌, ◌<◌, ◌^◌, length, IfOk, OnOk};
ghost use Rattle.std.specs.List.{flat_map, AllByRecursion};
ghost use Rattle.wv_pool.specs.Entries.{number_bytes};
ghost use Rattle.wv_code.specs.Content.{length_bytes, range_bytes, named_bytes};
ghost use Rattle.wv_code.specs.WritingBody.{HasRoom, HasBytes, written_bytes, written_code, written_ranges, written_attributes, written_body};

use crate::raw_body::RawRange;
use std::alloc::Global;
use wv_base::{Attribute, Body, Bytes, Memory};

fn put_number(out: &mut Bytes, number: u16) -> Result<(), Memory>
    ensures { OnOk result (out.new ≡ out.old ++ number_bytes number) }
{
    out.extend(&number.to_be_bytes())
}

fn put_length(out: &mut Bytes, len: u32) -> Result<(), Memory>
    ensures { OnOk result (out.new ≡ out.old ++ length_bytes len) }
{
    out.extend(&len.to_be_bytes())
}

fn put_range(out: &mut Bytes, range: RawRange) -> Result<(), Memory>
    ensures { OnOk result (out.new ≡ out.old ++ range_bytes range) }
{
    put_number(out, range.start)?;
    put_number(out, range.end)?;
    put_number(out, range.handler)?;
    put_number(out, range.catch)
}

fn put_ranges(out: &mut Bytes, ranges: &[RawRange]) -> Result<(), Memory>
    ensures { OnOk result (out.new ≡ out.old ++ flat_map range_bytes ranges.now) }
{
    for range in ranges {
        put_range(out, *range)?;
    }
    Ok(())
}

/// Bytes have 8 bits each.
fn are_bytes(bytes: &[u8])
    ensures { AllByRecursion (λ b. b < 256) bytes.now }
{}

fn put_attribute(out: &mut Bytes, attribute: &Attribute) -> Result<(), Memory>
    requires { HasRoom attribute.now }
    ensures put { OnOk result (out.new ≡ out.old ++ written_bytes attribute.now) }
    ensures bytes { HasBytes attribute.now }
{
    are_bytes(attribute.content.as_slice());
    put_number(out, attribute.name)?;
    put_length(out, attribute.content.len() as u32)?;
    out.extend(attribute.content.as_slice())
}

fn put_attributes(out: &mut Bytes, attributes: &[Attribute]) -> Result<(), Memory>
    requires { AllByRecursion HasRoom attributes.now }
    ensures put { OnOk result (out.new ≡ out.old ++ flat_map written_bytes attributes.now) }
    ensures bytes { OnOk result (AllByRecursion HasBytes attributes.now) }
{
    for attribute in attributes {
        put_attribute(out, attribute)?;
    }
    Ok(())
}

/// Writes the exception table, with its count (JVM Specification 4.7.3).
fn put_table(out: &mut Bytes, ranges: &[RawRange]) -> Result<(), Memory>
    requires { length ranges.now < 2 ^ 16 }
    ensures { OnOk result (out.new ≡ out.old ++ written_ranges ranges.now) }
{
    put_number(out, ranges.len() as u16)?;
    put_ranges(out, ranges)
}

/// Writes the sizes and the code, with its length.
fn put_code(out: &mut Bytes, body: &Body, code: &Bytes) -> Result<(), Memory>
    requires { length code.now < 2 ^ 32 }
    ensures put { OnOk result (out.new ≡ out.old ++ written_code body.now code.now) }
    ensures sizes { (body.now.max_stack < 2 ^ 16) × (body.now.max_locals < 2 ^ 16) }
{
    let (stack, locals) = (body.max_stack, body.max_locals);
    put_number(out, stack)?;
    put_number(out, locals)?;
    put_length(out, code.len() as u32)?;
    out.extend(code.as_slice())
}

/// Writes the attributes that are kept, and the others, with their count.
fn put_both(out: &mut Bytes, kept: &[Attribute], tables: &[Attribute]) -> Result<(), Memory>
    requires few { length kept.now + length tables.now < 2 ^ 16 }
    requires kept { AllByRecursion HasRoom kept.now }
    requires tables { AllByRecursion HasRoom tables.now }
    ensures put { OnOk result (out.new ≡ out.old ++ written_attributes (kept.now ++ tables.now)) }
    ensures bytes { OnOk result (AllByRecursion HasBytes kept.now) }
{
    put_number(out, (kept.len() + tables.len()) as u16)?;
    put_attributes(out, kept)?;
    put_attributes(out, tables)
}

/// The content of a Code attribute with these parts.
pub(crate) fn body_to_bytes(
    alloc: Global,
    body: &Body,
    code: &Bytes,
    ranges: &[RawRange],
    tables: &[Attribute],
) -> Result<Bytes, Memory>
    requires small { length code.now < 2 ^ 32 }
    requires few_ranges { length ranges.now < 2 ^ 16 }
    requires few_attributes { length body.now.kept + length tables.now < 2 ^ 16 }
    requires kept { AllByRecursion HasRoom body.now.kept }
    requires tables { AllByRecursion HasRoom tables.now }
    ensures written { IfOk result (λ bytes. bytes ≡ written_body body.now code.now ranges.now (body.now.kept ++ tables.now)) }
    ensures sizes { IfOk result (λ _. (body.now.max_stack < 2 ^ 16) × (body.now.max_locals < 2 ^ 16)) }
    ensures bytes { IfOk result (λ _. AllByRecursion HasBytes body.now.kept) }
{
    let mut out = Bytes::new(alloc);
    put_code(&mut out, body, code)?;
    put_table(&mut out, ranges)?;
    put_both(&mut out, body.kept.as_slice(), tables)?;
    Ok(out)
}
