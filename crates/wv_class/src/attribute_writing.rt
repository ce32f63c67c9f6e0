//! Writing the attributes of fields and methods.
ghost use Rattle.std.specs.Prelude.{◌≡◌, ◌++◌, ◌<◌, ◌^◌, ℕ, List, length, IfOk, OnOk};
ghost use Rattle.std.specs.List.{AllByRecursion, flat_map};
ghost use Rattle.std.specs.Option.{option_copied};
ghost use Rattle.wv_base.specs.declared.constant.Const.TheVariants as constants;
ghost use Rattle.wv_base.specs.declared.frame.Frame.{Frame};
ghost use Rattle.wv_pool.specs.Numbers.{Named};
ghost use Rattle.wv_code.specs.BodyConstants.{body_constants};
ghost use Rattle.wv_code.specs.FormedBody.{IsFormedBody};
ghost use Rattle.wv_code.specs.Laying.{IsLayout};
ghost use Rattle.wv_code.specs.WritingBody.{HasRoom, WritesBody, written_bytes};
ghost use Rattle.wv_class.specs.Laid.{IsLaid};
ghost use Rattle.wv_class.specs.Needs.{parts_of, value_constants, code_constants, exceptions_constants};
ghost use Rattle.wv_class.specs.Appending.{Appends, WritesNamed, WritesValue, WritesCode, WritesExceptions, IsWritableBody, IsNumbered};

use crate::putting::{put_classes, put_constant, put_length, put_number, put_text};
use std::alloc::Global;
use wv_base::{Attribute, Body, Bytes, Const, Memory, Name};
use wv_code::{CodeLayout, write_code};
use wv_pool::{Pool, PoolFault};

/// Puts an attribute with this name and content (JVM Specification 4.7). A content of 2^32 bytes or
/// more has no room: that is answered as want of memory.
pub(crate) fn put_named(
    alloc: Global,
    pool: &Pool,
    name: &str,
    content: &Bytes,
    out: &mut Bytes,
) -> Result<(), Memory>
    requires { Named pool.now (constants.Utf8 name.now) }
    ensures { OnOk result (Appends (WritesNamed pool.now name.now (λ bytes. bytes ≡ content.now)) out.old out.new) }
{
    if content.len() > u32::MAX as usize {
        return Err(Memory);
    }
    put_text(pool, Name::from_ascii(alloc, name)?, out)?;
    put_length(out, content.len() as u32)?;
    out.extend(content.as_slice())
}

/// Puts the ConstantValue of a field, if it has one (JVM Specification 4.7.2).
pub(crate) fn put_value(
    alloc: Global,
    value: &Option<Const>,
    pool: &Pool,
    out: &mut Bytes,
) -> Result<(), Memory>
    requires { AllByRecursion (Named pool.now) (parts_of (value_constants value.now)) }
    ensures { OnOk result (Appends (WritesValue pool.now value.now) out.old out.new) }
{
    let Some(value) = value else {
        return Ok(());
    };
    let mut content = Bytes::new(alloc);
    put_constant(pool, value, &mut content)?;
    put_named(alloc, pool, "ConstantValue", &content, out)
}

/// The content of the Code attribute of a body, whose constants the pool has.
fn code_content(
    alloc: Global,
    body: &Body,
    layout: &CodeLayout,
    pool: &mut Pool,
) -> Result<Bytes, Memory>
    requires formed { IsFormedBody pool.old body.now }
    requires laid { IsLayout pool.old body.now.insns layout.now }
    requires named { AllByRecursion (Named pool.old) (parts_of (body_constants body.now)) }
    ensures same { OnOk result (pool.new ≡ pool.old) }
    ensures read_again { (first : Frame) → IfOk result (WritesBody pool.old first body.now) }
{
    // The pool is sound: it isn't full, since it lacks nothing.
    let _entries = pool.entries();
    match write_code(alloc, body, layout, pool) {
        Ok(content) => Ok(content),
        Err(PoolFault::Memory) => Err(Memory),
        Err(PoolFault::Full) => unreachable!(),
    }
}

/// Puts the Code of a method, if it has a body (JVM Specification 4.7.3), with this layout.
pub(crate) fn put_code(
    alloc: Global,
    body: &Option<Body>,
    layout: Option<&CodeLayout>,
    pool: &mut Pool,
    out: &mut Bytes,
) -> Result<(), Memory>
    requires formed { IsWritableBody pool.old body.now }
    requires laid { IsLaid pool.old body.now (option_copied layout) }
    requires named { AllByRecursion (Named pool.old) (parts_of (code_constants body.now)) }
    ensures same { OnOk result (pool.new ≡ pool.old) }
    ensures written { OnOk result (Appends (WritesCode pool.old body.now) out.old out.new) }
{
    let (Some(body), Some(layout)) = (body, layout) else {
        return Ok(());
    };
    let content = code_content(alloc, body, layout, pool)?;
    put_named(alloc, pool, "Code", &content, out)
}

/// Puts the Exceptions of a method, if it declares any (JVM Specification 4.7.5).
pub(crate) fn put_exceptions(
    alloc: Global,
    names: &[Name],
    pool: &Pool,
    out: &mut Bytes,
) -> Result<(), Memory>
    requires few { length names.now < 2 ^ 16 }
    requires named { AllByRecursion (Named pool.now) (parts_of (exceptions_constants names.now)) }
    ensures { OnOk result (Appends (WritesExceptions pool.now names.now) out.old out.new) }
{
    if names.is_empty() {
        return Ok(());
    }
    let mut content = Bytes::new(alloc);
    put_classes(pool, names, &mut content)?;
    put_named(alloc, pool, "Exceptions", &content, out)
}

/// Bytes have 8 bits each.
fn are_bytes(bytes: &[u8])
    ensures { AllByRecursion (λ b. b < 256) bytes.now }
{}

fn put_attribute(out: &mut Bytes, attribute: &Attribute) -> Result<(), Memory>
    requires { HasRoom attribute.now }
    ensures put { OnOk result (out.new ≡ out.old ++ written_bytes attribute.now) }
    ensures numbered { IsNumbered attribute.now }
{
    let name = attribute.name;
    are_bytes(attribute.content.as_slice());
    put_number(out, name)?;
    put_length(out, attribute.content.len() as u32)?;
    out.extend(attribute.content.as_slice())
}

/// Puts attributes that were kept, with the numbers of their names.
pub(crate) fn put_kept(out: &mut Bytes, attributes: &[Attribute]) -> Result<(), Memory>
    requires { AllByRecursion HasRoom attributes.now }
    ensures put { OnOk result (out.new ≡ out.old ++ flat_map written_bytes attributes.now) }
    ensures numbered { OnOk result (AllByRecursion IsNumbered attributes.now) }
{
    for attribute in attributes {
        put_attribute(out, attribute)?;
    }
    Ok(())
}
