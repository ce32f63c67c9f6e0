//! Writing frames as they are spelled.
ghost use Rattle.std.specs.Prelude.{◌≡◌, ◌∷◌, ◌++◌, ◌<◌, ◌^◌, length, IfOk, OnOk};
ghost use Rattle.std.specs.List.{flat_map};
ghost use Rattle.wv_frames.specs.Spelling.{type_bytes, list_bytes, frame_bytes, table_bytes, IsFrame, IsLayout};
ghost use Rattle.wv_pool.specs.Entries.{number_bytes};

use crate::raw::{RawFrame, RawType};
use std::alloc::Global;
use wv_base::Memory;

/// Writes a number at the end.
fn put_number(out: &mut Vec<u8>, number: u16) -> Result<(), Memory>
    ensures { OnOk result (out.new.items ≡ out.old.items ++ number_bytes number) }
{
    out.extend_from_slice(&number.to_be_bytes())?;
    Ok(())
}

fn put_type(out: &mut Vec<u8>, raw: RawType) -> Result<(), Memory>
    ensures { OnOk result (out.new.items ≡ out.old.items ++ type_bytes raw) }
{
    let (tag, number) = match raw {
        RawType::Top => (0, None),
        RawType::Int => (1, None),
        RawType::Float => (2, None),
        RawType::Double => (3, None),
        RawType::Long => (4, None),
        RawType::Null => (5, None),
        RawType::UninitializedThis => (6, None),
        RawType::Object(class) => (7, Some(class)),
        RawType::Uninitialized(at) => (8, Some(at)),
    };
    out.push(tag)?;
    match number {
        Some(number) => put_number(out, number),
        None => Ok(()),
    }
}

fn put_types(out: &mut Vec<u8>, raw: &[RawType]) -> Result<(), Memory>
    ensures { OnOk result (out.new.items ≡ out.old.items ++ flat_map type_bytes raw.now) }
{
    for one in raw {
        put_type(out, *one)?;
    }
    Ok(())
}

/// Writes types with their count.
fn put_list(out: &mut Vec<u8>, raw: &[RawType]) -> Result<(), Memory>
    requires { length raw.now < 2 ^ 16 }
    ensures { OnOk result (out.new.items ≡ out.old.items ++ list_bytes raw.now) }
{
    put_number(out, raw.len() as u16)?;
    put_types(out, raw)
}

/// Writes a frame's tag and its delta.
fn put_tag(out: &mut Vec<u8>, tag: u8, delta: u16) -> Result<(), Memory>
    ensures { OnOk result (out.new.items ≡ out.old.items ++ tag ∷ number_bytes delta) }
{
    out.push(tag)?;
    put_number(out, delta)
}

fn put_frame(out: &mut Vec<u8>, raw: &RawFrame) -> Result<(), Memory>
    requires { IsFrame raw.now }
    ensures { OnOk result (out.new.items ≡ out.old.items ++ frame_bytes raw.now) }
{
    match raw {
        RawFrame::Same { delta } => {
            out.push(*delta)?;
            Ok(())
        }
        RawFrame::SameWithOne { delta, stack } => {
            out.push(64 + *delta)?;
            put_type(out, *stack)
        }
        RawFrame::SameWithOneExtended { delta, stack } => {
            put_tag(out, 247, *delta)?;
            put_type(out, *stack)
        }
        RawFrame::Chop { count, delta } => put_tag(out, 251 - *count, *delta),
        RawFrame::SameExtended { delta } => put_tag(out, 251, *delta),
        RawFrame::Append { delta, locals } => {
            put_tag(out, 251 + locals.len() as u8, *delta)?;
            put_types(out, locals.as_slice())
        }
        RawFrame::Full {
            delta,
            locals,
            stack,
        } => {
            put_tag(out, 255, *delta)?;
            put_list(out, locals.as_slice())?;
            put_list(out, stack.as_slice())
        }
    }
}

/// The content of a StackMapTable with these frames.
pub(crate) fn table_to_bytes(alloc: Global, raw: &[RawFrame]) -> Result<Vec<u8>, Memory>
    requires { IsLayout raw.now }
    ensures { IfOk result (λ bytes. bytes.items ≡ table_bytes raw.now) }
{
    let mut out = Vec::new(alloc);
    put_number(&mut out, raw.len() as u16)?;
    for one in raw {
        put_frame(&mut out, one)?;
    }
    Ok(out)
}
