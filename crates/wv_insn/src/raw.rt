//! Instructions, with pool numbers and byte offsets.

use crate::opcode::has_form;
use crate::switch::targets;
use wv_base::{Form, Items};

/// The offsets to which a tableswitch leads, from its least key on.
pub type Offsets = Items<i32>;

/// One case of a lookupswitch: its key, and the offset to which it leads.
#[derive(Clone, Copy, Debug, PartialEq, Eq)]
pub struct RawCase {
    pub key: i32,
    pub offset: i32,
}

/// The cases of a lookupswitch, in the order in which they stand.
pub type RawCases = Items<RawCase>;

/// One instruction as bytes have it (JVM Specification chapter 6). `op` is its opcode, `number` a
/// number of the constant pool. `offset`, `other` and the offsets of switches are counted in bytes
/// from the instruction's own opcode.
#[derive(Debug, Drop)]
pub enum Raw {
    /// An instruction without operands.
    Plain {
        op: u8,
    },
    /// bipush and sipush.
    Push {
        op: u8,
        value: i16,
    },
    /// ldc, ldc_w and ldc2_w.
    Load {
        op: u8,
        number: u16,
    },
    /// A load or a store of a local variable by its number, behind `wide` or not.
    Local {
        op: u8,
        slot: u16,
        wide: bool,
    },
    /// iinc, behind `wide` or not.
    Inc {
        slot: u16,
        by: i16,
        wide: bool,
    },
    /// A jump with one target; goto_w among them.
    Branch {
        op: u8,
        offset: i32,
    },
    /// tableswitch: where it leads for the keys from `low` to `high`, and for all others. There are
    /// no offsets where `low` is above `high`.
    Table {
        low: i32,
        high: i32,
        other: i32,
        offsets: Offsets,
    },
    /// lookupswitch: where it leads for the keys of its cases, and for all others.
    Lookup {
        other: i32,
        cases: RawCases,
    },
    /// A field instruction, or a call other than the next two.
    Reference {
        op: u8,
        number: u16,
    },
    /// invokeinterface, with its count and the byte behind it, as they are read.
    Interface {
        number: u16,
        count: u8,
        zero: u8,
    },
    /// invokedynamic.
    Dynamic {
        number: u16,
    },
    /// new, anewarray, checkcast and instanceof.
    Class {
        op: u8,
        number: u16,
    },
    /// newarray.
    NewArray {
        kind: u8,
    },
    /// multianewarray.
    MultiArray {
        number: u16,
        dimensions: u8,
    },
}

impl Raw {
    ghost use Rattle.std.specs.Prelude.{◌↔◌, IsTrue};
    ghost use Rattle.wv_insn.specs.Spelling.{IsInstruction};

    /// Whether bytes can spell this instruction: its opcode is one of its kind, its numbers fit
    /// their places, a tableswitch has an offset for each key, and a lookupswitch fewer than 2^31
    /// cases.
    pub fn is_encodable(&self) -> bool
        ensures { IsTrue result ↔ IsInstruction self.now }
    {
        match self {
            Raw::Plain { op } => has_form(*op, Form::Plain),
            Raw::Push { op, value } => {
                has_form(*op, Form::Short)
                    || has_form(*op, Form::Byte) && i8::try_from(*value).is_ok()
            }
            Raw::Load { op, number } => {
                has_form(*op, Form::WideConstant)
                    || has_form(*op, Form::Constant) && *number < 0x100
            }
            Raw::Local { op, slot, wide } => {
                has_form(*op, Form::Local) && (*wide || *slot < 0x100)
            }
            Raw::Inc { slot, by, wide } => { *wide || *slot < 0x100 && i8::try_from(*by).is_ok() }
            Raw::Branch { op, offset } => {
                has_form(*op, Form::WideBranch)
                    || has_form(*op, Form::Branch) && i16::try_from(*offset).is_ok()
            }
            Raw::Table {
                low,
                high,
                offsets,
                ..
            } => offsets.len() as u64 == targets(*low, *high),
            Raw::Lookup { cases, .. } => cases.len() < 0x8000_0000,
            Raw::Reference { op, .. } => has_form(*op, Form::Reference),
            Raw::Class { op, .. } => has_form(*op, Form::Class),
            _ => true,
        }
    }
}
