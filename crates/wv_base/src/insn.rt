//! Instructions, with names and places in place of numbers and offsets.
ghost use Rattle.std.specs.Prelude.{◌≡◌, IfOk};

use crate::constant::Const;
use crate::memory::Memory;
use crate::name::Name;
use sqlite_items::Items;
use std::alloc::Global;

/// The instructions to which a tableswitch leads, by index.
pub type Targets = Items<u32>;

/// One case of a lookupswitch: its key, and the index of the instruction to which it leads.
#[derive(Clone, Copy, Debug, PartialEq, Eq)]
pub struct Case {
    pub key: i32,
    pub to: u32,
}

/// The cases of a lookupswitch.
pub type Cases = Items<Case>;

/// One instruction (JVM Specification chapter 6). `op` is its opcode; `to`, `other` and the numbers
/// in `targets` and `cases` are indices of instructions.
#[derive(Debug, Drop)]
pub enum Insn {
    /// An instruction without operands.
    Plain {
        op: u8,
    },
    /// bipush and sipush.
    Push {
        op: u8,
        value: i16,
    },
    /// ldc, ldc_w and ldc2_w.
    Load {
        op: u8,
        value: Const,
    },
    /// A load or a store of a local variable by its number.
    Local {
        op: u8,
        slot: u16,
        wide: bool,
    },
    /// iinc.
    Inc {
        slot: u16,
        by: i16,
        wide: bool,
    },
    /// A jump with one target.
    Branch {
        op: u8,
        to: u32,
    },
    /// tableswitch.
    Table {
        low: i32,
        other: u32,
        targets: Targets,
    },
    /// lookupswitch.
    Lookup {
        other: u32,
        cases: Cases,
    },
    /// A field instruction, or a call other than invokedynamic.
    Reference {
        op: u8,
        owner: Name,
        name: Name,
        descriptor: Name,
        interface: bool,
    },
    /// invokedynamic.
    Site {
        bootstrap: u16,
        name: Name,
        descriptor: Name,
    },
    /// new, anewarray, checkcast and instanceof.
    Class {
        op: u8,
        class: Name,
    },
    /// newarray.
    NewArray {
        kind: u8,
    },
    /// multianewarray.
    MultiArray {
        class: Name,
        dimensions: u8,
    },
}

impl Insn {
    pub fn copy(&self, alloc: Global) -> Result<Insn, Memory>
        ensures { IfOk result (λ insn. insn ≡ self.now) }
    {
        Ok(match self {
            Insn::Plain { op } => Insn::Plain { op: *op },
            Insn::Push { op, value } => Insn::Push {
                op: *op,
                value: *value,
            },
            Insn::Load { op, value } => Insn::Load {
                op: *op,
                value: value.copy()?,
            },
            Insn::Local { op, slot, wide } => Insn::Local {
                op: *op,
                slot: *slot,
                wide: *wide,
            },
            Insn::Inc { slot, by, wide } => Insn::Inc {
                slot: *slot,
                by: *by,
                wide: *wide,
            },
            Insn::Branch { op, to } => Insn::Branch { op: *op, to: *to },
            Insn::Table {
                low,
                other,
                targets,
            } => Insn::Table {
                low: *low,
                other: *other,
                targets: Items::from_slice(alloc, targets.as_slice())?,
            },
            Insn::Lookup { other, cases } => Insn::Lookup {
                other: *other,
                cases: Items::from_slice(alloc, cases.as_slice())?,
            },
            Insn::Reference {
                op,
                owner,
                name,
                descriptor,
                interface,
            } => Insn::Reference {
                op: *op,
                owner: owner.copy()?,
                name: name.copy()?,
                descriptor: descriptor.copy()?,
                interface: *interface,
            },
            Insn::Site {
                bootstrap,
                name,
                descriptor,
            } => Insn::Site {
                bootstrap: *bootstrap,
                name: name.copy()?,
                descriptor: descriptor.copy()?,
            },
            Insn::Class { op, class } => Insn::Class {
                op: *op,
                class: class.copy()?,
            },
            Insn::NewArray { kind } => Insn::NewArray { kind: *kind },
            Insn::MultiArray { class, dimensions } => Insn::MultiArray {
                class: class.copy()?,
                dimensions: *dimensions,
            },
        })
    }
}
