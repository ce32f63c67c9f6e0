//! Opcodes that are told apart here.

pub(crate) const BIPUSH: u8 = 0x10;

pub(crate) const LDC: u8 = 0x12;

pub(crate) const LDC_W: u8 = 0x13;

pub(crate) const LDC2_W: u8 = 0x14;

pub(crate) const GETSTATIC: u8 = 0xb2;

pub(crate) const PUTFIELD: u8 = 0xb5;

pub(crate) const INVOKEVIRTUAL: u8 = 0xb6;

pub(crate) const INVOKESTATIC: u8 = 0xb8;

pub(crate) const INVOKEINTERFACE: u8 = 0xb9;

pub(crate) const NEW: u8 = 0xbb;

pub(crate) const GOTO_W: u8 = 0xc8;
