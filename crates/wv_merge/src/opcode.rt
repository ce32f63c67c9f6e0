//! The opcodes of plain code (JVM Specification chapter 7).

pub(crate) const ICONST_0: u8 = 0x03;

pub(crate) const ICONST_5: u8 = 0x08;

pub(crate) const BIPUSH: u8 = 0x10;

pub(crate) const POP: u8 = 0x57;

pub(crate) const IADD: u8 = 0x60;

pub(crate) const IMUL: u8 = 0x68;

pub(crate) const RETURN: u8 = 0xb1;

pub(crate) const GETSTATIC: u8 = 0xb2;

pub(crate) const INVOKEVIRTUAL: u8 = 0xb6;

pub(crate) const INVOKESTATIC: u8 = 0xb8;
