//! Opcodes and the forms of their operands.
ghost use Rattle.std.specs.Prelude.{◌≡◌, ◌↔◌, Some, IsTrue};
ghost use Rattle.wv_base.specs.Instructions.{form_of};

use wv_base::Form;

pub(crate) const IINC: u8 = 0x84;

pub(crate) const TABLESWITCH: u8 = 0xaa;

pub(crate) const LOOKUPSWITCH: u8 = 0xab;

pub(crate) const INVOKEINTERFACE: u8 = 0xb9;

pub(crate) const INVOKEDYNAMIC: u8 = 0xba;

pub(crate) const NEWARRAY: u8 = 0xbc;

pub(crate) const WIDE: u8 = 0xc4;

pub(crate) const MULTIANEWARRAY: u8 = 0xc5;

/// The form of the operands behind an opcode, where an instruction has it (JVM Specification 6.5).
#[tactic(auto, unfolding(wv_base::specs::Instructions::form_of))]
pub fn form_of(op: u8) -> Option<Form>
    ensures { result ≡ form_of op }
{
    Some(match op {
        // up to dconst_1, iload_0 to saload, istore_0 to lxor, i2l to dcmpg, the returns,
        // arraylength and athrow, monitorenter and monitorexit
        0x00..=0x0f | 0x1a..=0x35 | 0x3b..=0x83 | 0x85..=0x98 => Form::Plain,
        0xac..=0xb1 | 0xbe..=0xbf | 0xc2..=0xc3 => Form::Plain,
        0x10 => Form::Byte,
        0x11 => Form::Short,
        0x12 => Form::Constant,
        0x13..=0x14 => Form::WideConstant,
        // iload to aload, istore to astore
        0x15..=0x19 | 0x36..=0x3a => Form::Local,
        IINC => Form::Increment,
        // ifeq to goto, ifnull and ifnonnull
        0x99..=0xa7 | 0xc6..=0xc7 => Form::Branch,
        // goto_w
        0xc8 => Form::WideBranch,
        TABLESWITCH => Form::Table,
        LOOKUPSWITCH => Form::Lookup,
        // getstatic to invokestatic
        0xb2..=0xb8 => Form::Reference,
        INVOKEINTERFACE => Form::Interface,
        INVOKEDYNAMIC => Form::Dynamic,
        // new, anewarray, checkcast and instanceof
        0xbb | 0xbd | 0xc0..=0xc1 => Form::Class,
        NEWARRAY => Form::Array,
        MULTIANEWARRAY => Form::MultiArray,
        WIDE => Form::Wide,
        // jsr, ret, jsr_w and the reserved opcodes
        _ => return None,
    })
}

/// Whether the operands of an opcode have this form.
pub(crate) fn has_form(op: u8, form: Form) -> bool
    ensures { IsTrue result ↔ (form_of op ≡ Some form) }
{
    form_of(op) == Some(form)
}
