//! Whether a field can have a value.
ghost use Rattle.std.specs.Prelude.{◌≡◌, ◌↔◌, IsTrue};
ghost use Rattle.wv_class.specs.Breaks.{FitsField};
ghost use Rattle.wv_class.specs.Formed.{IsFormedValue};
ghost use Rattle.wv_class.specs.FieldValue.{is_small};

use wv_base::{Const, Name};
use wv_pool::is_allowed;

const BYTE: u16 = b'B' as u16;

const CHAR: u16 = b'C' as u16;

const INT: u16 = b'I' as u16;

const SHORT: u16 = b'S' as u16;

const BOOLEAN: u16 = b'Z' as u16;

/// Whether fields with the descriptor keep their value in an int.
fn is_small(descriptor: &Name) -> bool
    ensures { result ≡ is_small descriptor.now }
{
    match descriptor.units() {
        [letter] => matches!(*letter, BYTE | CHAR | INT | SHORT | BOOLEAN),
        _ => false,
    }
}

/// Whether the constant can be the value of a field with the descriptor (JVM Specification 4.7.2).
#[tactic(auto, using(crate::proofs::FieldValues::small_fits, crate::proofs::FieldValues::float_fits, crate::proofs::FieldValues::long_fits, crate::proofs::FieldValues::double_fits, crate::proofs::FieldValues::string_fits))]
fn fits_field(descriptor: &Name, value: &Const) -> bool
    ensures { IsTrue result ↔ FitsField descriptor.now value.now }
{
    match value {
        Const::Integer(_) => is_small(descriptor),
        Const::Float(_) => descriptor.is_ascii("F"),
        Const::Long(_) => descriptor.is_ascii("J"),
        Const::Double(_) => descriptor.is_ascii("D"),
        Const::String(_) => descriptor.is_ascii("Ljava/lang/String;"),
        _ => false,
    }
}

pub(crate) fn is_formed_value(descriptor: &Name, value: &Option<Const>) -> bool
    ensures { IsTrue result ↔ IsFormedValue descriptor.now value.now }
{
    match value {
        Some(value) => fits_field(descriptor, value) && is_allowed(value),
        None => true,
    }
}
