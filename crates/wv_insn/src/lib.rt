//! Instructions as the bytes of a method's code have them, both ways (JVM Specification chapter 6).
#![tactic(auto)]

mod fault;
mod laws;
mod number;
mod opcode;
mod raw;
mod reading;
mod switch;
mod writing;

pub use fault::InsnFault;
pub use laws::{
    decode_after_encode, encode_after_decode, one_instruction, what_a_first_fault_is,
    what_is_encodable,
};
pub use opcode::form_of;
pub use raw::{Offsets, Raw, RawCase, RawCases};
pub use reading::decode;
pub use switch::targets;
pub use writing::encode;

#[cfg(test)]
mod tests;
