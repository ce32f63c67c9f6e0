//! A method's code, and where its instructions stand (JVM Specification 4.7.3 and 4.9.1).
#![tactic(auto)]

mod attribute_room;
mod body;
mod body_constants;
mod body_writing;
mod code_layout;
mod constants;
mod content;
mod content_writing;
mod demand;
mod entering;
mod fitting;
mod formed;
mod formed_body;
mod frame_break;
mod frame_index;
mod index;
mod insn_break;
mod instruction;
mod laws;
mod laying;
mod least;
mod number;
mod offset_frame;
mod opcode;
mod operand;
mod pool_constant;
mod range;
mod range_break;
mod raw_body;
mod raw_range;
mod reading;
mod reference;
mod size;
mod splitting;
mod stop;
mod switch_number;
mod target;
mod writing;

pub use body::{body_of, is_start};
pub use body_constants::push_body_constants;
pub use body_writing::write_code;
pub use code_layout::{CodeLayout, Offsets};
pub use content::read_layout;
pub use formed::are_formed;
pub use formed_body::is_formed;
pub use laws::{formed_stays, one_layout, size_of_what_is_spelled};
pub use laying::layout;
pub use pool_constant::constant_at;
pub use raw_body::{RawAttribute, RawBody, RawRange};
pub use reading::read_code;
pub use reference::first_break;
pub use splitting::{RawCode, split_code};
pub use writing::write_insns;

#[cfg(test)]
mod body_tests;
#[cfg(test)]
mod content_tests;
#[cfg(test)]
mod fitting_tests;
#[cfg(test)]
mod reference_tests;
#[cfg(test)]
mod tests;
#[cfg(test)]
mod writing_tests;
