//! Tables of annotations (JVM Specification 4.7.16 to 4.7.19).
#![tactic(auto)]

mod depth;
mod flattening;
mod group;
mod laws;
mod layout;
mod mark;
mod naming;
mod notes;
mod numbering;
mod piece;
mod reference;
mod spelling;
mod step;
mod types;
mod writing;

pub use group::Group;
pub use laws::{one_list, one_parameter_list, same_in_their_table};
pub use layout::{read_layout, read_parameter_layout};
pub use mark::Mark;
pub use notes::{notes_of, parameter_notes_of, read_notes, read_parameter_notes};
pub use piece::Piece;
pub use reference::first_break;
pub use types::Types;
pub use writing::{are_parameters_writable, are_writable, write_notes, write_parameter_notes};

#[cfg(test)]
mod tests;
#[cfg(test)]
mod writing_tests;
