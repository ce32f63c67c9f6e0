//! Class files, both ways (JVM Specification 4).
#![tactic(auto)]

mod attribute;
mod attribute_break;
mod attribute_length;
mod attribute_writing;
mod attributes_of;
mod class;
mod content;
mod content_break;
mod distinct;
mod entering;
mod flags;
mod formed;
mod formed_field;
mod formed_method;
mod formed_names;
mod formed_notes;
mod formed_value;
mod kind;
mod laws;
mod layout;
mod least;
mod len;
mod limits;
mod member;
mod member_break;
mod member_of;
mod member_rules;
mod member_writing;
mod names;
mod needed;
mod note_writing;
mod notes_of;
mod number;
mod number_break;
mod pool_copy;
mod pool_layout;
mod putting;
mod raw_class;
mod reading;
mod rest_break;
mod rest_writing;
mod seen;
mod start_frame;
mod stop;
mod tables;
mod verification_type;
mod writing;

pub use formed::is_formed;
pub use laws::{few_bytes, one_class, one_fault};
pub use reading::read_class;
pub use writing::write_class;

#[cfg(test)]
mod break_tests;
#[cfg(test)]
mod layout_tests;
#[cfg(test)]
mod limit_tests;
#[cfg(test)]
mod reading_tests;
#[cfg(test)]
mod writing_tests;
