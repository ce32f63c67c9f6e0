//! Fields of JSON objects by kind, over values that `serde_json` reads.
#![tactic(auto)]

mod error;
mod field;
mod list;
mod member;
mod object;

pub use error::JsonError;
pub use field::{Field, field_bool, field_list, field_number, field_object, field_text, has_field};
pub use list::{field_texts, read_text_or_texts, read_texts};
pub use member::{read_text_members, read_text_tables, read_texts_members};
pub use object::read_object;

#[cfg(test)]
mod tests;
