//! What the descriptors of fields and methods say (JVM Specification 4.3).
#![tactic(auto)]

mod field;
mod front;
mod method;

pub use field::field_type;
pub use method::{method_type, words};
pub use wv_base::{ElementType, FieldType, MethodType, Primitive};

#[cfg(test)]
mod tests;
