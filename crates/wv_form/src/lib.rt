//! The form of class files that is built so far: which class files of a folder have it, and the first
//! that hasn't.
#![tactic(auto)]

mod checking;
mod kinds;
mod laws;
mod mention;
mod placing;
mod splitting;
mod tables;

pub use checking::check_form;
pub use kinds::target_name;
pub use laws::{form_or_refused, named_classes_examples, one_form_refusal};

#[cfg(test)]
mod tests;
