//! The top call: what the program does, over any outside.
#![tactic(auto)]

mod laws;
mod put;
mod reading;
mod rules;
mod status;
mod summary;
mod top;
mod words;

pub use laws::refused_exactly;
pub use status::Status;
pub use top::loader;
