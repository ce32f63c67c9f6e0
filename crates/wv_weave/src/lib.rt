//! The weaver: mixins are merged into the classes of a folder, and the classes are written.
#![tactic(auto)]

mod front;
mod laws;
mod listed;
mod merging;
mod outgoing;
mod weaver;

pub use laws::one_first_broken;
pub use weaver::{Woven, weave};
