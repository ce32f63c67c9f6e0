//! StackMapTables (JVM Specification 4.7.4).
#![tactic(auto)]

mod adding;
mod layout;
mod raw;
mod reading;
mod room;
mod stop;
mod tag;
mod whole;
mod writable;
mod writing;

pub use adding::write_frames;
pub use raw::{RawFrame, RawType, RawTypes};
pub use reading::{read_frames, read_layout};
pub use whole::{frame_len, type_len, whole_frames};
pub use writable::is_writable;

#[cfg(test)]
mod tests;
