//! What fits in the room that is left in an attribute, and numbers of which not every value fits.
#![tactic(auto)]

mod element_count;
mod elements;
mod frame_count;
mod frames;
mod number;
mod table_count;
mod tables;

pub use element_count::{ElementCount, ElementKind};
pub use elements::Elements;
pub use frame_count::{FrameCount, FrameKind};
pub use frames::Frames;
pub use number::{Allows, read_number};
pub use table_count::{TableCount, TableKind};
pub use tables::Tables;

#[cfg(test)]
mod tests;
