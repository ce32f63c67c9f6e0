//! The content of a Code attribute as its bytes have it.

use crate::splitting::RawCode;
use wv_base::{Attribute, Items};
use wv_frames::RawFrame;

/// A range of an exception table: byte offsets, and the number of the class that is caught, or 0
/// for every class (JVM Specification 4.7.3).
#[derive(Clone, Copy, Debug, PartialEq, Eq)]
pub struct RawRange {
    pub start: u16,
    pub end: u16,
    pub handler: u16,
    pub catch: u16,
}

/// An attribute of a Code attribute: a StackMapTable, by the number of its name, or one that is
/// kept as it is.
#[derive(Debug, Drop)]
pub enum RawAttribute {
    Frames { name: u16, frames: Items<RawFrame> },
    Kept(Attribute),
}

/// The content of a Code attribute, with pool numbers and byte offsets (JVM Specification 4.7.3).
/// `len` is the length of the code, in bytes.
#[derive(Debug, Drop)]
pub struct RawBody {
    pub max_stack: u16,
    pub max_locals: u16,
    pub len: u32,
    pub code: RawCode,
    pub ranges: Items<RawRange>,
    pub attributes: Items<RawAttribute>,
}
