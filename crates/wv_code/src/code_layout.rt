//! The layout of code.

use wv_base::Items;

/// The offsets of a method's instructions in its code, in bytes.
pub type Offsets = Items<u32>;

/// Where the instructions of a method stand in its code, and the code's length, in bytes.
#[derive(Debug, Drop)]
pub struct CodeLayout {
    pub offsets: Offsets,
    pub len: u32,
}
