//! Why bytes aren't read.

use thiserror::Error;

/// Why bytes aren't read as a JSON object.
#[derive(Clone, Copy, Debug, PartialEq, Eq, Error)]
pub enum JsonError {
    #[error("out of memory")]
    Memory,
    /// The bytes are no JSON text, or their value isn't an object.
    #[error("no JSON object")]
    Wrong,
}
