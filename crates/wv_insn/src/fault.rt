//! Why no instruction was read.
ghost use Rattle.std.specs.Prelude.{◌≡◌};
ghost use Rattle.wv_insn.specs.declared.fault.Stop.TheVariants.{Memory};

use std::alloc::{AllocError, AllocFailed};
use thiserror::Error;

/// Why no instruction was read.
#[derive(Debug, Drop, Error)]
pub enum InsnFault {
    /// No instruction begins with the bytes up to and with the one at `at`, or the code ends there.
    #[error("no instruction at byte {at}")]
    Fault { at: usize },
    #[error("out of memory")]
    Memory,
}

/// Where a reader stopped, told by how many bytes were left; 0 where the code ends.
#[derive(Debug, Drop)]
pub(crate) enum Stop {
    At(usize),
    Memory,
}

impl From<AllocError> for Stop {
    ghost from_gives = { λ _ e. e ≡ Memory };

    fn from(_error: AllocError) -> Stop {
        Stop::Memory
    }
}

impl<T: Drop> From<AllocFailed<T>> for Stop {
    ghost from_gives = { λ _ e. e ≡ Memory };

    fn from(_error: AllocFailed<T>) -> Stop {
        Stop::Memory
    }
}
