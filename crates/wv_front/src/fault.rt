//! Why a folder isn't woven.
ghost use Rattle.std.specs.Prelude.{◌≡◌};

use std::alloc::AllocError;
use thiserror::Error;
use wv_base::{Broken, Memory};

/// Why a folder isn't woven.
#[derive(Debug, Drop, Error)]
pub enum WeaveFault {
    /// The first rule that the folder breaks.
    #[error("a rule is broken")]
    Broken(Broken),
    #[error("out of memory")]
    Memory,
}

impl From<Memory> for WeaveFault {
    ghost use Rattle.wv_front.specs.declared.fault.WeaveFault.TheVariants as faults;

    ghost from_gives = { λ _ e. e ≡ faults.Memory };

    fn from(_error: Memory) -> WeaveFault {
        WeaveFault::Memory
    }
}

impl From<AllocError> for WeaveFault {
    ghost use Rattle.wv_front.specs.declared.fault.WeaveFault.TheVariants as faults;

    ghost from_gives = { λ _ e. e ≡ faults.Memory };

    fn from(_error: AllocError) -> WeaveFault {
        WeaveFault::Memory
    }
}
