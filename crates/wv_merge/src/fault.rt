//! Why a mixin isn't merged into its target.
ghost use Rattle.std.specs.Prelude.{◌≡◌, MatchBool};

use std::alloc::{AllocError, AllocFailed};
use thiserror::Error;
use wv_base::{Broken, Memory};

/// Why a mixin isn't merged into its target.
#[derive(Debug, Drop, Error)]
pub enum MergeFault {
    /// The rule that the two classes break.
    #[error("a rule is broken")]
    Broken(Broken),
    #[error("out of memory")]
    Memory,
}

impl From<Memory> for MergeFault {
    ghost use Rattle.wv_merge.specs.declared.fault.MergeFault.TheVariants as faults;

    ghost from_gives = { λ _ e. e ≡ faults.Memory };

    fn from(_error: Memory) -> MergeFault {
        MergeFault::Memory
    }
}

impl From<AllocError> for MergeFault {
    ghost use Rattle.wv_merge.specs.declared.fault.MergeFault.TheVariants as faults;

    ghost from_gives = { λ _ e. e ≡ faults.Memory };

    fn from(_error: AllocError) -> MergeFault {
        MergeFault::Memory
    }
}

/// Why code isn't found to have a typing.
#[derive(Debug, Drop)]
pub(crate) enum TypingFault {
    Untyped,
    Memory,
}

impl From<Memory> for TypingFault {
    ghost use Rattle.wv_merge.specs.declared.fault.TypingFault.TheVariants as faults;

    ghost from_gives = { λ _ e. e ≡ faults.Memory };

    fn from(_error: Memory) -> TypingFault {
        TypingFault::Memory
    }
}

impl From<AllocError> for TypingFault {
    ghost use Rattle.wv_merge.specs.declared.fault.TypingFault.TheVariants as faults;

    ghost from_gives = { λ _ e. e ≡ faults.Memory };

    fn from(_error: AllocError) -> TypingFault {
        TypingFault::Memory
    }
}

impl<T: Drop> From<AllocFailed<T>> for TypingFault {
    ghost use Rattle.wv_merge.specs.declared.fault.TypingFault.TheVariants as faults;

    ghost from_gives = { λ _ e. e ≡ faults.Memory };

    fn from(_error: AllocFailed<T>) -> TypingFault {
        TypingFault::Memory
    }
}

/// What code has to meet for a typing.
pub(crate) fn typed(holds: bool) -> Result<(), TypingFault>
    ensures { MatchBool holds (result ≡ Ok tt) (result ≡ Err TypingFault.Untyped) }
{
    if holds {
        Ok(())
    } else {
        Err(TypingFault::Untyped)
    }
}
