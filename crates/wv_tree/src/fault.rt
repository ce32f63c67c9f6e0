//! Faults of the outside.
ghost use Rattle.std.specs.Prelude.{◌≡◌};
ghost use Rattle.wv_tree.specs.declared.fault.IoFault.TheVariants.{Memory as out_of_memory};

use std::alloc::{AllocError, AllocFailed};
use thiserror::Error;
use wv_base::Memory;

/// Why a call of a tree or an outlet gave no answer. An object counts its faults: `Failed` comes
/// only where that count rose in the call.
#[derive(Clone, Copy, Debug, PartialEq, Eq, Error)]
pub enum IoFault {
    #[error("the folder failed")]
    Failed,
    #[error("out of memory")]
    Memory,
}

impl From<AllocError> for IoFault {
    ghost from_gives = { λ _ fault. fault ≡ out_of_memory };

    fn from(_error: AllocError) -> IoFault {
        IoFault::Memory
    }
}

impl<T: Drop> From<AllocFailed<T>> for IoFault {
    ghost from_gives = { λ _ fault. fault ≡ out_of_memory };

    fn from(_error: AllocFailed<T>) -> IoFault {
        IoFault::Memory
    }
}

impl From<Memory> for IoFault {
    ghost from_gives = { λ _ fault. fault ≡ out_of_memory };

    fn from(_error: Memory) -> IoFault {
        IoFault::Memory
    }
}

/// A sink didn't take all bytes that it was handed. It comes only where the sink's count of faults
/// rose in the call.
#[derive(Clone, Copy, Debug, PartialEq, Eq, Error)]
#[error("the output failed")]
pub struct SinkFault;
