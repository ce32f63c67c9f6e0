//! Why a class file could not be read or written.

ghost use Rattle.std.specs.Prelude.{◌≡◌};

use crate::memory::Memory;
use std::alloc::{AllocError, AllocFailed};
use thiserror::Error;

/// Why bytes are no class file, or no part of one.
#[derive(Debug, Drop, Error)]
pub enum ClassFault {
    /// No layout begins with the bytes up to and with the one at `at`, or the input ends there.
    #[error("the layout breaks at byte {at}")]
    Layout { at: usize },
    /// The layout holds, and the item at `at` is the first that breaks a condition on numbers,
    /// names or places.
    #[error("the item at byte {at} refers to nothing that fits")]
    Reference { at: usize },
    #[error("out of memory")]
    Memory,
}

/// Why a class can't be written: a table of the class file format would overflow (JVM
/// Specification 4.11).
#[derive(Debug, Drop, Error)]
pub enum LimitFault {
    /// The constant pool, or a list of the class, would pass 65,535.
    #[error("the constant pool or a list of the class passes 65535 entries")]
    PoolLarge,
    /// The code of a method would pass 65,535 bytes.
    #[error("the code of a method passes 65535 bytes")]
    CodeLarge,
    /// A branch with a 16-bit offset would leave its range.
    #[error("a branch passes a 16-bit offset")]
    BranchFar,
    #[error("out of memory")]
    Memory,
}

impl From<Memory> for ClassFault {
    ghost use Rattle.wv_base.specs.declared.fault.ClassFault.TheVariants as faults;

    ghost from_gives = { λ _ e. e ≡ faults.Memory };

    fn from(_error: Memory) -> ClassFault {
        ClassFault::Memory
    }
}

impl From<AllocError> for ClassFault {
    ghost use Rattle.wv_base.specs.declared.fault.ClassFault.TheVariants as faults;

    ghost from_gives = { λ _ e. e ≡ faults.Memory };

    fn from(_error: AllocError) -> ClassFault {
        ClassFault::Memory
    }
}

impl<T: Drop> From<AllocFailed<T>> for ClassFault {
    ghost use Rattle.wv_base.specs.declared.fault.ClassFault.TheVariants as faults;

    ghost from_gives = { λ _ e. e ≡ faults.Memory };

    fn from(_error: AllocFailed<T>) -> ClassFault {
        ClassFault::Memory
    }
}

impl From<Memory> for LimitFault {
    ghost use Rattle.wv_base.specs.declared.fault.LimitFault.TheVariants as faults;

    ghost from_gives = { λ _ e. e ≡ faults.Memory };

    fn from(_error: Memory) -> LimitFault {
        LimitFault::Memory
    }
}

impl From<AllocError> for LimitFault {
    ghost use Rattle.wv_base.specs.declared.fault.LimitFault.TheVariants as faults;

    ghost from_gives = { λ _ e. e ≡ faults.Memory };

    fn from(_error: AllocError) -> LimitFault {
        LimitFault::Memory
    }
}

impl<T: Drop> From<AllocFailed<T>> for LimitFault {
    ghost use Rattle.wv_base.specs.declared.fault.LimitFault.TheVariants as faults;

    ghost from_gives = { λ _ e. e ≡ faults.Memory };

    fn from(_error: AllocFailed<T>) -> LimitFault {
        LimitFault::Memory
    }
}
