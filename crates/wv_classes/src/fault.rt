//! Why the classes of a folder aren't loaded.
ghost use Rattle.std.specs.Prelude.{◌≡◌};

use std::alloc::AllocError;
use thiserror::Error;
use wv_base::{Broken, Memory};

/// Why the classes of a folder aren't loaded.
#[derive(Debug, Drop, Error)]
pub enum ClassesFault {
    /// The first broken rule.
    #[error("a rule is broken")]
    Broken(Broken),
    #[error("out of memory")]
    Memory,
}

impl From<Memory> for ClassesFault {
    ghost use Rattle.wv_classes.specs.declared.fault.ClassesFault.TheVariants as faults;

    ghost from_gives = { λ _ e. e ≡ faults.Memory };

    fn from(_error: Memory) -> ClassesFault {
        ClassesFault::Memory
    }
}

impl From<AllocError> for ClassesFault {
    ghost use Rattle.wv_classes.specs.declared.fault.ClassesFault.TheVariants as faults;

    ghost from_gives = { λ _ e. e ≡ faults.Memory };

    fn from(_error: AllocError) -> ClassesFault {
        ClassesFault::Memory
    }
}
