//! Why a file isn't read.

ghost use Rattle.std.specs.Prelude.{◌≡◌};

use std::alloc::{AllocError, AllocFailed};
use thiserror::Error;
use wv_base::{Broken, Memory};

/// Why a file isn't read as a mixin configuration or as a refmap.
#[derive(Debug, Drop, Error)]
pub enum ConfigFault {
    /// The file breaks a rule.
    #[error("the file breaks a rule")]
    Broken(Broken),
    #[error("out of memory")]
    Memory,
}

impl From<Memory> for ConfigFault {
    ghost use Rattle.wv_config.specs.declared.fault.ConfigFault.TheVariants as faults;

    ghost from_gives = { λ _ e. e ≡ faults.Memory };

    fn from(_error: Memory) -> ConfigFault {
        ConfigFault::Memory
    }
}

impl From<AllocError> for ConfigFault {
    ghost use Rattle.wv_config.specs.declared.fault.ConfigFault.TheVariants as faults;

    ghost from_gives = { λ _ e. e ≡ faults.Memory };

    fn from(_error: AllocError) -> ConfigFault {
        ConfigFault::Memory
    }
}

impl<T: Drop> From<AllocFailed<T>> for ConfigFault {
    ghost use Rattle.wv_config.specs.declared.fault.ConfigFault.TheVariants as faults;

    ghost from_gives = { λ _ e. e ≡ faults.Memory };

    fn from(_error: AllocFailed<T>) -> ConfigFault {
        ConfigFault::Memory
    }
}
