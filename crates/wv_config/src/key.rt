//! Keys of a mixin configuration.
ghost use Rattle.std.specs.Prelude.{◌≡◌};
ghost use Rattle.wv_config.specs.Key.{name_of};

use thiserror::Error;
use wv_base::Memory;

/// The keys of a mixin configuration whose values are kept, in the order in which they are asked.
#[derive(Clone, Copy, Debug, PartialEq, Eq)]
pub enum Key {
    Package,
    Mixins,
    Client,
    Server,
    Refmap,
    Priority,
    MixinPriority,
    DefaultRequire,
    RequireAnnotations,
}

impl Key {
    /// The key as it is written, with a dot before a key within an object.
    #[tactic(auto, unfolding(crate::specs::Key::name_of))]
    pub fn name(self) -> &'static str
        ensures { result.now ≡ name_of self }
    {
        match self {
            Key::Package => "package",
            Key::Mixins => "mixins",
            Key::Client => "client",
            Key::Server => "server",
            Key::Refmap => "refmap",
            Key::Priority => "priority",
            Key::MixinPriority => "mixinPriority",
            Key::DefaultRequire => "injectors.defaultRequire",
            Key::RequireAnnotations => "overwrites.requireAnnotations",
        }
    }
}

/// Why an object isn't read as a mixin configuration.
#[derive(Clone, Copy, Debug, Error)]
pub(crate) enum KeyFault {
    /// The value at this key isn't as it has to be.
    #[error("a key is wrong")]
    Wrong(Key),
    #[error("out of memory")]
    Memory,
}

impl From<Memory> for KeyFault {
    ghost use Rattle.wv_config.specs.declared.key.KeyFault.TheVariants as faults;

    ghost from_gives = { λ _ e. e ≡ faults.Memory };

    fn from(_error: Memory) -> KeyFault {
        KeyFault::Memory
    }
}
