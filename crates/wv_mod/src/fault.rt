//! What may be wrong with a description.
ghost use Rattle.std.specs.Prelude.{◌≡◌, IfOk, IfErr};
ghost use Rattle.wv_mod.specs.Flaw.{broken_of};

use crate::key::Key;
use std::alloc::{AllocError, Global};
use thiserror::Error;
use wv_base::{Broken, Memory, Place, Rule, Text};

/// Why a mod isn't read, or why mods don't fit together.
#[derive(Debug, Drop, Error)]
pub enum ModFault {
    /// The first broken rule.
    #[error("a rule is broken")]
    Broken(Broken),
    #[error("out of memory")]
    Memory,
}

impl From<Memory> for ModFault {
    ghost use Rattle.wv_mod.specs.declared.fault.ModFault.TheVariants as faults;

    ghost from_gives = { λ _ e. e ≡ faults.Memory };

    fn from(_error: Memory) -> ModFault {
        ModFault::Memory
    }
}

impl From<AllocError> for ModFault {
    ghost use Rattle.wv_mod.specs.declared.fault.ModFault.TheVariants as faults;

    ghost from_gives = { λ _ e. e ≡ faults.Memory };

    fn from(_error: AllocError) -> ModFault {
        ModFault::Memory
    }
}

/// What is wrong with a description, the first that is.
#[derive(Debug, Drop)]
pub enum Flaw {
    /// The bytes are no JSON object.
    Json,
    /// A key isn't as the schema says.
    Key(Key),
    /// An id is outside the grammar.
    Id(Text),
    /// Nested jars are named.
    Jars,
    /// A text is no version predicate.
    Predicate(Text),
}

impl Flaw {
    /// The rule that is broken at the path of the description.
    pub(crate) fn broken(self, alloc: Global, path: &Text) -> Result<Broken, Memory>
        ensures { IfOk result (λ broken. broken ≡ broken_of path.now self) }
    {
        let (rule, found) = match self {
            Flaw::Json => (Rule::ModBad, Text::from_str(alloc, "json")?),
            Flaw::Key(key) => (Rule::ModBad, Text::from_str(alloc, key.name())?),
            Flaw::Id(text) => (Rule::IdBad, text),
            Flaw::Jars => (Rule::NestedJars, Text::from_str(alloc, "-")?),
            Flaw::Predicate(text) => (Rule::PredicateBad, text),
        };
        Ok(Broken {
            rule,
            place: Place {
                file: path.copy(alloc)?,
                member: None,
                index: None,
            },
            wanted: Text::from_str(alloc, "-")?,
            found,
        })
    }
}

/// Why the reading of a description stops.
#[derive(Debug, Drop)]
pub(crate) enum Stop {
    Flaw(Flaw),
    Memory,
}

impl From<Memory> for Stop {
    ghost use Rattle.wv_mod.specs.declared.fault.Stop.TheVariants as stops;

    ghost from_gives = { λ _ e. e ≡ stops.Memory };

    fn from(_error: Memory) -> Stop {
        Stop::Memory
    }
}

impl From<AllocError> for Stop {
    ghost use Rattle.wv_mod.specs.declared.fault.Stop.TheVariants as stops;

    ghost from_gives = { λ _ e. e ≡ stops.Memory };

    fn from(_error: AllocError) -> Stop {
        Stop::Memory
    }
}
