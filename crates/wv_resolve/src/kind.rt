//! The kinds of entries.
ghost use Rattle.std.specs.Prelude.{◌≡◌, List, MatchBool};
ghost use Rattle.wv_resolve.specs.Presence.{Presence};
ghost use Rattle.wv_resolve.specs.Dependency.{entries_of, rule_of, Keeps, Fails};
ghost use Rattle.wv_resolve.specs.Holding.{Holds};

use crate::present::Present;
use wv_base::Rule;
use wv_mod::{Dependency, ModInfo};

/// What an entry asks of the versions that are present (fabric.mod.json, `depends` and `breaks`).
#[derive(Clone, Copy, Debug)]
pub(crate) enum Kind {
    /// It has to be met.
    Depends,
    /// It must not be met.
    Breaks,
}

impl Kind {
    /// The mod's entries of this kind.
    pub(crate) fn entries(self, info: &ModInfo) -> &[Dependency]
        ensures { result.now ≡ entries_of self info.now }
    {
        match self {
            Kind::Depends => info.depends.as_slice(),
            Kind::Breaks => info.breaks.as_slice(),
        }
    }

    /// The rule that an entry of this kind breaks.
    pub(crate) fn rule(self) -> Rule
        ensures { result ≡ rule_of self }
    {
        match self {
            Kind::Depends => Rule::DependsUnmet,
            Kind::Breaks => Rule::BreaksMet,
        }
    }

    /// Whether an entry of this kind is as it has to be.
    pub(crate) fn keeps(self, present: &Present, dependency: &Dependency) -> bool
        ensures { (list : List Presence) → Holds list present.now
            → MatchBool result (Keeps self list dependency.now) (Fails self list dependency.now) }
    {
        match self {
            Kind::Depends => present.meets(dependency),
            Kind::Breaks => !present.meets(dependency),
        }
    }
}
