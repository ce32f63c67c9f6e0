//! What is present.
ghost use Rattle.std.specs.Prelude.{◌≡◌, ◌↔◌, ◌++◌, [], ◌∷◌, List, IsTrue, IfOk, IfErr, OnOk, All, flat_map, MatchOption};
ghost use Rattle.wv_resolve.specs.Presence.{Presence, IsPresent};
ghost use Rattle.wv_resolve.specs.Dependency.{MeetsOne, IsMet};
ghost use Rattle.wv_resolve.specs.Refusal.{IsFound, IsTwiceBroken, IsBrokenFault};

use crate::refusal::twice;
use crate::source::Source;
use std::alloc::Global;
use std::collections::BTreeMap;
use wv_base::{Memory, Text};
use wv_mod::{Dependency, ModFault};
use wv_version::Version;

/// The ids that are present, each with what it comes from.
#[derive(Drop)]
pub(crate) struct Present<'a> {
    sources: BTreeMap<Text, &'a Source<'a>>,
}

impl<'a> Present<'a> {
    ghost use Rattle.wv_resolve.specs.Holding.{Holds, IsRead, source_presence, source_presences, source_under};

    /// What the sources are present as. A fault is the first id that is present twice.
    pub(crate) fn read(alloc: Global, sources: &'a [Source<'a>]) -> Result<Present<'a>, ModFault>
        requires { All IsRead sources.now }
        ensures holds { IfOk result (Holds (flat_map source_presences sources.now)) }
        ensures twice { IfErr result (IsBrokenFault (IsTwiceBroken (flat_map source_presences sources.now))) }
    {
        let mut present = Present {
            sources: BTreeMap::new(alloc),
        };
        for source in sources {
            present.add_source(alloc, source)?;
        }
        Ok(present)
    }

    /// Adds a source under each of its ids.
    fn add_source(&mut self, alloc: Global, source: &'a Source<'a>) -> Result<(), ModFault>
        requires { IsRead source.now }
        ensures holds { (list : List Presence) → Holds list self.old
            → OnOk result (Holds (list ++ source_presences source.now) self.new) }
        ensures twice { (list : List Presence) → Holds list self.old
            → IfErr result (IsBrokenFault (IsTwiceBroken (list ++ source_presences source.now))) }
    {
        self.add(alloc, source.id, source)?;
        for id in source.provides {
            self.add(alloc, id, source)?;
        }
        Ok(())
    }

    /// Adds a source under an id.
    fn add(&mut self, alloc: Global, id: &Text, source: &'a Source<'a>) -> Result<(), ModFault>
        requires { IsRead source.now }
        ensures holds { (list : List Presence) → Holds list self.old
            → OnOk result (Holds (list ++ source_presence source.now id.now ∷ []) self.new) }
        ensures twice { (list : List Presence) → Holds list self.old
            → IfErr result (IsBrokenFault (IsTwiceBroken (list ++ source_presence source.now id.now ∷ []))) }
    {
        match self.insert(id.copy(alloc)?, source)? {
            None => Ok(()),
            Some(_) => Err(ModFault::Broken(twice(alloc, source.path, id)?)),
        }
    }

    /// Puts a source under an id, and gives the one that was there.
    fn insert(&mut self, id: Text, source: &'a Source<'a>) -> Result<Option<&'a Source<'a>>, Memory>
        ensures { (list : List Presence) → Holds list self.old → IsRead source.now
            → IfOk result (λ before. MatchOption before
            (Holds (list ++ source_presence source.now id ∷ []) self.new)
            (λ _. IsPresent list id)) }
    {
        Ok(self.sources.insert(id, source)?)
    }

    /// What is present under the id.
    fn source(&self, id: &Text) -> Option<&'a Source<'a>>
        ensures { result ≡ source_under self.now id.now }
    {
        self.sources.get(id).copied()
    }

    /// Whether the entry is met: its id is present, and the version meets one of the predicates. It
    /// takes time logarithmic in the number of ids.
    pub(crate) fn meets(&self, dependency: &Dependency) -> bool
        ensures { (list : List Presence) → Holds list self.now → (IsTrue result ↔ IsMet list dependency.now) }
    {
        match self.source(&dependency.id) {
            Some(source) => meets_one(&source.version, dependency),
            None => false,
        }
    }

    /// The version that is present under the id, and `-` where none is.
    pub(crate) fn found(&self, alloc: Global, id: &Text) -> Result<Text, Memory>
        ensures { (list : List Presence) → Holds list self.now → IfOk result (IsFound list id.now) }
    {
        match self.source(id) {
            Some(source) => source.text.copy(alloc),
            None => Text::from_str(alloc, "-"),
        }
    }
}

/// Whether the version meets one of the predicates.
fn meets_one(version: &Version, dependency: &Dependency) -> bool
    ensures { IsTrue result ↔ MeetsOne version.now dependency.now }
{
    dependency
        .any_of
        .as_slice()
        .iter()
        .any(|requirement| requirement.predicate.test(version))
}
