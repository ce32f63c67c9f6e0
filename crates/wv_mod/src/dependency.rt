//! Entries of `depends` and `breaks`.
ghost use Rattle.std.specs.Prelude.{IfOk, IfErr, flat_map};
ghost use Rattle.wv_mod.specs.Dependency.{AreRequirements, AreDependencies, texts_of};
ghost use Rattle.wv_mod.specs.Flaw.{IsStopAtPredicate};

use crate::fault::{Flaw, Stop};
use std::alloc::Global;
use wv_base::{Items, Text};
use wv_version::Predicate;

/// A predicate on versions with its text.
#[derive(Debug, Drop)]
pub struct Requirement {
    pub text: Text,
    pub predicate: Predicate,
}

/// An entry of `depends` or `breaks`: an id, and what its version is asked. It is met where one of
/// the predicates is met.
#[derive(Debug, Drop)]
pub struct Dependency {
    pub id: Text,
    pub any_of: Items<Requirement>,
}

/// The entries with their texts read as predicates.
pub(crate) fn read_dependencies(
    alloc: Global,
    entries: &[(Text, Items<Text>)],
) -> Result<Items<Dependency>, Stop>
    ensures read { IfOk result (AreDependencies entries.now) }
    ensures stop { IfErr result (IsStopAtPredicate (flat_map texts_of entries.now)) }
{
    let mut dependencies = Items::new(alloc);
    for entry in entries {
        let any_of = read_requirements(alloc, entry.1.as_slice())?;
        dependencies.push(Dependency {
            id: entry.0.copy(alloc)?,
            any_of,
        })?;
    }
    Ok(dependencies)
}

/// The texts read as predicates.
fn read_requirements(alloc: Global, texts: &[Text]) -> Result<Items<Requirement>, Stop>
    ensures read { IfOk result (AreRequirements texts.now) }
    ensures stop { IfErr result (IsStopAtPredicate texts.now) }
{
    let mut requirements = Items::new(alloc);
    for text in texts {
        let Some(predicate) = Predicate::read(alloc, text)? else {
            return Err(Stop::Flaw(Flaw::Predicate(text.copy(alloc)?)));
        };
        requirements.push(Requirement {
            text: text.copy(alloc)?,
            predicate,
        })?;
    }
    Ok(requirements)
}
