//! The keys of a description.
ghost use Rattle.std.specs.Prelude.{◌≡◌, IfOk, IfErr, find, not, option_copied};
ghost use Rattle.serde_json.specs.View.{view};
ghost use Rattle.wv_mod.specs.Manifest.{IsManifest};
ghost use Rattle.wv_mod.specs.Id.{is_id, first_bad_id};
ghost use Rattle.wv_mod.specs.Flaw.{IsStopAtKey};

use crate::environment::Environment;
use crate::fault::{Flaw, Stop};
use crate::field::{entries_at, environment_at, has_schema, text_at, texts_at};
use crate::id::is_id;
use crate::key::Key;
use crate::mixin::{MixinConfig, mixins_at};
use serde_json::Value;
use std::alloc::Global;
use wv_base::{Items, Text};

/// What the keys of a description say (fabric.mod.json, schema version 1). All other keys are read
/// past.
#[derive(Debug, Drop)]
pub struct Manifest {
    pub id: Text,
    pub version: Text,
    pub provides: Items<Text>,
    pub environment: Environment,
    pub mixins: Items<MixinConfig>,
    /// Ids with texts of predicates, in the order of the ids' bytes.
    pub depends: Items<(Text, Items<Text>)>,
    /// As `depends`.
    pub breaks: Items<(Text, Items<Text>)>,
}

impl Manifest {
    /// What the keys of the object say, where each is as the schema says.
    pub(crate) fn read(alloc: Global, value: &Value) -> Result<Manifest, Stop>
        ensures found { IfOk result (IsManifest (view value.now)) }
        ensures wrong { IfErr result (IsStopAtKey (view value.now)) }
    {
        if !has_schema(value) {
            return Err(Stop::Flaw(Flaw::Key(Key::SchemaVersion)));
        }
        let Some(id) = text_at(alloc, value, "id")? else {
            return Err(Stop::Flaw(Flaw::Key(Key::Id)));
        };
        let Some(version) = text_at(alloc, value, "version")? else {
            return Err(Stop::Flaw(Flaw::Key(Key::Version)));
        };
        let Some(provides) = texts_at(alloc, value, "provides")? else {
            return Err(Stop::Flaw(Flaw::Key(Key::Provides)));
        };
        let Some(environment) = environment_at(alloc, value, "environment")? else {
            return Err(Stop::Flaw(Flaw::Key(Key::Environment)));
        };
        let Some(mixins) = mixins_at(alloc, value)? else {
            return Err(Stop::Flaw(Flaw::Key(Key::Mixins)));
        };
        let Some(depends) = entries_at(alloc, value, "depends")? else {
            return Err(Stop::Flaw(Flaw::Key(Key::Depends)));
        };
        let Some(breaks) = entries_at(alloc, value, "breaks")? else {
            return Err(Stop::Flaw(Flaw::Key(Key::Breaks)));
        };
        Ok(Manifest {
            id,
            version,
            provides,
            environment,
            mixins,
            depends,
            breaks,
        })
    }

    /// The first of the id and the provided ids that is outside the grammar.
    pub(crate) fn first_bad_id(&self) -> Option<&Text>
        ensures { option_copied result ≡ first_bad_id self.now }
    {
        if !is_id(self.id.as_str()) {
            return Some(&self.id);
        }
        first_bad(self.provides.as_slice())
    }
}

/// The first of the ids that is outside the grammar.
fn first_bad(ids: &[Text]) -> Option<&Text>
    ensures { option_copied result ≡ find (λ id. not (is_id id)) ids.now }
{
    ids.iter().find(|id| !is_id(id.as_str()))
}
