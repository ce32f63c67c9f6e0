//! Entries of `mixins`.
ghost use Rattle.std.specs.Prelude.{◌≡◌, [], IfOk, codes};
ghost use Rattle.serde_json.specs.Data.{array};
ghost use Rattle.serde_json.specs.Find.{get};
ghost use Rattle.serde_json.specs.View.{view, items_view};
ghost use Rattle.wv_json.specs.Field.{IsRead};
ghost use Rattle.wv_mod.specs.Field.{IsFound, IsOptional};
ghost use Rattle.wv_mod.specs.Mixins.{IsMixinEntry, IsMixinList};

use crate::environment::Environment;
use crate::field::{environment_at, text_at};
use serde_json::Value;
use std::alloc::Global;
use wv_base::{Items, Memory, Text};

/// A mixin configuration that a mod names.
#[derive(Debug, Drop)]
pub struct MixinConfig {
    /// Its path in the mod's folder.
    pub config: Text,
    /// Where it is loaded.
    pub environment: Environment,
}

/// The configurations at the key `mixins`, which are none where the key isn't there.
pub(crate) fn mixins_at(alloc: Global, value: &Value) -> Result<Option<Items<MixinConfig>>, Memory>
    ensures { IfOk result
        (IsFound (IsOptional IsMixinList [] (get (codes "mixins") (view value.now)))) }
{
    match value.get("mixins") {
        None => Ok(Some(Items::new(alloc))),
        Some(found) => read_mixins(alloc, found),
    }
}

/// The configurations of a list of them. None where the value isn't one.
fn read_mixins(alloc: Global, value: &Value) -> Result<Option<Items<MixinConfig>>, Memory>
    ensures { IfOk result (IsRead IsMixinList (view value.now)) }
{
    match value.as_array() {
        Some(list) => read_list(alloc, list.as_slice()),
        None => Ok(None),
    }
}

/// The configurations that the items name.
fn read_list(alloc: Global, list: &[Value]) -> Result<Option<Items<MixinConfig>>, Memory>
    ensures { IfOk result (IsRead IsMixinList (array (items_view list.now))) }
{
    let mut mixins = Items::new(alloc);
    for item in list {
        let Some(mixin) = read_entry(alloc, item)? else {
            return Ok(None);
        };
        mixins.push(mixin)?;
    }
    Ok(Some(mixins))
}

/// The configuration that an item names: a text, or an object with `config` and `environment`.
fn read_entry(alloc: Global, item: &Value) -> Result<Option<MixinConfig>, Memory>
    ensures { IfOk result (IsFound (IsMixinEntry (view item.now))) }
{
    if let Some(text) = item.as_str() {
        return Ok(Some(MixinConfig {
            config: Text::from_str(alloc, text)?,
            environment: Environment::Both,
        }));
    }
    let Some(config) = text_at(alloc, item, "config")? else {
        return Ok(None);
    };
    let Some(environment) = environment_at(alloc, item, "environment")? else {
        return Ok(None);
    };
    Ok(Some(MixinConfig {
        config,
        environment,
    }))
}
