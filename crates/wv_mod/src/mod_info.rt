//! Mods.
ghost use Rattle.std.specs.Prelude.{IfOk, IfErr};
ghost use Rattle.serde_json.specs.View.{view};
ghost use Rattle.wv_mod.specs.ModInfo.{IsMod, IsModOf};
ghost use Rattle.wv_mod.specs.Flaw.{IsModFault, IsStop, IsStopOf};

use crate::dependency::{Dependency, read_dependencies};
use crate::fault::{Flaw, ModFault, Stop};
use crate::field::has_no_jars;
use crate::manifest::Manifest;
use crate::mixin::MixinConfig;
use serde_json::Value;
use std::alloc::Global;
use wv_base::{Items, Side, Text};
use wv_json::{JsonError, read_object};

/// A mod, as its description has it.
#[derive(Debug, Drop)]
pub struct ModInfo {
    /// The path of the description.
    pub path: Text,
    pub id: Text,
    pub version: Text,
    /// Other ids that it stands for, with its version.
    pub provides: Items<Text>,
    pub mixins: Items<MixinConfig>,
    pub depends: Items<Dependency>,
    pub breaks: Items<Dependency>,
    /// Whether its environment is that of the side.
    pub loaded: bool,
}

/// The mod whose description (fabric.mod.json, schema version 1) has this path and these bytes. A
/// fault is the first of the rules 11 to 14 that the description breaks, with the path as its place.
pub fn read_mod(alloc: Global, path: &Text, bytes: &[u8], side: Side) -> Result<ModInfo, ModFault>
    ensures read { IfOk result (IsMod path.now bytes.now side) }
    ensures fault { IfErr result (IsModFault path.now bytes.now) }
{
    match read_bytes(alloc, path, bytes, side) {
        Ok(info) => Ok(info),
        Err(Stop::Flaw(flaw)) => Err(ModFault::Broken(flaw.broken(alloc, path)?)),
        Err(Stop::Memory) => Err(ModFault::Memory),
    }
}

/// The mod that the bytes describe.
fn read_bytes(alloc: Global, path: &Text, bytes: &[u8], side: Side) -> Result<ModInfo, Stop>
    ensures read { IfOk result (IsMod path.now bytes.now side) }
    ensures stop { IfErr result (IsStopOf bytes.now) }
{
    match read_object(alloc, bytes) {
        Ok(value) => read_value(alloc, path, &value, side),
        Err(JsonError::Wrong) => Err(Stop::Flaw(Flaw::Json)),
        Err(JsonError::Memory) => Err(Stop::Memory),
    }
}

/// The mod that the object describes.
fn read_value(alloc: Global, path: &Text, value: &Value, side: Side) -> Result<ModInfo, Stop>
    ensures read { IfOk result (IsModOf path.now (view value.now) side) }
    ensures stop { IfErr result (IsStop (view value.now)) }
{
    let manifest = Manifest::read(alloc, value)?;
    if let Some(id) = manifest.first_bad_id() {
        return Err(Stop::Flaw(Flaw::Id(id.copy(alloc)?)));
    }
    if !has_no_jars(value) {
        return Err(Stop::Flaw(Flaw::Jars));
    }
    let depends = read_dependencies(alloc, manifest.depends.as_slice())?;
    let breaks = read_dependencies(alloc, manifest.breaks.as_slice())?;
    Ok(ModInfo {
        path: path.copy(alloc)?,
        id: manifest.id,
        version: manifest.version,
        provides: manifest.provides,
        mixins: manifest.mixins,
        depends,
        breaks,
        loaded: manifest.environment.is_for(side),
    })
}
