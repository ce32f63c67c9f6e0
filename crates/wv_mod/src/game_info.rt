//! The game.
ghost use Rattle.std.specs.Prelude.{◌≡◌, IfOk, IfErr, List, ℕ};
ghost use Rattle.serde_json.specs.View.{view};
ghost use Rattle.wv_json.specs.Object.{IsObjectText};
ghost use Rattle.wv_mod.specs.Field.{IsFound};
ghost use Rattle.wv_mod.specs.GameInfo.{HasBuiltin, HasMain, IsGame, IsGameOf};
ghost use Rattle.wv_mod.specs.GameFlaw.{IsGameFault, IsGameStop};

use crate::fault::ModFault;
use crate::field::text_at;
use crate::game_flaw::{GameFlaw, GameStop};
use crate::slashes::{is_class_name, with_slashes};
use serde_json::Value;
use std::alloc::Global;
use wv_base::{Items, Memory, Text};
use wv_json::{JsonError, read_object, read_text_members};

/// The game, as its description `game/game.json` has it (our own).
#[derive(Debug, Drop)]
pub struct GameInfo {
    pub id: Text,
    pub version: Text,
    /// The name of the class that a run begins with, in internal form: with slashes, though it may
    /// be written with dots.
    pub main: Text,
    /// Ids that are present besides the game's, with their versions, in the order of the ids' bytes.
    pub builtin: Items<(Text, Text)>,
}

/// The game that `game/game.json` with these bytes describes: an object with the texts `id`,
/// `version` and `main`, the name of a class, and maybe `builtin`, an object from ids to versions.
/// Other keys are read past.
///
/// Rule 3 (GameBad) is broken where the bytes aren't so: `found` is the first that is wrong of
/// `json`, where they are no JSON object, and `id`, `version`, `main` and `builtin`.
pub fn read_game(alloc: Global, bytes: &[u8]) -> Result<GameInfo, ModFault>
    ensures read { IfOk result (IsGame bytes.now) }
    ensures fault { IfErr result (IsGameFault bytes.now) }
{
    match read_bytes(alloc, bytes) {
        Ok(info) => Ok(info),
        Err(GameStop::Flaw(flaw)) => Err(ModFault::Broken(flaw.broken(alloc)?)),
        Err(GameStop::Memory) => Err(ModFault::Memory),
    }
}

/// The game that the bytes describe.
fn read_bytes(alloc: Global, bytes: &[u8]) -> Result<GameInfo, GameStop>
    ensures read { IfOk result (IsGame bytes.now) }
    ensures stop { IfErr result (IsGameStop bytes.now) }
{
    match read_object(alloc, bytes) {
        Ok(value) => read_value(alloc, &value),
        Err(JsonError::Wrong) => Err(GameStop::Flaw(GameFlaw::Json)),
        Err(JsonError::Memory) => Err(GameStop::Memory),
    }
}

/// The game that the object describes.
fn read_value(alloc: Global, value: &Value) -> Result<GameInfo, GameStop>
    ensures read { IfOk result (IsGameOf (view value.now)) }
    ensures stop { (bytes : List ℕ) → IsObjectText bytes (view value.now)
        → IfErr result (IsGameStop bytes) }
{
    let Some(id) = text_at(alloc, value, "id")? else {
        return Err(GameStop::Flaw(GameFlaw::Id));
    };
    let Some(version) = text_at(alloc, value, "version")? else {
        return Err(GameStop::Flaw(GameFlaw::Version));
    };
    let Some(main) = main_at(alloc, value)? else {
        return Err(GameStop::Flaw(GameFlaw::Main));
    };
    let Some(builtin) = builtin_at(alloc, value)? else {
        return Err(GameStop::Flaw(GameFlaw::Builtin));
    };
    Ok(GameInfo {
        id,
        version,
        main,
        builtin,
    })
}

/// The name of a class at the key `main`, with slashes.
fn main_at(alloc: Global, value: &Value) -> Result<Option<Text>, Memory>
    ensures { IfOk result (IsFound (HasMain (view value.now))) }
{
    let Some(text) = text_at(alloc, value, "main")? else {
        return Ok(None);
    };
    let main = with_slashes(alloc, text.as_str())?;
    if is_class_name(main.as_str()) {
        Ok(Some(main))
    } else {
        Ok(None)
    }
}

/// The ids with their versions at the key `builtin`, which are none where the key isn't there.
fn builtin_at(alloc: Global, value: &Value) -> Result<Option<Items<(Text, Text)>>, Memory>
    ensures { IfOk result (IsFound (HasBuiltin (view value.now))) }
{
    match value.get("builtin") {
        None => Ok(Some(Items::new(alloc))),
        Some(found) => read_text_members(alloc, found),
    }
}
