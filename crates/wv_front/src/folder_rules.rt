//! The rules on what a folder lists, one by one.
ghost use Rattle.std.specs.Prelude.{◌≡◌, codes, IsTrue, ◌↔◌, IfOk, IfErr, OnOk, MatchOption, Some};
ghost use Rattle.wv_base.specs.Folder.{content_of};
ghost use Rattle.wv_mod.specs.FirstBroken.{IsKept, IsFirstBreak};
ghost use Rattle.wv_mod.specs.GameFlaw.{IsGameBroken};
ghost use Rattle.wv_resolve.specs.Presence.{game_path};
ghost use Rattle.wv_model.specs.FolderRead.{has_ending};
ghost use Rattle.wv_front.specs.Opening.{HasJar, HasTooMuch, IsFirstUnlisted, LacksGame, PassesAt, IsBrokenFault, jar_file};

use crate::fault::WeaveFault;
use crate::limit::passing;
use std::alloc::Global;
use wv_base::{Broken, Bytes, Folder, Rule};
use wv_mod::{ModFault, read_game};

/// The path of the description of the game.
pub(crate) const GAME_JSON: &str = "game/game.json";

/// Whether a path ends in `.jar`.
fn is_jar(path: &str) -> bool
    ensures { result ≡ has_ending path.now (codes ".jar") }
{
    path.as_bytes().ends_with(b".jar")
}

/// The first listed path that ends in `.jar`.
fn first_jar(folder: &Folder) -> Option<&str>
    ensures { MatchOption result
        (IsKept (HasJar folder.now))
        (λ path. IsFirstBreak (HasJar folder.now) (jar_file path.now)) }
{
    for (path, _) in folder.files() {
        if is_jar(path.as_str()) {
            return Some(path.as_str());
        }
    }
    None
}

/// Rule 1: no listed path ends in `.jar`.
fn no_jar(alloc: Global, folder: &Folder) -> Result<(), WeaveFault>
    ensures kept { OnOk result (IsKept (HasJar folder.now)) }
    ensures broken { IfErr result (IsBrokenFault (IsFirstBreak (HasJar folder.now))) }
{
    match first_jar(folder) {
        None => Ok(()),
        Some(path) => {
            let broken = Broken::at_file(alloc, Rule::JarFile, path)?;
            Err(WeaveFault::Broken(broken))
        }
    }
}

/// Rule 2: the description of the game is listed. It has this content.
fn game_content(alloc: Global, folder: &Folder) -> Result<&Bytes, WeaveFault>
    ensures kept { OnOk result (IsKept (LacksGame folder.now)) }
    ensures content { IfOk result (λ content. content_of game_path folder.now ≡ Some content.now) }
    ensures broken { IfErr result (IsBrokenFault (IsFirstBreak (LacksGame folder.now))) }
{
    match folder.find(GAME_JSON) {
        Some(content) => Ok(content),
        None => {
            let broken = Broken::at_file(alloc, Rule::GameMissing, GAME_JSON)?;
            Err(WeaveFault::Broken(broken))
        }
    }
}

/// Rules 1 and 2: no listed path ends in `.jar`, and the description of the game is listed. It has
/// this content.
pub(crate) fn listed_game(alloc: Global, folder: &Folder) -> Result<&Bytes, WeaveFault>
    ensures jars { OnOk result (IsKept (HasJar folder.now)) }
    ensures listed { OnOk result (IsKept (LacksGame folder.now)) }
    ensures content { IfOk result (λ content. content_of game_path folder.now ≡ Some content.now) }
    ensures broken { IfErr result (IsBrokenFault (IsFirstUnlisted folder.now)) }
{
    no_jar(alloc, folder)?;
    game_content(alloc, folder)
}

/// Rule 3: the description of the game is as it has to be.
pub(crate) fn right_game(alloc: Global, content: &Bytes) -> Result<(), WeaveFault>
    ensures kept { OnOk result (IsKept (IsGameBroken content.now)) }
    ensures broken { IfErr result (IsBrokenFault (IsGameBroken content.now)) }
{
    match read_game(alloc, content.as_slice()) {
        Ok(_) => Ok(()),
        Err(ModFault::Broken(broken)) => Err(WeaveFault::Broken(broken)),
        Err(ModFault::Memory) => Err(WeaveFault::Memory),
    }
}

/// Rule 5: no limit is passed, each file having the bytes that it has in the folder.
pub(crate) fn within_limits(alloc: Global, folder: &Folder) -> Result<(), WeaveFault>
    ensures kept { OnOk result (IsKept (HasTooMuch (PassesAt folder.now))) }
    ensures broken { IfErr result (IsBrokenFault (IsFirstBreak (HasTooMuch (PassesAt folder.now)))) }
{
    match passing(folder) {
        None => Ok(()),
        Some((path, limit)) => {
            let broken = limit.too_much(alloc, path)?;
            Err(WeaveFault::Broken(broken))
        }
    }
}
