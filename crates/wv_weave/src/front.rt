//! What an opened folder is read as, and the rules up to the merging of its mixins.
ghost use Rattle.std.specs.Prelude.{◌≡◌, IfOk, IfErr, OnOk, List};
ghost use Rattle.std.specs.List.{AllZip};
ghost use Rattle.wv_base.specs.declared.side.Side.{Side as GameSide};
ghost use Rattle.wv_base.specs.Folder.{File};
ghost use Rattle.wv_classes.specs.FolderClass.{AreFolderClasses};
ghost use Rattle.wv_classes.specs.LoadedClass.{AreLoadedClasses, IsLoadedAs};
ghost use Rattle.wv_classes.specs.Rules.{IsFirstBroken as IsFirstBrokenClass};
ghost use Rattle.wv_front.specs.Opening.{IsBrokenFault, IsOpened};
ghost use Rattle.wv_weave.specs.FolderMixins.{HasConfigs, HasGame, HasMods, built_in};
ghost use Rattle.wv_weave.specs.Formed.{AreFormed};
ghost use Rattle.wv_weave.specs.FrontRead.{IsFront, KeepsFront};
ghost use Rattle.wv_weave.specs.Stages.{Breaks, IsFirstBroken, Keeps, ConfigFiles, Mods};

use std::alloc::Global;
use wv_base::{Folder, Memory, Side, Text};
use wv_classes::{ClassesFault, FolderClass, LoadedClass, check_classes, read_classes};
use wv_config::{ConfigFault, Configs, load_configs};
use wv_form::check_form;
use wv_front::{AppliedMixin, WeaveFault, check_listed, check_marked, order_mixins};
use wv_mod::{GameInfo, ModFault, ModInfo, read_game};
use wv_resolve::load_mods;

/// The path of the description of the game.
const GAME_JSON: &str = "game/game.json";

/// What an opened folder is read as: its configurations, its classes by their paths, and the mixins
/// that are applied in their order.
#[derive(Drop)]
pub(crate) struct Front {
    pub(crate) configs: Configs,
    pub(crate) classes: Vec<LoadedClass>,
    pub(crate) mixins: Vec<AppliedMixin>,
}

/// Reads an opened folder. A fault is the first broken rule up to 40.
pub(crate) fn read_front(alloc: Global, folder: &Folder, side: Side) -> Result<Front, WeaveFault>
    requires { IsOpened folder.now }
    ensures read { IfOk result (IsFront folder.now side) }
    ensures formed { IfOk result (λ front. AreFormed front.classes.items) }
    ensures kept { OnOk result (KeepsFront folder.now side) }
    ensures broken { IfErr result (IsBrokenFault (IsFirstBroken folder.now side)) }
{
    let files = read_classes(alloc, folder, side)?;
    check_form(alloc, folder, files.as_slice())?;
    let mods = mods(alloc, folder, side)?;
    let configs = configs(alloc, folder, mods.as_slice(), side)?;
    check_listed(alloc, &configs, files.as_slice())?;
    let classes = classes(alloc, files)?;
    let mixins = order_mixins(alloc, &configs, classes.as_slice(), side)?;
    check_marked(alloc, mixins.as_slice(), classes.as_slice())?;
    Ok(Front {
        configs,
        classes,
        mixins,
    })
}

/// The game of an opened folder.
fn game(alloc: Global, folder: &Folder) -> Result<GameInfo, Memory>
    requires { IsOpened folder.now }
    ensures { IfOk result (HasGame folder.now) }
{
    let Some(content) = folder.find(GAME_JSON) else {
        unreachable!()
    };
    match read_game(alloc, content.as_slice()) {
        Ok(game) => Ok(game),
        Err(ModFault::Broken(_)) => unreachable!(),
        Err(ModFault::Memory) => Err(Memory),
    }
}

/// The game's id and what is built in, with their versions.
fn built_in(alloc: Global, game: &GameInfo) -> Result<Vec<(Text, Text)>, Memory>
    ensures { IfOk result (λ entries. entries.items ≡ built_in game.now) }
{
    let mut entries = Vec::new(alloc);
    entries.push((game.id.copy(alloc)?, game.version.copy(alloc)?))?;
    for (id, version) in game.builtin.as_slice() {
        entries.push((id.copy(alloc)?, version.copy(alloc)?))?;
    }
    Ok(entries)
}

/// The loaded mods of an opened folder. A fault is the first broken rule of 10 to 17.
fn mods(alloc: Global, folder: &Folder, side: Side) -> Result<Vec<ModInfo>, WeaveFault>
    requires { IsOpened folder.now }
    ensures loaded { IfOk result (λ mods. HasMods folder.now side mods.items) }
    ensures kept { OnOk result (Keeps folder.now side Mods) }
    ensures broken { IfErr result (IsBrokenFault (λ broken. Breaks folder.now side broken Mods)) }
{
    let game = game(alloc, folder)?;
    let present = built_in(alloc, &game)?;
    match load_mods(alloc, folder, present.as_slice(), side) {
        Ok(mods) => Ok(mods),
        Err(ModFault::Broken(broken)) => Err(WeaveFault::Broken(broken)),
        Err(ModFault::Memory) => Err(WeaveFault::Memory),
    }
}

/// The configurations that loaded mods name. A fault is the first broken rule of 20 to 23.
fn configs(
    alloc: Global,
    folder: &Folder,
    mods: &[ModInfo],
    side: Side,
) -> Result<Configs, WeaveFault>
    requires { HasMods folder.now side mods.now }
    ensures loaded { IfOk result (HasConfigs folder.now side) }
    ensures kept { OnOk result (Keeps folder.now side ConfigFiles) }
    ensures broken { IfErr result (IsBrokenFault (λ broken. Breaks folder.now side broken ConfigFiles)) }
{
    match load_configs(alloc, folder, mods, side) {
        Ok(configs) => Ok(configs),
        Err(ConfigFault::Broken(broken)) => Err(WeaveFault::Broken(broken)),
        Err(ConfigFault::Memory) => Err(WeaveFault::Memory),
    }
}

/// The classes of class files of a folder. A fault is the first broken rule of 30 to 32.
fn classes(alloc: Global, files: Vec<FolderClass>) -> Result<Vec<LoadedClass>, WeaveFault>
    ensures loaded { (folder : List File) (side : GameSide) → AreFolderClasses folder side files.items
        → IfOk result (λ classes. AreLoadedClasses folder side classes.items) }
    ensures each { IfOk result (λ classes. AllZip IsLoadedAs files.items classes.items) }
    ensures broken { (folder : List File) (side : GameSide) → AreFolderClasses folder side files.items
        → IfErr result (IsBrokenFault (IsFirstBrokenClass folder side)) }
{
    match check_classes(alloc, files) {
        Ok(classes) => Ok(classes),
        Err(ClassesFault::Broken(broken)) => Err(WeaveFault::Broken(broken)),
        Err(ClassesFault::Memory) => Err(WeaveFault::Memory),
    }
}
