//! The folders of a folder's loaded mods.
ghost use Rattle.std.specs.Prelude.{IfOk, MatchBool};
ghost use Rattle.wv_resolve.specs.Finding.{texts_at};
ghost use Rattle.wv_resolve.specs.LoadedFolder.{SaysLoaded, AreLoadedFolders};

use crate::discovery::mod_folders;
use std::alloc::Global;
use wv_base::{Folder, Memory, Side, Text};
use wv_mod::{ModFault, read_mod};

/// The names F of the folders `mods/F/` whose mods are loaded on one side, by the bytes of the paths
/// of their descriptions, each once.
///
/// A mod without a description, or with one that breaks a rule, isn't among them: `load_mods` tells
/// of these. The only error is want of memory. It takes time linear in the files and descriptions,
/// but for a logarithm.
pub fn loaded_folders<'a>(
    alloc: Global,
    folder: &'a Folder,
    side: Side,
) -> Result<Vec<&'a str>, Memory>
    ensures { IfOk result (λ names. AreLoadedFolders folder.now side (texts_at names.items)) }
{
    let folders = mod_folders(alloc, folder)?;
    let mut loaded = Vec::new(alloc);
    for name in folders.as_slice() {
        if says_loaded(alloc, folder, side, name)? {
            loaded.push(*name)?;
        }
    }
    Ok(loaded)
}

/// Whether the mod in the folder of this name has a description that breaks no rule, and is loaded
/// on the side.
fn says_loaded(alloc: Global, folder: &Folder, side: Side, name: &str) -> Result<bool, Memory>
    ensures { IfOk result (λ says. MatchBool says
        (SaysLoaded folder.now side name.now)
        (SaysLoaded folder.now side name.now → ⊥)) }
{
    let path = Text::from_string(format!(in alloc; "mods/{name}/fabric.mod.json")?);
    let Some(bytes) = folder.find(path.as_str()) else {
        return Ok(false);
    };
    match read_mod(alloc, &path, bytes.as_slice(), side) {
        Ok(info) => Ok(info.loaded),
        Err(ModFault::Broken(_)) => Ok(false),
        Err(ModFault::Memory) => Err(Memory),
    }
}
