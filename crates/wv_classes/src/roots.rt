//! Where the class files of a folder lie.
ghost use Rattle.std.specs.Prelude.{◌≡◌, ℕ, List, IfOk, MatchOption};
ghost use Rattle.wv_base.specs.Folder.{File};
ghost use Rattle.wv_base.specs.declared.side.Side.{Side as GameSide};
ghost use Rattle.wv_resolve.specs.Discovery.{LiesIn};
ghost use Rattle.wv_resolve.specs.Finding.{texts_at};
ghost use Rattle.wv_classes.specs.ClassPath.{LiesBehind, IsClassPath};
ghost use Rattle.wv_classes.specs.Roots.{HasExactly, AreRoots};

use std::alloc::Global;
use std::collections::BTreeSet;
use wv_base::{Folder, Memory, Side};
use wv_resolve::{is_read, loaded_folders};

/// The folders in which class files lie: `game/`, and those of loaded mods.
#[derive(Drop)]
pub(crate) struct Roots<'a> {
    /// The names F of the folders `mods/F/`.
    mods: BTreeSet<&'a str>,
}

impl<'a> Roots<'a> {
    pub(crate) fn find(alloc: Global, folder: &'a Folder, side: Side) -> Result<Roots<'a>, Memory>
        ensures { IfOk result (AreRoots folder.now side) }
    {
        let names = loaded_folders(alloc, folder, side)?;
        Ok(Roots {
            mods: set_of(alloc, names.as_slice())?,
        })
    }

    /// The name of the class whose file has this path, as the path says. It takes time logarithmic
    /// in the number of mods.
    pub(crate) fn class_name<'p>(&self, path: &'p str) -> Option<&'p str>
        ensures { (folder : List File) (side : GameSide) → AreRoots folder side self.now → MatchOption result
            ((name : List ℕ) → IsClassPath folder side path.now name → ⊥)
            (λ name. IsClassPath folder side path.now name.now) }
    {
        if !is_read(path) {
            return None;
        }
        self.behind(path)?.strip_suffix(".class")
    }

    /// What follows the folder in a path.
    fn behind<'p>(&self, path: &'p str) -> Option<&'p str>
        ensures { (folder : List File) (side : GameSide) → AreRoots folder side self.now → MatchOption result
            ((rest : List ℕ) → LiesBehind folder side path.now rest → ⊥)
            (λ rest. LiesBehind folder side path.now rest.now) }
    {
        if let Some(rest) = path.strip_prefix("game/") {
            return Some(rest);
        }
        let (name, rest) = mod_parts(path)?;
        if self.mods.contains(name) {
            Some(rest)
        } else {
            None
        }
    }
}

fn set_of<'a>(alloc: Global, names: &[&'a str]) -> Result<BTreeSet<&'a str>, Memory>
    ensures { IfOk result (HasExactly (texts_at names.now)) }
{
    let mut set = BTreeSet::new(alloc);
    for name in names {
        set.insert(*name)?;
    }
    Ok(set)
}

/// The name of the folder of a mod in which a path lies, and what follows it.
fn mod_parts(path: &str) -> Option<(&str, &str)>
    ensures { MatchOption result
        ((name : List ℕ) → LiesIn name path.now → ⊥)
        (λ parts. (lies : LiesIn parts.0.now path.now) × (parts.1.now ≡ lies.further)) }
{
    path.strip_prefix("mods/")?.split_once('/')
}
