//! Classes of a folder.
ghost use Rattle.std.specs.Prelude.{IfOk, IfErr};
ghost use Rattle.wv_classes.specs.LoadedClass.{AreLoadedClasses};
ghost use Rattle.wv_classes.specs.Rules.{IsFirstBroken, IsBrokenFault};

use crate::checking::check_classes;
use crate::fault::ClassesFault;
use crate::folder_class::read_classes;
use std::alloc::Global;
use wv_base::{ClassFile, Folder, Side, Text};

/// A class of the game or of a loaded mod, which has the name that its path says.
#[derive(Debug, Drop)]
pub struct LoadedClass {
    /// The path of its file in the folder.
    pub path: Text,
    /// The name that its path says: what follows `game/` or `mods/F/`, without `.class`.
    pub name: Text,
    pub class: ClassFile,
}

/// The classes of a folder on one side, by the bytes of their paths.
///
/// A fault is the first of the rules 30 to 32 that a class file of the folder breaks, as
/// `check_classes` says. The least rule counts, and of the class files that break it the first by
/// its path. It takes time linear in the files and their bytes, but for a logarithm.
pub fn load_classes(
    alloc: Global,
    folder: &Folder,
    side: Side,
) -> Result<Vec<LoadedClass>, ClassesFault>
    ensures loaded { IfOk result (λ loaded. AreLoadedClasses folder.now side loaded.items) }
    ensures fault { IfErr result (IsBrokenFault (IsFirstBroken folder.now side)) }
{
    check_classes(alloc, read_classes(alloc, folder, side)?)
}
