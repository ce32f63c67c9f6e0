//! Class files of a folder.
ghost use Rattle.std.specs.Prelude.{IfOk};
ghost use Rattle.wv_classes.specs.FolderClass.{AreFolderClasses};

use crate::class_read::ClassRead;
use crate::roots::Roots;
use std::alloc::Global;
use wv_base::{Folder, Memory, Side, Text};

/// A class file of the game or of a loaded mod, as its bytes are.
#[derive(Debug, Drop)]
pub struct FolderClass {
    /// Its path in the folder.
    pub path: Text,
    /// The name that its path says: what follows `game/` or `mods/F/`, without `.class`.
    pub name: Text,
    pub read: ClassRead,
}

/// The class files of a folder on one side, by the bytes of their paths.
///
/// A class file lies in `game/`, or in `mods/F/` where the mod in this folder is loaded, has a path
/// that is read, and ends in `.class`. What its bytes are is told with it, whether it is a class or
/// not. The only error is want of memory. It takes time linear in the files and their bytes, but for
/// a logarithm.
pub fn read_classes(alloc: Global, folder: &Folder, side: Side) -> Result<Vec<FolderClass>, Memory>
    ensures { IfOk result (λ classes. AreFolderClasses folder.now side classes.items) }
{
    let roots = Roots::find(alloc, folder, side)?;
    let mut classes = Vec::new(alloc);
    for (path, bytes) in folder.files() {
        if let Some(name) = roots.class_name(path.as_str()) {
            classes.push(FolderClass {
                path: path.copy(alloc)?,
                name: Text::from_str(alloc, name)?,
                read: ClassRead::of(alloc, bytes.as_slice())?,
            })?;
        }
    }
    Ok(classes)
}
