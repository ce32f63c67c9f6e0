//! Whether the class files of a folder have the form that is built so far.
ghost use Rattle.std.specs.Prelude.{◌≡◌, IfOk, IfErr, OnOk};
ghost use Rattle.wv_front.specs.Opening.{IsBrokenFault};
ghost use Rattle.wv_form.specs.Form.{AreOfForm, IsFirstOutOfForm, out_of_form};

use crate::kinds::known_files;
use crate::tables::Tables;
use std::alloc::Global;
use wv_base::{Broken, Folder, Rule};
use wv_classes::FolderClass;
use wv_front::WeaveFault;

/// Checks that the class files of a folder have the form that is built so far.
///
/// A class file that spells a class has it where the class is thin, as a class of the game or as a
/// mixin; its name stands at no other path; and it names no thin mixin but itself. Of a mixin,
/// besides, the target has to be a thin class of the folder, or have a class file that spells none,
/// which a later rule tells; and no other thin mixin has the same.
///
/// Rule 9 (OutOfForm) is broken at each class file that spells a class and hasn't the form; the
/// fault is the first by path, or want of memory.
///
/// It takes time linear in the class files and what they name, but for a logarithm.
pub fn check_form(alloc: Global, folder: &Folder, classes: &[FolderClass]) -> Result<(), WeaveFault>
    ensures formed { OnOk result (AreOfForm folder.now classes.now) }
    ensures broken { IfErr result (IsBrokenFault (IsFirstOutOfForm folder.now classes.now)) }
{
    let files = known_files(alloc, folder, classes)?;
    let tables = Tables::of(alloc, files.as_slice())?;
    for known in files.as_slice() {
        if !tables.have(alloc, known)? {
            let path = known.file.path.as_str();
            return Err(WeaveFault::Broken(Broken::at_file(alloc, Rule::OutOfForm, path)?));
        }
    }
    Ok(())
}
