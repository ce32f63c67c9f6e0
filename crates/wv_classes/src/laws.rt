//! What the contracts of `read_classes` and `load_classes` mean: for any folder there is one answer.
//! Each law stands on a function that does nothing.
ghost use Rattle.std.specs.Prelude.{◌≡◌, List};
ghost use Rattle.wv_base.specs.declared.broken.Broken.{Broken};
ghost use Rattle.wv_base.specs.declared.side.Side.{Side};
ghost use Rattle.wv_base.specs.Folder.{File};
ghost use Rattle.wv_classes.specs.declared.folder_class.FolderClass.{FolderClass};
ghost use Rattle.wv_classes.specs.declared.loaded_class.LoadedClass.{LoadedClass};
ghost use Rattle.wv_classes.specs.FolderClass.{AreFolderClasses};
ghost use Rattle.wv_classes.specs.LoadedClass.{AreLoadedClasses};
ghost use Rattle.wv_classes.specs.Rules.{IsBrokenIn, IsFirstBroken};

/// The class files of a folder are read in one way.
pub fn one_reading()
    ensures { (folder : List File) (side : Side) (classes other : List FolderClass)
        → AreFolderClasses folder side classes → AreFolderClasses folder side other → classes ≡ other }
{}

/// The classes of a folder are loaded in one way.
pub fn one_loading()
    ensures { (folder : List File) (side : Side) (loaded other : List LoadedClass)
        → AreLoadedClasses folder side loaded → AreLoadedClasses folder side other → loaded ≡ other }
{}

/// One of the rules 30 to 32 is the first that a folder breaks, at one place.
pub fn one_refusal()
    ensures { (folder : List File) (side : Side) (broken other : Broken)
        → IsFirstBroken folder side broken → IsFirstBroken folder side other → broken ≡ other }
{}

/// A folder whose classes are loaded breaks none of the rules 30 to 32.
pub fn loaded_or_refused()
    ensures { (folder : List File) (side : Side) (loaded : List LoadedClass) (broken : Broken)
        → AreLoadedClasses folder side loaded → IsBrokenIn folder side broken → ⊥ }
{}
