//! What the contract of `check_form` means: class files have the form, or one of them is the first that
//! hasn't. Each law stands on a function that does nothing.
ghost use Rattle.std.specs.Prelude.{◌≡◌, List};
ghost use Rattle.wv_base.specs.declared.broken.Broken.{Broken};
ghost use Rattle.wv_base.specs.Folder.{File};
ghost use Rattle.wv_classes.specs.declared.folder_class.FolderClass.{FolderClass};
ghost use Rattle.wv_form.specs.Form.{AreOfForm, IsFirstOutOfForm};
ghost use Rattle.wv_form.specs.NamedExamples.{AreDescriptorExamples, AreConstantExamples};

/// Where all class files have the form, none is the first that hasn't.
pub fn form_or_refused()
    ensures { (folder : List File) (classes : List FolderClass) (broken : Broken)
        → AreOfForm folder classes → IsFirstOutOfForm folder classes broken → ⊥ }
{}

/// Class files without the form are refused in one way.
pub fn one_form_refusal()
    ensures { (folder : List File) (classes : List FolderClass) (broken other : Broken)
        → IsFirstOutOfForm folder classes broken → IsFirstOutOfForm folder classes other → broken ≡ other }
{}

/// Which classes some descriptors and constants name.
pub fn named_classes_examples()
    ensures descriptors { AreDescriptorExamples }
    ensures constants { AreConstantExamples }
{}
