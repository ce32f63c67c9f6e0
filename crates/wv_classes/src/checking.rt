//! Whether class files keep the rules on each by itself.
ghost use Rattle.std.specs.Prelude.{◌≡◌, ◌↔◌, ◌≤◌, IsTrue, IfOk, IfErr, MatchBool};
ghost use Rattle.std.specs.List.{AllZip};
ghost use Rattle.wv_classes.specs.Refusal.{IsOfVersions, IsTextOf};
ghost use Rattle.wv_classes.specs.Rules.{IsLeastOf, IsLeastBreak, IsBrokenFault};
ghost use Rattle.wv_classes.specs.LoadedClass.{IsLoadedAs};

use crate::class_read::ClassRead;
use crate::fault::ClassesFault;
use crate::folder_class::FolderClass;
use crate::loaded_class::LoadedClass;
use crate::refusal::{bad_layout, bad_reference, other_name, other_version};
use std::alloc::Global;
use wv_base::{Broken, ClassFile, Memory, Name, Text};

/// The classes of these class files, in their order.
///
/// A fault is the first of these rules that one of them breaks: 30, the bytes are no class file, or
/// an item breaks what it must meet; 31, the version isn't one of Java 6 to 8; 32, the class has
/// another name than its path says. The least rule counts, and of the class files that break it the
/// first.
pub fn check_classes(
    alloc: Global,
    classes: Vec<FolderClass>,
) -> Result<Vec<LoadedClass>, ClassesFault>
    ensures loaded { IfOk result (λ loaded. AllZip IsLoadedAs classes.items loaded.items) }
    ensures fault { IfErr result (IsBrokenFault (IsLeastBreak classes.items)) }
{
    let mut checking = Checking {
        loaded: Vec::new(alloc),
        first: None,
    };
    for class in classes {
        let checked = check_class(alloc, class);
        checking.add(checked)?;
    }
    checking.finish()
}

/// The class of a class file. A fault is the first of the rules 30 to 32 that it breaks.
fn check_class(alloc: Global, class: FolderClass) -> Result<LoadedClass, ClassesFault>
    ensures loaded { IfOk result (IsLoadedAs class) }
    ensures fault { IfErr result (IsBrokenFault (IsLeastOf class)) }
{
    let FolderClass { path, name, read } = class;
    let broken = match read {
        ClassRead::Layout(at) => bad_layout(alloc, &path, at)?,
        ClassRead::Reference(at) => bad_reference(alloc, &path, at)?,
        ClassRead::Class(class) => {
            if !is_of_versions(class.version.major) {
                other_version(alloc, &path, &class)?
            } else if !is_text_of(alloc, &class.name, &name)? {
                other_name(alloc, &path, &name, &class)?
            } else {
                return Ok(LoadedClass { path, name, class });
            }
        }
    };
    Err(ClassesFault::Broken(broken))
}

/// Whether the major version is one of Java 6 to 8.
fn is_of_versions(major: u16) -> bool
    ensures { IsTrue result ↔ IsOfVersions major }
{
    50 <= major && major <= 52
}

/// Whether the name is this text. A name in which a surrogate has no partner is no text.
fn is_text_of(alloc: Global, name: &Name, text: &Text) -> Result<bool, Memory>
    ensures { IfOk result (λ same. IsTrue same ↔ IsTextOf name.now text.now) }
{
    match String::from_utf16(alloc, name.units())? {
        Ok(spelled) => Ok(spelled.as_str() == text.as_str()),
        Err(_) => Ok(false),
    }
}

/// What was found of class files so far.
#[derive(Drop)]
struct Checking {
    /// The classes of those that break no rule.
    loaded: Vec<LoadedClass>,
    /// The first rule that they break: the one with the smallest number, and of the same the earliest.
    first: Option<Broken>,
}

impl Checking {
    ghost use Rattle.std.specs.Prelude.{◌<◌, List, [], ◌∷◌, ◌++◌, IfSome, IsSomeAnd, MatchResult, OnOk};
    ghost use Rattle.wv_base.specs.Rule.{number_of};
    ghost use Rattle.wv_classes.specs.declared.folder_class.FolderClass.{FolderClass as ClassOfFolder};
    ghost use Rattle.wv_classes.specs.Checking.{IsCheckingOf};

    /// Adds what was found of one class file more, which comes after the others.
    fn add(&mut self, checked: Result<LoadedClass, ClassesFault>) -> Result<(), Memory>
        ensures { (done : List ClassOfFolder) (next : ClassOfFolder) → IsCheckingOf done self.old
            → MatchResult checked (IsLoadedAs next) (IsBrokenFault (IsLeastOf next))
            → OnOk result (IsCheckingOf (done ++ next ∷ []) self.new) }
    {
        match checked {
            Ok(class) => self.loaded.push(class)?,
            Err(ClassesFault::Broken(broken)) => {
                if self.takes(&broken) {
                    self.first = Some(broken);
                }
            }
            Err(ClassesFault::Memory) => return Err(Memory),
        }
        Ok(())
    }

    /// Whether the rule has a smaller number than the first so far.
    fn takes(&self, broken: &Broken) -> bool
        ensures { MatchBool result
            (IfSome self.now.first (λ first. number_of broken.now.rule < number_of first.rule))
            (IsSomeAnd self.now.first (λ first. number_of first.rule ≤ number_of broken.now.rule)) }
    {
        match &self.first {
            Some(first) => broken.rule.number() < first.rule.number(),
            None => true,
        }
    }

    /// The classes, or the first rule that is broken.
    fn finish(self) -> Result<Vec<LoadedClass>, ClassesFault>
        ensures loaded { (done : List ClassOfFolder) → IsCheckingOf done self
            → IfOk result (λ loaded. AllZip IsLoadedAs done loaded.items) }
        ensures fault { (done : List ClassOfFolder) → IsCheckingOf done self
            → IfErr result (IsBrokenFault (IsLeastBreak done)) }
    {
        let Checking { loaded, first } = self;
        match first {
            None => Ok(loaded),
            Some(broken) => Err(ClassesFault::Broken(broken)),
        }
    }
}
