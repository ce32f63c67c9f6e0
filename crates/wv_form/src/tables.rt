//! What the form asks of a class file beside others.
ghost use Rattle.std.specs.Prelude.{◌≡◌, List, IfOk, MatchBool, map};
ghost use Rattle.std.specs.List.{flat_map};
ghost use Rattle.wv_classes.specs.Roots.{HasExactly};
ghost use Rattle.wv_form.specs.Placing.{TellsPlaces};
ghost use Rattle.wv_form.specs.Tables.{name_place, target_places, candidate_names, mixin_names};

use crate::kinds::{FileKind, KnownFile};
use crate::mention::OtherMixins;
use crate::placing::{Place, add_place, stands_elsewhere};
use std::alloc::Global;
use std::collections::{BTreeMap, BTreeSet};
use wv_base::{ClassFile, Memory, Text};
use wv_classes::FolderClass;

/// The paths of class files by their names.
fn places_of_names<'a>(
    alloc: Global,
    files: &'a [KnownFile<'a>],
) -> Result<BTreeMap<&'a str, Place<'a>>, Memory>
    ensures { IfOk result (TellsPlaces (map name_place files.now)) }
{
    let mut table = BTreeMap::new(alloc);
    for known in files {
        add_place(
            &mut table,
            known.file.name.as_str(),
            known.file.path.as_str(),
        )?;
    }
    Ok(table)
}

/// The paths of mixins by the names of their targets.
fn places_of_targets<'a>(
    alloc: Global,
    files: &'a [KnownFile<'a>],
) -> Result<BTreeMap<&'a str, Place<'a>>, Memory>
    ensures { IfOk result (TellsPlaces (flat_map target_places files.now)) }
{
    let mut table = BTreeMap::new(alloc);
    for known in files {
        if let Some(target) = known.target_name() {
            add_place(&mut table, target, known.file.path.as_str())?;
        }
    }
    Ok(table)
}

/// The names of class files that a mixin's target may have.
fn names_of_candidates<'a>(
    alloc: Global,
    files: &'a [KnownFile<'a>],
) -> Result<BTreeSet<&'a str>, Memory>
    ensures { IfOk result (HasExactly (flat_map candidate_names files.now)) }
{
    let mut names = BTreeSet::new(alloc);
    for known in files {
        if let Some(name) = known.candidate_name() {
            names.insert(name)?;
        }
    }
    Ok(names)
}

/// The names of thin mixins.
fn names_of_mixins<'a>(
    alloc: Global,
    files: &'a [KnownFile<'a>],
) -> Result<BTreeSet<&'a str>, Memory>
    ensures { IfOk result (HasExactly (flat_map mixin_names files.now)) }
{
    let mut names = BTreeSet::new(alloc);
    for known in files {
        if let Some(name) = known.mixin_name() {
            names.insert(name)?;
        }
    }
    Ok(names)
}

/// What is looked up of the class files of a folder.
#[derive(Drop)]
pub(crate) struct Tables<'a> {
    /// The paths of class files by their names.
    names: BTreeMap<&'a str, Place<'a>>,
    /// The paths of mixins by the names of their targets.
    targets: BTreeMap<&'a str, Place<'a>>,
    /// The names of class files that a mixin's target may have.
    candidates: BTreeSet<&'a str>,
    /// The names of thin mixins.
    mixins: BTreeSet<&'a str>,
}

impl<'a> Tables<'a> {
    ghost use Rattle.wv_form.specs.declared.kinds.KnownFile.{KnownFile as Known};
    ghost use Rattle.wv_form.specs.Form.{IsOfForm, IsOutOfForm};
    ghost use Rattle.wv_form.specs.Kinds.{AreKnown, IsKnown};
    ghost use Rattle.wv_form.specs.Tables.{AreTables, Clashes, StandsAlone, is_right};
    ghost use Rattle.wv_base.specs.Folder.{File};
    ghost use Rattle.wv_classes.specs.declared.folder_class.FolderClass.{FolderClass as ClassOfFolder};

    pub(crate) fn of(alloc: Global, files: &'a [KnownFile<'a>]) -> Result<Tables<'a>, Memory>
        ensures { IfOk result (AreTables files.now) }
    {
        Ok(Tables {
            names: places_of_names(alloc, files)?,
            targets: places_of_targets(alloc, files)?,
            candidates: names_of_candidates(alloc, files)?,
            mixins: names_of_mixins(alloc, files)?,
        })
    }

    /// Whether a class file of the folder has the form, where it spells a class.
    pub(crate) fn have(&self, alloc: Global, known: &KnownFile<'a>) -> Result<bool, Memory>
        ensures { (folder : List File) (classes : List ClassOfFolder) (files : List Known)
            → AreKnown folder classes files → AreTables files self.now → IsKnown folder known.now
            → IfOk result (λ has. MatchBool has (IsOfForm folder classes known.now.file.now) (IsOutOfForm folder classes known.now.file.now)) }
    {
        match &known.kind {
            FileKind::NoClass => Ok(true),
            FileKind::Thin(class) => self.stands_alone(alloc, known.file, class),
            FileKind::Mixin(class, target) => {
                if !self.is_right(target, known.file.path.as_str()) {
                    return Ok(false);
                }
                self.stands_alone(alloc, known.file, class)
            }
            FileKind::Other => Ok(false),
        }
    }

    /// Whether the target of a mixin at this path may have a class file of the folder, and is of no
    /// mixin at another path.
    fn is_right(&self, target: &Option<Text>, path: &str) -> bool
        ensures { result ≡ is_right self.now target.now path.now }
    {
        match target {
            None => false,
            Some(name) => {
                let name = name.as_str();
                self.candidates.contains(name) && !stands_elsewhere(&self.targets, name, path)
            }
        }
    }

    /// Whether the class's name stands at no other path, and it names no other mixin.
    fn stands_alone(
        &self,
        alloc: Global,
        file: &FolderClass,
        class: &ClassFile,
    ) -> Result<bool, Memory>
        ensures { IfOk result (λ alone. MatchBool alone (StandsAlone self.now file.now class.now) (Clashes self.now file.now class.now)) }
    {
        if stands_elsewhere(&self.names, file.name.as_str(), file.path.as_str()) {
            return Ok(false);
        }
        let others = OtherMixins {
            names: &self.mixins,
            own: file.name.as_str(),
        };
        Ok(!others.are_in_class(alloc, class)?)
    }
}
