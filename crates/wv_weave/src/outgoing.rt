//! The classes that are written, in the order of the paths under which they are put.
ghost use Rattle.std.specs.Prelude.{◌≡◌, ℕ, List, length, AllPairs, IfOk, OnOk, Some};
ghost use Rattle.std.specs.Cmp.Lexicographic.{slice_cmp};
ghost use Rattle.std.specs.List.{AllByRecursion, AllZip, count_by};
ghost use Rattle.std.specs.Ordering.{nat_cmp};
ghost use Rattle.wv_base.specs.Folder.{content_of, IsPathBefore};
ghost use Rattle.wv_config.specs.declared.loaded.Configs.{Configs as AllConfigs};
ghost use Rattle.wv_resolve.specs.Resolution.{IsOrderedBy};
ghost use Rattle.wv_weave.specs.declared.outgoing.Outgoing.{Outgoing as Going};
ghost use Rattle.wv_weave.specs.ListedNames.{HasNames, listed_names};
ghost use Rattle.wv_weave.specs.Outgoing.{AreKept, CanBeWritten, IsFileFrom, is_changed, path_of};
ghost use Rattle.wv_weave.specs.WrittenClasses.{written_path};

use crate::listed::ListedNames;
use std::alloc::{AllocError, Global};
use std::cmp::Ordering;
use wv_base::{Bytes, Folder, Memory, Text};
use wv_classes::LoadedClass;
use wv_config::Configs;
use wv_merge::Overwriting;

/// A class that is written, and where it is put.
#[derive(Drop)]
pub(crate) struct Outgoing {
    path: Text,
    class: LoadedClass,
    /// What a mixin overwrites in it.
    overwriting: Option<Overwriting>,
}

/// Those of the classes that no configuration lists, in the order of the paths under which they are put.
/// It takes time linear in the classes and the names that are listed, but for a logarithm.
pub(crate) fn sorted_outgoing(
    alloc: Global,
    configs: &Configs,
    classes: Vec<LoadedClass>,
    edits: Vec<Option<Overwriting>>,
) -> Result<Vec<Outgoing>, Memory>
    requires { length classes.items ≡ length edits.items }
    ensures { IfOk result (λ outgoing. (kept : List Going) × AreKept configs.now classes.items edits.items kept
        × IsOrderedBy path_of kept outgoing.items) }
{
    let listed = ListedNames::of(alloc, configs)?;
    let mut outgoing = kept(alloc, &listed, classes, edits)?;
    sort(&mut outgoing)?;
    Ok(outgoing)
}

/// Those of the classes whose names aren't listed.
fn kept(
    alloc: Global,
    listed: &ListedNames,
    classes: Vec<LoadedClass>,
    edits: Vec<Option<Overwriting>>,
) -> Result<Vec<Outgoing>, Memory>
    requires { length classes.items ≡ length edits.items }
    ensures { IfOk result (λ kept. (configs : AllConfigs) → HasNames (listed_names configs) listed.now
        → AreKept configs classes.items edits.items kept.items) }
{
    let mut kept = Vec::new(alloc);
    for (class, overwriting) in classes.into_iter().zip(edits) {
        if !listed.has(&class.name) {
            kept.push(Outgoing {
                path: written_path(alloc, &class)?,
                class,
                overwriting,
            })?;
        }
    }
    Ok(kept)
}

/// Where a class is put.
fn written_path(alloc: Global, class: &LoadedClass) -> Result<Text, Memory>
    ensures { IfOk result (λ path. path ≡ written_path class.now) }
{
    let mut path = String::from_str(alloc, class.name.as_str())?;
    path.push_str(".class")?;
    Ok(Text::from_string(path))
}

fn sort(outgoing: &mut Vec<Outgoing>) -> Result<(), AllocError>
    ensures { OnOk result (IsOrderedBy path_of outgoing.old.items outgoing.new.items) }
{
    let by_path = |first: &Outgoing, second: &Outgoing| -> Ordering
        ensures { result ≡ slice_cmp nat_cmp first.now.path second.now.path }
    { first.path.cmp(&second.path) };
    outgoing.sort_by(by_path)
}

/// How many of them a mixin edits.
pub(crate) fn edited_count(outgoing: &[Outgoing]) -> usize
    ensures { result ≡ count_by is_changed outgoing.now }
{
    outgoing
        .iter()
        .filter(|outgoing| outgoing.overwriting.is_some())
        .count()
}

/// The files of these classes. The folder has those that were read.
pub(crate) fn written_files(
    alloc: Global,
    folder: &Folder,
    outgoing: Vec<Outgoing>,
) -> Result<Folder, Memory>
    requires ordered { AllPairs (λ one later. IsPathBefore one.path later.path) outgoing.items }
    requires writable { AllByRecursion (CanBeWritten folder.now) outgoing.items }
    ensures { IfOk result (λ files. AllZip (IsFileFrom folder.now) outgoing.items files) }
{
    let mut files = Folder::new(alloc);
    for one in outgoing {
        let (path, bytes) = one.file(alloc, folder)?;
        files.push(path, bytes)?;
    }
    Ok(files)
}

impl Outgoing {
    /// Its file: with the bytes that were read, or with those that its mixin makes.
    fn file(self, alloc: Global, folder: &Folder) -> Result<(Text, Bytes), Memory>
        requires { CanBeWritten folder.now self }
        ensures { IfOk result (IsFileFrom folder.now self) }
    {
        let Outgoing {
            path,
            class,
            overwriting,
        } = self;
        let bytes = match overwriting {
            Some(overwriting) => overwriting.write(alloc, class.class)?,
            None => read_bytes(alloc, folder, &class.path)?,
        };
        Ok((path, bytes))
    }
}

/// The bytes of a file of the folder.
fn read_bytes(alloc: Global, folder: &Folder, path: &Text) -> Result<Bytes, Memory>
    requires { (content : List ℕ) × (content_of path.now folder.now ≡ Some content) }
    ensures { IfOk result (λ bytes. content_of path.now folder.now ≡ Some bytes) }
{
    match folder.find(path.as_str()) {
        Some(bytes) => bytes.copy(alloc),
        None => unreachable!(),
    }
}
