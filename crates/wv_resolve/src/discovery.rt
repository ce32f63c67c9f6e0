//! The mods of a folder.
ghost use Rattle.std.specs.Prelude.{◌≡◌, ℕ, List, AllPairs, IfOk, IfErr, OnOk, MatchOption, MatchBool};
ghost use Rattle.std.specs.List.{AllZip};
ghost use Rattle.wv_base.specs.Folder.{IsPathBefore};
ghost use Rattle.wv_mod.specs.FirstBroken.{IsFirstBreak};
ghost use Rattle.wv_resolve.specs.Refusal.{IsBrokenFault};
ghost use Rattle.wv_resolve.specs.Discovery.{LiesIn, LacksDescription, AreLoadedMods, AreKept, IsFirstBroken};
ghost use Rattle.wv_resolve.specs.Finding.{texts_at, IsLast, AddsOnce, AreModFolders, AreDescriptions, Describes, IsFirstFlaw};

use crate::resolution::resolve;
use std::alloc::Global;
use wv_base::{Broken, Folder, Memory, Rule, Side, Text};
use wv_mod::{ModFault, ModInfo, read_mod};

/// The loaded mods of a folder on one side, by the bytes of their ids.
///
/// The folder of a mod is `mods/F/`, where any listed path lies in it, read or not. Its description is
/// `mods/F/fabric.mod.json`. A fault is the first of the rules 10 to 17 that the folder breaks: a
/// description is missing; a description breaks one of the rules 11 to 14, whether its mod is loaded
/// or not; the loaded mods do not fit together. The least rule counts, and of the descriptions that
/// break it the first by its path.
///
/// `builtin` has the id and the version of the game, and then those of what is built in. It takes
/// time linear in the files and descriptions, but for a logarithm.
pub fn load_mods(
    alloc: Global,
    folder: &Folder,
    builtin: &[(Text, Text)],
    side: Side,
) -> Result<Vec<ModInfo>, ModFault>
    ensures loaded { IfOk result (λ loaded. AreLoadedMods builtin.now folder.now side loaded.items) }
    ensures kept { OnOk result (AreKept builtin.now folder.now side) }
    ensures fault { IfErr result (IsBrokenFault (IsFirstBroken builtin.now folder.now side)) }
{
    let descriptions = descriptions(alloc, folder)?;
    let mods = read_mods(alloc, descriptions.as_slice(), side)?;
    resolve(alloc, mods, builtin)
}

/// The descriptions of the mods of a folder, by the bytes of their paths. A fault is the first that
/// is missing.
fn descriptions<'a>(alloc: Global, folder: &'a Folder) -> Result<Vec<Description<'a>>, ModFault>
    ensures found { IfOk result (λ descriptions. AreDescriptions folder.now descriptions.items) }
    ensures missing { IfErr result (IsBrokenFault (IsFirstBreak (LacksDescription folder.now))) }
{
    let names = mod_folders(alloc, folder)?;
    let mut descriptions = Vec::new(alloc);
    for name in names.as_slice() {
        let description = Description::find(alloc, folder, name)?;
        descriptions.push(description).map_err(|_| Memory)?;
    }
    Ok(descriptions)
}

/// The names of the folders of mods, each once. Files are ordered by their paths, so those of one
/// folder stand together.
pub(crate) fn mod_folders<'a>(alloc: Global, folder: &'a Folder) -> Result<Vec<&'a str>, Memory>
    ensures { IfOk result (λ names. AreModFolders folder.now (texts_at names.items)) }
{
    let mut names = Vec::new(alloc);
    for (path, _) in folder.files() {
        if let Some(name) = mod_folder(path.as_str()) {
            add_name(&mut names, name)?;
        }
    }
    Ok(names)
}

/// The name of the folder of a mod in which a path lies.
fn mod_folder(path: &str) -> Option<&str>
    ensures { MatchOption result
        ((name : List ℕ) → LiesIn name path.now → ⊥)
        (λ name. LiesIn name.now path.now) }
{
    let (name, _) = path.strip_prefix("mods/")?.split_once('/')?;
    Some(name)
}

/// Adds a name behind the others, unless it is the last of them.
fn add_name<'a>(names: &mut Vec<&'a str>, name: &'a str) -> Result<(), Memory>
    ensures { OnOk result (AddsOnce (texts_at names.old.items) name.now (texts_at names.new.items)) }
{
    if !is_last(name, names.as_slice()) {
        names.push(name)?;
    }
    Ok(())
}

/// Whether the name is the last of these.
fn is_last(name: &str, names: &[&str]) -> bool
    ensures { MatchBool result
        (IsLast (texts_at names.now) name.now)
        (IsLast (texts_at names.now) name.now → ⊥) }
{
    match names.last() {
        Some(last) => *last == name,
        None => false,
    }
}

/// The mods of the descriptions, in their order. A fault is the first of the rules 11 to 14 that they
/// break.
fn read_mods(
    alloc: Global,
    descriptions: &[Description],
    side: Side,
) -> Result<Vec<ModInfo>, ModFault>
    requires { AllPairs (λ description later. IsPathBefore description.path later.path) descriptions.now }
    ensures read { IfOk result (λ mods. AllZip (Describes side) descriptions.now mods.items) }
    ensures fault { IfErr result (IsBrokenFault (IsFirstFlaw descriptions.now)) }
{
    let mut reading = Reading {
        mods: Vec::new(alloc),
        first: None,
    };
    for description in descriptions {
        let read = read_mod(alloc, &description.path, description.bytes, side);
        reading.add(read)?;
    }
    reading.finish()
}

/// A description of a mod.
#[derive(Drop)]
struct Description<'a> {
    /// Its path in the folder.
    path: Text,
    bytes: &'a [u8],
}

impl<'a> Description<'a> {
    ghost use Rattle.wv_resolve.specs.Finding.{IsDescriptionIn, LacksIn};

    /// The description of the mod in the folder of this name. A fault is that it is missing.
    fn find(alloc: Global, folder: &'a Folder, name: &str) -> Result<Description<'a>, ModFault>
        ensures found { IfOk result (IsDescriptionIn folder.now name.now) }
        ensures missing { IfErr result (IsBrokenFault (LacksIn folder.now name.now)) }
    {
        let path = Text::from_string(format!(in alloc; "mods/{name}/fabric.mod.json")?);
        match folder.find(path.as_str()) {
            Some(bytes) => Ok(Description {
                path,
                bytes: bytes.as_slice(),
            }),
            None => {
                let broken = Broken::at_file(alloc, Rule::ModMissing, path.as_str())?;
                Err(ModFault::Broken(broken))
            }
        }
    }
}

/// What was read of descriptions so far.
#[derive(Drop)]
struct Reading {
    /// The mods of those that break no rule.
    mods: Vec<ModInfo>,
    /// The first rule that they break: the one with the smallest number, and of the same the earliest.
    first: Option<Broken>,
}

impl Reading {
    ghost use Rattle.std.specs.Prelude.{◌<◌, ◌≤◌, [], ◌∷◌, ◌++◌, All, IfSome, IsSomeAnd, MatchResult};
    ghost use Rattle.wv_base.specs.declared.side.Side.{Side as GameSide};
    ghost use Rattle.wv_base.specs.Rule.{number_of};
    ghost use Rattle.wv_mod.specs.Flaw.{IsModFault};
    ghost use Rattle.wv_resolve.specs.declared.discovery.Description.{Description as Described};
    ghost use Rattle.wv_resolve.specs.Finding.{IsReadingOf};

    /// Adds what was read of one description more, which comes after the others.
    fn add(&mut self, read: Result<ModInfo, ModFault>) -> Result<(), Memory>
        ensures { (side : GameSide) (done : List Described) (next : Described)
            → IsReadingOf side done self.old
            → All (λ description. IsPathBefore description.path next.path) done
            → MatchResult read (Describes side next) (IsModFault next.path next.bytes.now)
            → OnOk result (IsReadingOf side (done ++ next ∷ []) self.new) }
    {
        match read {
            Ok(info) => self.mods.push(info)?,
            Err(ModFault::Broken(broken)) => {
                if self.takes(&broken) {
                    self.first = Some(broken);
                }
            }
            Err(ModFault::Memory) => return Err(Memory),
        }
        Ok(())
    }

    /// Whether the rule has a smaller number than the first so far.
    fn takes(&self, broken: &Broken) -> bool
        ensures { MatchBool result
            (IfSome self.now.first (λ first. number_of broken.now.rule < number_of first.rule))
            (IsSomeAnd self.now.first (λ first. number_of first.rule ≤ number_of broken.now.rule)) }
    {
        match &self.first {
            Some(first) => broken.rule.number() < first.rule.number(),
            None => true,
        }
    }

    /// The mods, or the first rule that is broken.
    fn finish(self) -> Result<Vec<ModInfo>, ModFault>
        ensures read { (side : GameSide) (done : List Described) → IsReadingOf side done self
            → IfOk result (λ mods. AllZip (Describes side) done mods.items) }
        ensures fault { (side : GameSide) (done : List Described) → IsReadingOf side done self
            → IfErr result (IsBrokenFault (IsFirstFlaw done)) }
    {
        let Reading { mods, first } = self;
        match first {
            None => Ok(mods),
            Some(broken) => Err(ModFault::Broken(broken)),
        }
    }
}
