//! The configurations of the loaded mods.
ghost use Rattle.std.specs.Prelude.{◌≡◌, if◌then◌else◌, [], IfOk, IfErr, OnOk, AllPairs, IsPermutation, MatchBool, option_copied};
ghost use Rattle.std.specs.declared.cmp.Ordering.TheVariants.{Less};
ghost use Rattle.wv_model.specs.FolderRead.{is_read};
ghost use Rattle.wv_config.specs.Entries.{IsBefore};
ghost use Rattle.wv_config.specs.Fault.{IsFaultOf};
ghost use Rattle.wv_config.specs.Finding.{IsLoadedOf, IsFlawAt, AreReadOf, IsFirstFlawOf, IsBrokenBefore};
ghost use Rattle.wv_config.specs.Loading.{used_order, AreConfigs};
ghost use Rattle.wv_config.specs.Reading.{config_content, refmap_of, IsConfigAt, IsConfigFlaw, IsRefmapOf, IsRefmapFlaw, IsFirstConfigBroken, AreConfigsKept};

use crate::config::{Config, read_config};
use crate::fault::ConfigFault;
use crate::loaded::{Configs, LoadedConfig};
use crate::naming::{Entry, chosen, entries};
use crate::refmap::{Refmap, read_refmap};
use std::alloc::{AllocError, Global};
use std::cmp::Ordering;
use wv_base::{Broken, Bytes, Folder, Memory, Rule, Side, Text};
use wv_mod::ModInfo;
use wv_resolve::is_read;

/// The mixin configurations that loaded mods name. `mods` are the loaded mods in their order.
///
/// The path of a configuration is the folder of its mod and the name by which an entry of `mixins`
/// names it. It is used where an entry for the side names it, and stands at the first such entry; a
/// configuration that only entries for the other side name is read too, and stands at the first of
/// these. Its refmap lies in the folder of the same mod; one that isn't listed counts as empty.
///
/// A fault is the first of the rules 20 to 23 that a configuration breaks, used or not: it isn't
/// listed or is left unread; it is no configuration; it names a plugin; its refmap is listed and is
/// none. The least rule counts, and of the places at which it is broken the first by its path.
///
/// It takes time linear in the entries and in the bytes of the files, but for a logarithm.
pub fn load_configs(
    alloc: Global,
    folder: &Folder,
    mods: &[ModInfo],
    side: Side,
) -> Result<Configs, ConfigFault>
    ensures loaded { IfOk result (AreConfigs folder.now side mods.now) }
    ensures kept { OnOk result (AreConfigsKept folder.now side mods.now) }
    ensures fault { IfErr result (IsFaultOf (IsFirstConfigBroken folder.now side mods.now)) }
{
    let entries = entries(alloc, mods, side)?;
    let mut configs = read_configs(alloc, folder, entries.as_slice())?;
    sort_used(&mut configs.used)?;
    Ok(configs)
}

/// The configurations that the entries name, by the bytes of their paths. A fault is the first rule
/// that they break.
fn read_configs<'a>(
    alloc: Global,
    folder: &Folder,
    entries: &'a [Entry<'a>],
) -> Result<Configs, ConfigFault>
    requires { AllPairs IsBefore entries.now }
    ensures read { IfOk result (AreReadOf folder.now entries.now) }
    ensures fault { IfErr result (IsFaultOf (IsFirstFlawOf folder.now entries.now)) }
{
    let chosen = chosen(alloc, entries)?;
    let mut reading = Reading {
        used: Vec::new(alloc),
        others: Vec::new(alloc),
        first: None,
    };
    for entry in chosen {
        reading.add(entry, load_config(alloc, folder, entry))?;
    }
    reading.finish()
}

/// Brings the configurations in the order in which they are used: by priority, then by mod, then by
/// place.
fn sort_used(used: &mut Vec<LoadedConfig>) -> Result<(), AllocError>
    ensures same { IsPermutation used.old.items used.new.items }
    ensures ordered { OnOk result
        (AllPairs (λ config later. used_order later config ≡ Less → ⊥) used.new.items) }
{
    let by_order = |first: &LoadedConfig, second: &LoadedConfig| -> Ordering
        ensures { result ≡ used_order first.now second.now }
    {
        let by_priority = first.config.priority.cmp(&second.config.priority);
        let by_mod = first.mod_place.cmp(&second.mod_place);
        by_priority
            .then(by_mod)
            .then(first.place.cmp(&second.place))
    };
    used.sort_by(by_order)
}

/// The configuration at an entry, with its refmap.
fn load_config(alloc: Global, folder: &Folder, entry: &Entry) -> Result<LoadedConfig, ConfigFault>
    ensures loaded { IfOk result (IsLoadedOf folder.now entry.now) }
    ensures flaw { IfErr result (IsFaultOf (IsFlawAt folder.now entry.now)) }
{
    let config = find_config(alloc, folder, &entry.path)?;
    let refmap = find_refmap(alloc, folder, entry.folder, &config)?;
    Ok(LoadedConfig {
        path: entry.path.copy(alloc)?,
        mod_place: entry.mod_place,
        place: entry.place,
        config,
        refmap,
    })
}

/// The configuration with this path.
fn find_config(alloc: Global, folder: &Folder, path: &Text) -> Result<Config, ConfigFault>
    ensures found { IfOk result (IsConfigAt folder.now path.now) }
    ensures flaw { IfErr result (IsFaultOf (IsConfigFlaw folder.now path.now)) }
{
    match config_bytes(folder, path.as_str()) {
        Some(bytes) => read_config(alloc, path, bytes.as_slice()),
        None => {
            let broken = Broken::at_file(alloc, Rule::ConfigMissing, path.as_str())?;
            Err(ConfigFault::Broken(broken))
        }
    }
}

/// The bytes of the configuration with this path.
fn config_bytes<'a>(folder: &'a Folder, path: &str) -> Option<&'a Bytes>
    ensures { option_copied result ≡ config_content folder.now path.now }
{
    if is_read(path) {
        folder.find(path)
    } else {
        None
    }
}

/// The refmap that a configuration of the mod in this folder names.
fn find_refmap(
    alloc: Global,
    folder: &Folder,
    mod_folder: &str,
    config: &Config,
) -> Result<Refmap, ConfigFault>
    ensures found { IfOk result (IsRefmapOf (refmap_of folder.now mod_folder.now config.now)) }
    ensures flaw { IfErr result (IsFaultOf (IsRefmapFlaw folder.now mod_folder.now config.now)) }
{
    let Some(name) = &config.refmap else {
        return Ok(Refmap::empty());
    };
    let name = name.as_str();
    let path = Text::from_string(format!(in alloc; "{mod_folder}{name}")?);
    match folder.find(path.as_str()) {
        Some(bytes) => read_refmap(alloc, &path, bytes_read(path.as_str(), bytes)),
        None => Ok(Refmap::empty()),
    }
}

/// The bytes of the file with this path, and none where it is left unread.
fn bytes_read<'a>(path: &str, bytes: &'a Bytes) -> &'a [u8]
    ensures { result.now ≡ if is_read path.now then bytes.now else [] }
{
    if is_read(path) { bytes.as_slice() } else { &[] }
}

/// Whether a broken rule comes before another: by its number, then by its path.
fn is_before(broken: &Broken, other: &Broken) -> bool
    ensures { MatchBool result
        (IsBrokenBefore broken.now other.now)
        (IsBrokenBefore broken.now other.now → ⊥) }
{
    let number = broken.rule.number();
    let other_number = other.rule.number();
    number < other_number
        || (number == other_number && broken.place.file.as_str() < other.place.file.as_str())
}

/// What was read of configurations so far.
#[derive(Drop)]
struct Reading {
    /// Those that are used and break no rule.
    used: Vec<LoadedConfig>,
    /// The others that break no rule.
    others: Vec<LoadedConfig>,
    /// The first rule that they break.
    first: Option<Broken>,
}

impl Reading {
    ghost use Rattle.std.specs.Prelude.{◌∷◌, ◌++◌, List, All, IfSome, IsSomeAnd, MatchResult};
    ghost use Rattle.wv_base.specs.Folder.{File, IsPathBefore};
    ghost use Rattle.wv_config.specs.declared.naming.Entry.{Entry as Found};
    ghost use Rattle.wv_config.specs.Finding.{IsReadingOf, AreRead, IsFirstFlaw};

    /// Adds what was read at one entry more, which comes after the others.
    fn add(
        &mut self,
        entry: &Entry,
        loaded: Result<LoadedConfig, ConfigFault>,
    ) -> Result<(), Memory>
        ensures { (files : List File) (done : List Found)
            → IsReadingOf files done self.old
            → All (λ other. IsPathBefore other.path entry.now.path) done
            → MatchResult loaded (IsLoadedOf files entry.now) (IsFaultOf (IsFlawAt files entry.now))
            → OnOk result (IsReadingOf files (done ++ entry.now ∷ []) self.new) }
    {
        match loaded {
            Ok(config) => {
                if entry.is_used {
                    self.used.push(config)?;
                } else {
                    self.others.push(config)?;
                }
            }
            Err(ConfigFault::Broken(broken)) => {
                if self.takes(&broken) {
                    self.first = Some(broken);
                }
            }
            Err(ConfigFault::Memory) => return Err(Memory),
        }
        Ok(())
    }

    /// Whether the rule comes before the first so far.
    fn takes(&self, broken: &Broken) -> bool
        ensures { MatchBool result
            (IfSome self.now.first (IsBrokenBefore broken.now))
            (IsSomeAnd self.now.first (λ first. IsBrokenBefore broken.now first → ⊥)) }
    {
        match &self.first {
            Some(first) => is_before(broken, first),
            None => true,
        }
    }

    /// The configurations, or the first rule that is broken.
    fn finish(self) -> Result<Configs, ConfigFault>
        ensures read { (files : List File) (done : List Found) → IsReadingOf files done self
            → IfOk result (λ configs. AreRead files done configs.used.items configs.others.items) }
        ensures fault { (files : List File) (done : List Found) → IsReadingOf files done self
            → IfErr result (IsFaultOf (IsFirstFlaw files done)) }
    {
        let Reading {
            used,
            others,
            first,
        } = self;
        match first {
            None => Ok(Configs { used, others }),
            Some(broken) => Err(ConfigFault::Broken(broken)),
        }
    }
}
