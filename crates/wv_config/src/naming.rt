//! The configurations that mods name.
ghost use Rattle.std.specs.Prelude.{◌≡◌, ◌+◌, [], ◌∷◌, ◌++◌, length, List, IfOk, OnOk, IfSome, IsSomeAnd, MatchBool, All, AllPairs, Some, slice_get, true, false};
ghost use Rattle.wv_mod.specs.declared.mod_info.ModInfo.{ModInfo as Described};
ghost use Rattle.wv_config.specs.Naming.{folder_of};
ghost use Rattle.wv_config.specs.Entries.{AreEntriesTo, IsBefore, AreChosen, entries_at};

use std::alloc::Global;
use std::collections::BTreeMap;
use wv_base::{Memory, Side, Text};
use wv_mod::{MixinConfig, ModInfo};

/// The folder of a mod whose description has this path, with a slash at its end.
pub(crate) fn mod_folder(path: &str) -> &str
    ensures { result.now ≡ folder_of path.now }
{
    match path.strip_suffix("fabric.mod.json") {
        Some(folder) => folder,
        None => "",
    }
}

/// An entry of a mod's list `mixins`.
#[derive(Drop)]
pub(crate) struct Entry<'a> {
    /// The path of the configuration that it names.
    pub(crate) path: Text,
    /// The folder of its mod.
    pub(crate) folder: &'a str,
    /// The place of its mod.
    pub(crate) mod_place: usize,
    /// Its place in the list.
    pub(crate) place: usize,
    /// Whether it is for the side.
    pub(crate) is_used: bool,
}

impl<'a> Entry<'a> {
    ghost use Rattle.wv_config.specs.Entries.{IsEntryOf};

    fn of(
        alloc: Global,
        info: &'a ModInfo,
        mod_place: usize,
        mixin: &MixinConfig,
        place: usize,
        side: Side,
    ) -> Result<Entry<'a>, Memory>
        ensures of { IfOk result (IsEntryOf side info.now mixin.now) }
        ensures mod_place { IfOk result (λ entry. entry.mod_place ≡ mod_place) }
        ensures place { IfOk result (λ entry. entry.place ≡ place) }
    {
        let folder = mod_folder(info.path.as_str());
        let config = mixin.config.as_str();
        Ok(Entry {
            path: Text::from_string(format!(in alloc; "{folder}{config}")?),
            folder,
            mod_place,
            place,
            is_used: mixin.environment.is_for(side),
        })
    }
}

/// The entries of the mods, in their order.
pub(crate) fn entries<'a>(
    alloc: Global,
    mods: &'a [ModInfo],
    side: Side,
) -> Result<Vec<Entry<'a>>, Memory>
    ensures { IfOk result (λ entries. AreEntriesTo side mods.now (length mods.now) 0 entries.items) }
{
    let mut entries = Vec::new(alloc);
    for (mod_place, info) in mods.iter().enumerate() {
        add_entries(alloc, &mut entries, info, mod_place, side)?;
    }
    Ok(entries)
}

/// Adds the entries of a mod behind those of the mods before it.
fn add_entries<'a>(
    alloc: Global,
    entries: &mut Vec<Entry<'a>>,
    info: &'a ModInfo,
    mod_place: usize,
    side: Side,
) -> Result<(), Memory>
    ensures { (mods : List Described) → slice_get mods mod_place ≡ Some info.now
        → AreEntriesTo side mods mod_place 0 entries.old.items
        → OnOk result (AreEntriesTo side mods (mod_place + 1) 0 entries.new.items) }
{
    for (place, mixin) in info.mixins.as_slice().iter().enumerate() {
        entries.push(Entry::of(alloc, info, mod_place, mixin, place, side)?)?;
    }
    Ok(())
}

/// The entry at which each configuration stands, by its path.
#[derive(Drop)]
pub(crate) struct Named<'a> {
    entries: BTreeMap<Text, &'a Entry<'a>>,
}

impl<'a> Named<'a> {
    ghost use Rattle.wv_config.specs.declared.naming.Entry.{Entry as Found};
    ghost use Rattle.wv_config.specs.Entries.{Holds, entry_under};

    /// The entries at which the configurations stand: of those with the same path the first for the
    /// side, and where none is, the first.
    fn of(alloc: Global, entries: &'a [Entry<'a>]) -> Result<Named<'a>, Memory>
        requires { AllPairs IsBefore entries.now }
        ensures { IfOk result (Holds entries.now) }
    {
        let mut named = Named {
            entries: BTreeMap::new(alloc),
        };
        for entry in entries {
            named.add(alloc, entry)?;
        }
        Ok(named)
    }

    /// Adds an entry that stands behind the others.
    fn add(&mut self, alloc: Global, entry: &'a Entry<'a>) -> Result<(), Memory>
        ensures { (done : List Found) → Holds done self.old → All (λ other. IsBefore other entry.now) done
            → OnOk result (Holds (done ++ entry.now ∷ []) self.new) }
    {
        if self.takes(entry) {
            self.entries.insert(entry.path.copy(alloc)?, entry)?;
        }
        Ok(())
    }

    /// Whether no entry is there under the path of this one, or it is for the side and that one isn't.
    fn takes(&self, entry: &Entry) -> bool
        ensures { MatchBool result
            (IfSome (entry_under self.now entry.now.path)
            (λ other. (entry.now.is_used ≡ true) × (other.now.is_used ≡ false)))
            (IsSomeAnd (entry_under self.now entry.now.path)
            (λ other. entry.now.is_used ≡ true → other.now.is_used ≡ true)) }
    {
        match self.entries.get(&entry.path) {
            Some(other) => entry.is_used && !other.is_used,
            None => true,
        }
    }

    /// The entries, by the bytes of their paths.
    fn by_path(&self, alloc: Global) -> Result<Vec<&'a Entry<'a>>, Memory>
        ensures { (entries : List Found) → Holds entries self.now
            → IfOk result (λ chosen. AreChosen entries (entries_at chosen.items)) }
    {
        Ok(self.entries.values().copied().collect(alloc)?)
    }
}

/// The entry at which each configuration stands, by the bytes of their paths.
pub(crate) fn chosen<'a>(
    alloc: Global,
    entries: &'a [Entry<'a>],
) -> Result<Vec<&'a Entry<'a>>, Memory>
    requires { AllPairs IsBefore entries.now }
    ensures { IfOk result (λ chosen. AreChosen entries.now (entries_at chosen.items)) }
{
    Named::of(alloc, entries)?.by_path(alloc)
}
