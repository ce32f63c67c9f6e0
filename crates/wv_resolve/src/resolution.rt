//! Mods that fit together.
ghost use Rattle.std.specs.Prelude.{◌≡◌, filter, IfOk, IfErr, OnOk};
ghost use Rattle.std.specs.Cmp.Lexicographic.{slice_cmp};
ghost use Rattle.std.specs.Ordering.{nat_cmp};
ghost use Rattle.wv_resolve.specs.Refusal.{IsBrokenFault};
ghost use Rattle.wv_resolve.specs.Resolution.{id_of, path_of, is_loaded, IsOrderedBy, AreLoaded, AreFitting, IsUnfitting, AreResolved, IsBroken};

use crate::check::check;
use crate::kind::Kind;
use crate::present::Present;
use crate::source::sources;
use std::alloc::{AllocError, Global};
use std::cmp::Ordering;
use wv_base::Text;
use wv_mod::{ModFault, ModInfo};

/// The loaded ones of the mods, by the bytes of their ids, where they fit together. A fault is the
/// first of the rules 15 to 17 that they break: an id is present twice, an entry of `depends` is not
/// met, or an entry of `breaks` is. For rule 15 what is present is taken in the order of `builtin`,
/// then of the paths of the mods, each with its id first; for the others the mods in the order of
/// their paths, and the entries as they stand, which is by the bytes of their ids where `read_mod`
/// read them.
///
/// `builtin` has the id and the version of the game, and then those of what is built in. It takes
/// time linear in the ids and entries, but for a logarithm.
pub fn resolve(
    alloc: Global,
    mods: Vec<ModInfo>,
    builtin: &[(Text, Text)],
) -> Result<Vec<ModInfo>, ModFault>
    ensures resolved { IfOk result (λ resolved. AreResolved builtin.now mods.items resolved.items) }
    ensures fault { IfErr result (IsBrokenFault (IsBroken builtin.now mods.items)) }
{
    let mut loaded = loaded_of(mods);
    sort_by_path(&mut loaded)?;
    fit(alloc, builtin, loaded.as_slice())?;
    sort_by_id(&mut loaded)?;
    Ok(loaded)
}

/// Whether the mods fit together.
fn fit(alloc: Global, builtin: &[(Text, Text)], loaded: &[ModInfo]) -> Result<(), ModFault>
    ensures fitting { OnOk result (AreFitting builtin.now loaded.now) }
    ensures fault { IfErr result (IsBrokenFault (IsUnfitting builtin.now loaded.now)) }
{
    let sources = sources(alloc, builtin, loaded)?;
    let present = Present::read(alloc, sources.as_slice())?;
    check(alloc, Kind::Depends, &present, loaded)?;
    check(alloc, Kind::Breaks, &present, loaded)
}

/// The mods that are loaded.
fn loaded_of(mods: Vec<ModInfo>) -> Vec<ModInfo>
    ensures { result.items ≡ filter is_loaded mods.items }
{
    let mut loaded = mods;
    loaded.retain(|info| info.loaded);
    loaded
}

/// Brings the mods in the order of their paths.
fn sort_by_path(mods: &mut Vec<ModInfo>) -> Result<(), AllocError>
    ensures { OnOk result (IsOrderedBy path_of mods.old.items mods.new.items) }
{
    let by_path = |first: &ModInfo, second: &ModInfo| -> Ordering
        ensures { result ≡ slice_cmp nat_cmp first.now.path second.now.path }
    { first.path.cmp(&second.path) };
    mods.sort_by(by_path)
}

/// Brings the mods in the order of their ids.
fn sort_by_id(mods: &mut Vec<ModInfo>) -> Result<(), AllocError>
    ensures { OnOk result (IsOrderedBy id_of mods.old.items mods.new.items) }
{
    let by_id = |first: &ModInfo, second: &ModInfo| -> Ordering
        ensures { result ≡ slice_cmp nat_cmp first.now.id second.now.id }
    { first.id.cmp(&second.id) };
    mods.sort_by(by_id)
}
