//! What the contracts of `resolve` and `load_mods` mean: for any mods and for any folder there is one
//! answer. Each law stands on a function that does nothing.
ghost use Rattle.std.specs.Prelude.{◌≡◌, ◌↔◌, ℕ, List, ◌∷◌, Any, codes};
ghost use Rattle.wv_base.specs.declared.broken.Broken.{Broken};
ghost use Rattle.wv_base.specs.declared.side.Side.{Side};
ghost use Rattle.wv_base.specs.Folder.{File};
ghost use Rattle.wv_model.specs.FolderRead.{parts};
ghost use Rattle.wv_mod.specs.declared.mod_info.ModInfo.{ModInfo};
ghost use Rattle.wv_resolve.specs.Resolution.{AreResolved, IsBroken};
ghost use Rattle.wv_resolve.specs.Discovery.{LiesIn, AreMods, IsFirstBroken, AreKept, AreLoadedMods, description_path};
ghost use Rattle.wv_resolve.specs.LoadedFolder.{IsLoadedFolder, AreLoadedFolders};

/// Mods that are resolved break no rule.
pub fn resolved_or_refused()
    ensures { (builtin : List (List ℕ × List ℕ)) (mods resolved : List ModInfo) (broken : Broken)
        → AreResolved builtin mods resolved → IsBroken builtin mods broken → ⊥ }
{}

/// Mods are resolved in one way.
pub fn one_resolution()
    ensures { (builtin : List (List ℕ × List ℕ)) (mods resolved other : List ModInfo)
        → AreResolved builtin mods resolved → AreResolved builtin mods other → resolved ≡ other }
{}

/// Mods are refused in one way.
pub fn one_refusal()
    ensures { (builtin : List (List ℕ × List ℕ)) (mods : List ModInfo) (broken other : Broken)
        → IsBroken builtin mods broken → IsBroken builtin mods other → broken ≡ other }
{}

/// A path lies in the folder of a mod where it has three parts or more, and the first is `mods`.
pub fn mod_folder_parts()
    ensures { (name path : List ℕ) → LiesIn name path ↔ ((below : List ℕ) × (deeper : List (List ℕ))
        × (parts path ≡ codes "mods" ∷ name ∷ below ∷ deeper)) }
{}

/// A folder describes its mods in one way.
pub fn one_description()
    ensures { (folder : List File) (side : Side) (mods other : List ModInfo)
        → AreMods folder side mods → AreMods folder side other → mods ≡ other }
{}

/// One of the rules 10 to 17 is the first that a folder breaks, at one place.
pub fn one_first_broken()
    ensures { (builtin : List (List ℕ × List ℕ)) (folder : List File) (side : Side) (broken other : Broken)
        → IsFirstBroken builtin folder side broken → IsFirstBroken builtin folder side other → broken ≡ other }
{}

/// The mods of a folder are loaded in one way.
pub fn one_loading()
    ensures { (builtin : List (List ℕ × List ℕ)) (folder : List File) (side : Side) (loaded other : List ModInfo)
        → AreLoadedMods builtin folder side loaded → AreLoadedMods builtin folder side other → loaded ≡ other }
{}

/// A folder whose mods are loaded breaks none of the rules 10 to 17.
pub fn loaded_or_refused()
    ensures kept { (builtin : List (List ℕ × List ℕ)) (folder : List File) (side : Side) (loaded : List ModInfo)
        → AreLoadedMods builtin folder side loaded → AreKept builtin folder side }
    ensures refused { (builtin : List (List ℕ × List ℕ)) (folder : List File) (side : Side) (broken : Broken)
        → AreKept builtin folder side → IsFirstBroken builtin folder side broken → ⊥ }
{}

/// The folders of loaded mods are listed in one way.
pub fn one_folder_list()
    ensures { (folder : List File) (side : Side) (names other : List (List ℕ))
        → AreLoadedFolders folder side names → AreLoadedFolders folder side other → names ≡ other }
{}

/// Where the mods of a folder are loaded, the folders of loaded mods are those of their descriptions.
pub fn loaded_by_mods()
    ensures { (builtin : List (List ℕ × List ℕ)) (folder : List File) (side : Side) (loaded : List ModInfo)
        → AreLoadedMods builtin folder side loaded → (name : List ℕ)
        → IsLoadedFolder folder side name ↔ Any (λ info. info.path ≡ description_path name) loaded }
{}
