//! Laws of what is read and refused.
ghost use Rattle.std.specs.Prelude.{◌≡◌, ℕ, List, ◌++◌, codes};
ghost use Rattle.wv_base.specs.declared.broken.Broken.{Broken};
ghost use Rattle.wv_config.specs.declared.config.Config.{Config};
ghost use Rattle.wv_base.specs.declared.side.Side.{Side};
ghost use Rattle.wv_base.specs.Folder.{File};
ghost use Rattle.wv_mod.specs.declared.mod_info.ModInfo.{ModInfo};
ghost use Rattle.wv_resolve.specs.Discovery.{description_path};
ghost use Rattle.wv_config.specs.declared.loaded.Configs.{Configs};
ghost use Rattle.wv_config.specs.Config.{IsConfig, IsConfigBroken};
ghost use Rattle.wv_config.specs.Loading.{AreConfigs, AreSame};
ghost use Rattle.wv_config.specs.Naming.{folder_of};
ghost use Rattle.wv_config.specs.Reading.{IsFirstConfigBroken, AreConfigsKept};

/// A file is one mixin configuration at most.
pub fn one_config()
    ensures { (bytes : List ℕ) (config other : Config)
        → IsConfig bytes config → IsConfig bytes other → config ≡ other }
{}

/// A file that is a mixin configuration breaks no rule.
pub fn no_config_is_broken()
    ensures { (path bytes : List ℕ) (config : Config) (broken : Broken)
        → IsConfig bytes config → IsConfigBroken path bytes broken → ⊥ }
{}

/// A file that is no mixin configuration is refused in one way.
pub fn one_refusal()
    ensures { (path bytes : List ℕ) (broken other : Broken)
        → IsConfigBroken path bytes broken → IsConfigBroken path bytes other → broken ≡ other }
{}

/// The configurations that mods name are loaded in one way, up to what isn't seen of their refmaps.
pub fn one_configs_loading()
    ensures { (files : List File) (side : Side) (mods : List ModInfo) (configs other : Configs)
        → AreConfigs files side mods configs → AreConfigs files side mods other → AreSame configs other }
{}

/// One of the rules 20 to 23 is the first that the configurations break, at one place.
pub fn one_first_config_broken()
    ensures { (files : List File) (side : Side) (mods : List ModInfo) (broken other : Broken)
        → IsFirstConfigBroken files side mods broken → IsFirstConfigBroken files side mods other
        → broken ≡ other }
{}

/// Configurations that are loaded break none of the rules 20 to 23.
pub fn configs_loaded_or_refused()
    ensures kept { (files : List File) (side : Side) (mods : List ModInfo) (configs : Configs)
        → AreConfigs files side mods configs → AreConfigsKept files side mods }
    ensures refused { (files : List File) (side : Side) (mods : List ModInfo) (broken : Broken)
        → AreConfigsKept files side mods → IsFirstConfigBroken files side mods broken → ⊥ }
{}

/// The folder of a mod is the one in which its description lies.
pub fn mod_folder_of_description()
    ensures { (name : List ℕ) → folder_of (description_path name) ≡ codes "mods/" ++ name ++ codes "/" }
{}
