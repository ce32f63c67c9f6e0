//! Mixin configurations of a folder.
use crate::config::Config;
use crate::refmap::Refmap;
use wv_base::Text;

/// A mixin configuration that loaded mods name, and its refmap.
#[derive(Debug, Drop)]
pub struct LoadedConfig {
    /// The path of its file in the folder.
    pub path: Text,
    /// The place of the mod that names it among the loaded mods.
    pub mod_place: usize,
    /// The place of the entry that names it in the mod's list `mixins`.
    pub place: usize,
    pub config: Config,
    /// The refmap that it names, empty where there is none.
    pub refmap: Refmap,
}

/// The mixin configurations of the loaded mods.
#[derive(Debug, Drop)]
pub struct Configs {
    /// Those whose mixins are applied: by priority, then by mod, then by place.
    pub used: Vec<LoadedConfig>,
    /// The others, which no loaded mod names for the side: by path.
    pub others: Vec<LoadedConfig>,
}
