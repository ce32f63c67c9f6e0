//! Mixin configurations and refmaps.
#![tactic(auto)]

mod config;
mod fault;
mod field;
mod key;
mod laws;
mod loaded;
mod loading;
mod naming;
mod refmap;
mod slashes;

pub use config::{Config, read_config};
pub use fault::ConfigFault;
pub use key::Key;
pub use laws::{
    configs_loaded_or_refused, mod_folder_of_description, no_config_is_broken, one_config,
    one_configs_loading, one_first_config_broken, one_refusal,
};
pub use loaded::{Configs, LoadedConfig};
pub use loading::load_configs;
pub use refmap::{Names, Refmap, read_refmap};

#[cfg(test)]
mod folder_tests;
#[cfg(test)]
mod tests;
