//! The names of the classes that configurations list.
ghost use Rattle.std.specs.Prelude.{◌↔◌, IsTrue, IfOk, OnOk, flat_map, map};
ghost use Rattle.wv_config.specs.declared.loaded.Configs.{Configs as AllConfigs};
ghost use Rattle.wv_config.specs.Slashes.{class_of};
ghost use Rattle.wv_front.specs.Listed.{class_names};
ghost use Rattle.wv_weave.specs.ListedNames.{HasNames, GrowsBy, listed_names};
ghost use Rattle.wv_weave.specs.WrittenClasses.{IsMixinName};

use std::alloc::Global;
use std::collections::BTreeSet;
use wv_base::{Memory, Text};
use wv_config::{Config, Configs, LoadedConfig};

/// The names of the classes that some configuration lists: the mixins.
#[derive(Drop)]
pub(crate) struct ListedNames {
    names: BTreeSet<Text>,
}

impl ListedNames {
    pub(crate) fn of(alloc: Global, configs: &Configs) -> Result<ListedNames, Memory>
        ensures { IfOk result (HasNames (listed_names configs.now)) }
    {
        let mut names = ListedNames {
            names: BTreeSet::new(alloc),
        };
        names.add_all(alloc, configs.used.as_slice())?;
        names.add_all(alloc, configs.others.as_slice())?;
        Ok(names)
    }

    /// Whether some configuration lists the class of this name. It takes time logarithmic in the
    /// number of names.
    pub(crate) fn has(&self, name: &Text) -> bool
        ensures { (configs : AllConfigs) → HasNames (listed_names configs) self.now
            → IsTrue result ↔ IsMixinName configs name.now }
    {
        self.names.contains(name)
    }

    /// Adds what each of the configurations lists.
    fn add_all(&mut self, alloc: Global, configs: &[LoadedConfig]) -> Result<(), Memory>
        ensures { OnOk result (GrowsBy self.old self.new (flat_map (λ loaded. class_names loaded.config) configs.now)) }
    {
        for config in configs {
            self.add_listed(alloc, &config.config)?;
        }
        Ok(())
    }

    /// Adds what the configuration lists.
    fn add_listed(&mut self, alloc: Global, config: &Config) -> Result<(), Memory>
        ensures { OnOk result (GrowsBy self.old self.new (class_names config.now)) }
    {
        self.add(alloc, config, config.mixins.as_slice())?;
        self.add(alloc, config, config.client.as_slice())?;
        self.add(alloc, config, config.server.as_slice())
    }

    /// Adds the classes of entries of the configuration.
    fn add(&mut self, alloc: Global, config: &Config, entries: &[Text]) -> Result<(), Memory>
        ensures { OnOk result (GrowsBy self.old self.new (map (class_of config.now.«package») entries.now)) }
    {
        for entry in entries {
            self.names.insert(config.class_of(alloc, entry)?)?;
        }
        Ok(())
    }
}
