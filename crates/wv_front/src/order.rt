//! The mixins of a folder in their order.
ghost use Rattle.std.specs.Prelude.{◌≡◌, ◌↔◌, ◌<◌, ◌^◌, length, AllPairs, Contains, IfOk, OnOk};
ghost use Rattle.wv_classes.specs.declared.loaded_class.LoadedClass.{LoadedClass as Loaded};
ghost use Rattle.wv_front.specs.declared.order.AppliedMixin.{AppliedMixin as Mixin};
ghost use Rattle.wv_front.specs.MixinOrder.{StandsAt, IsNaming, AreApplied, AreOrdered, key_cmp, priority_of, side_entries};
ghost use Rattle.wv_front.specs.Naming.{IsEntryNaming, AreEntryNamings, AreConfigNamings, Grows, NotBefore, AreFirsts, ArePlacesOf, IsSortedOf};

use crate::places::ClassPlaces;
use crate::priority::stated_priority;
use std::alloc::{AllocError, Global};
use std::cmp::Ordering;
use std::collections::BTreeSet;
use wv_base::{Memory, Side, Text};
use wv_classes::LoadedClass;
use wv_config::{Config, Configs, LoadedConfig};

/// A mixin that is applied. Its priority and its last two places are the key by which mixins are
/// ordered.
#[derive(Debug, Drop)]
pub struct AppliedMixin {
    /// The name of its class.
    pub name: Text,
    /// The place of its class among the classes.
    pub class_place: usize,
    /// The priority of its `@Mixin`, or else of its configuration.
    pub priority: i32,
    /// The place of the configuration that names it among those used.
    pub config_place: usize,
    /// The place of the entry that names it: those of `mixins` come first, then those of the side.
    pub entry_place: usize,
}

impl AppliedMixin {
    /// By priority, then by configuration, then by entry.
    fn order(&self, other: &AppliedMixin) -> Ordering
        ensures { result ≡ key_cmp self.now other.now }
    {
        let by_priority = self.priority.cmp(&other.priority);
        let by_config = self.config_place.cmp(&other.config_place);
        let by_entry = self.entry_place.cmp(&other.entry_place);
        by_priority.then(by_config).then(by_entry)
    }
}

/// The mixins that the configurations apply on a side, in their order: by the priority of `@Mixin`
/// (without one that of the configuration), then by configuration, then by list (`mixins` before the
/// side's own), then by entry. A class that is named more than once is applied once, under the least
/// of its keys. A name without a class is read past.
///
/// It takes time linear in the classes and entries, but for a logarithm.
pub fn order_mixins(
    alloc: Global,
    configs: &Configs,
    classes: &[LoadedClass],
    side: Side,
) -> Result<Vec<AppliedMixin>, Memory>
    ensures applied { IfOk result (λ mixins. AreApplied configs.now.used.items classes.now side mixins.items) }
    ensures ordered { IfOk result (λ mixins. AreOrdered mixins.items) }
{
    let mut namings = namings(alloc, configs.used.as_slice(), classes, side)?;
    sort(&mut namings)?;
    first_of_each(alloc, namings)
}

/// Every naming of a class that is there.
fn namings(
    alloc: Global,
    configs: &[LoadedConfig],
    classes: &[LoadedClass],
    side: Side,
) -> Result<Vec<AppliedMixin>, Memory>
    ensures { IfOk result (λ namings. (mixin : Mixin)
        → Contains namings.items mixin ↔ IsNaming configs.now classes.now side mixin) }
{
    let places = ClassPlaces::of_loaded(alloc, classes)?;
    let mut namings = Vec::new(alloc);
    for (config_place, config) in configs.iter().enumerate() {
        let namer = Namer {
            config: &config.config,
            config_place,
            classes,
            places: &places,
        };
        namer.add(alloc, side, &mut namings)?;
    }
    Ok(namings)
}

/// A configuration that names classes.
#[derive(Drop)]
struct Namer<'a> {
    config: &'a Config,
    config_place: usize,
    classes: &'a [LoadedClass],
    places: &'a ClassPlaces,
}

impl<'a> Namer<'a> {
    /// Adds what the configuration names on a side.
    fn add(&self, alloc: Global, side: Side, namings: &mut Vec<AppliedMixin>) -> Result<(), Memory>
        requires { ArePlacesOf self.now }
        ensures { OnOk result (Grows namings.old.items namings.new.items
            (AreConfigNamings self.now.classes.now side self.now.config_place self.now.config.now)) }
    {
        let mixins = self.config.mixins.as_slice();
        self.add_entries(alloc, mixins, 0, namings)?;
        let entries = side_entries(self.config, side);
        self.add_entries(alloc, entries, mixins.len(), namings)
    }

    /// Adds what these entries name, the first of which has the place `base`.
    fn add_entries(
        &self,
        alloc: Global,
        entries: &[Text],
        base: usize,
        namings: &mut Vec<AppliedMixin>,
    ) -> Result<(), Memory>
        requires places { ArePlacesOf self.now }
        requires low { base < 2 ^ 63 }
        ensures { OnOk result (Grows namings.old.items namings.new.items
            (AreEntryNamings self.now.classes.now self.now.config_place self.now.config.now entries.now base)) }
    {
        for (place, entry) in entries.iter().enumerate() {
            self.add_entry(alloc, entry, base + place, namings)?;
        }
        Ok(())
    }

    /// Adds what the entry names, unless there is no such class.
    fn add_entry(
        &self,
        alloc: Global,
        entry: &Text,
        entry_place: usize,
        namings: &mut Vec<AppliedMixin>,
    ) -> Result<(), Memory>
        requires { ArePlacesOf self.now }
        ensures { OnOk result (Grows namings.old.items namings.new.items
            (IsEntryNaming self.now.classes.now self.now.config_place self.now.config.now entry_place entry.now)) }
    {
        let name = self.config.class_of(alloc, entry)?;
        if let Some(class_place) = self.places.place(&name) {
            namings.push(self.naming(name, class_place, entry_place))?;
        }
        Ok(())
    }

    /// The class, under the key by which the entry names it.
    fn naming(&self, name: Text, class_place: usize, entry_place: usize) -> AppliedMixin
        requires { class_place < length self.now.classes.now }
        ensures name { result.name ≡ name }
        ensures class { result.class_place ≡ class_place }
        ensures config { result.config_place ≡ self.now.config_place }
        ensures entry { result.entry_place ≡ entry_place }
        ensures priority { (class : Loaded) → StandsAt self.now.classes.now class_place class
            → result.priority ≡ priority_of self.now.config.now class }
    {
        let class = &self.classes[class_place].class;
        AppliedMixin {
            name,
            class_place,
            priority: stated_priority(class).unwrap_or(self.config.mixin_priority),
            config_place: self.config_place,
            entry_place,
        }
    }
}

/// The entries of the configuration for one side alone.
fn side_entries(config: &Config, side: Side) -> &[Text]
    ensures { result.now ≡ side_entries side config.now }
{
    match side {
        Side::Client => config.client.as_slice(),
        Side::Server => config.server.as_slice(),
    }
}

fn sort(namings: &mut Vec<AppliedMixin>) -> Result<(), AllocError>
    ensures { OnOk result (IsSortedOf namings.old.items namings.new.items) }
{
    let by_key = |first: &AppliedMixin, second: &AppliedMixin| -> Ordering
        ensures { result ≡ key_cmp first.now second.now }
    { first.order(second) };
    namings.sort_by(by_key)
}

/// Of ordered namings the first of each class.
fn first_of_each(alloc: Global, namings: Vec<AppliedMixin>) -> Result<Vec<AppliedMixin>, Memory>
    requires { AllPairs NotBefore namings.items }
    ensures { IfOk result (λ mixins. AreFirsts namings.items mixins.items) }
{
    let mut seen = BTreeSet::new(alloc);
    let mut mixins = Vec::new(alloc);
    for naming in namings {
        if seen.insert(naming.class_place)? {
            mixins.push(naming)?;
        }
    }
    Ok(mixins)
}
