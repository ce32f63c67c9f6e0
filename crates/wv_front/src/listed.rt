//! The classes that mixin configurations list.
ghost use Rattle.std.specs.Prelude.{◌≡◌, ◌++◌, ℕ, List, codes, IfOk, IfErr, OnOk};
ghost use Rattle.wv_base.specs.declared.rule.Rule.TheVariants.{MixinMissing};
ghost use Rattle.std.specs.Cmp.Lexicographic.{slice_cmp};
ghost use Rattle.std.specs.Ordering.{nat_cmp};
ghost use Rattle.wv_resolve.specs.Refusal.{broken_at};
ghost use Rattle.wv_resolve.specs.Resolution.{IsOrderedBy};
ghost use Rattle.wv_front.specs.Listed.{all_configs, path_of, class_names, AreListed, IsFirstMissing};
ghost use Rattle.wv_front.specs.Opening.{IsBrokenFault};
ghost use Rattle.wv_front.specs.Listing.{ArePlaces, LacksFirst, HaveListed, AreMissing, values, listed_by};

use crate::fault::WeaveFault;
use crate::places::ClassPlaces;
use std::alloc::{AllocError, Global};
use std::cmp::Ordering;
use wv_base::{Broken, Memory, Rule, Text};
use wv_classes::FolderClass;
use wv_config::{Config, Configs, LoadedConfig};

/// Checks that every class that a mixin configuration lists is a class of the folder. All lists of
/// all configurations count, whether their mixins are applied or not.
///
/// Rule 24 (MixinMissing) is broken at the configuration that lists another class, the first by its
/// path; `found` is the first such name in the order of the lists `mixins`, `client` and `server`.
///
/// It takes time linear in the classes and entries, but for a logarithm.
pub fn check_listed(
    alloc: Global,
    configs: &Configs,
    classes: &[FolderClass],
) -> Result<(), WeaveFault>
    ensures listed { OnOk result (AreListed configs.now classes.now) }
    ensures missing { IfErr result (IsBrokenFault (IsFirstMissing configs.now classes.now)) }
{
    let places = ClassPlaces::of_folder(alloc, classes)?;
    let ordered = by_path(alloc, configs)?;
    check_each(alloc, ordered.as_slice(), &places)
}

/// The configurations, whether used or not, by the bytes of their paths.
fn by_path<'a>(alloc: Global, configs: &'a Configs) -> Result<Vec<&'a LoadedConfig>, Memory>
    ensures { IfOk result (λ ordered. IsOrderedBy path_of (all_configs configs.now) (values ordered.items)) }
{
    let mut ordered = Vec::new(alloc);
    add_all(&mut ordered, configs.used.as_slice())?;
    add_all(&mut ordered, configs.others.as_slice())?;
    sort_by_path(&mut ordered)?;
    Ok(ordered)
}

fn add_all<'a>(
    ordered: &mut Vec<&'a LoadedConfig>,
    configs: &'a [LoadedConfig],
) -> Result<(), Memory>
    ensures { OnOk result (values ordered.new.items ≡ values ordered.old.items ++ configs.now) }
{
    for config in configs {
        ordered.push(config)?;
    }
    Ok(())
}

fn sort_by_path(configs: &mut Vec<&LoadedConfig>) -> Result<(), AllocError>
    ensures { OnOk result (IsOrderedBy path_of (values configs.old.items) (values configs.new.items)) }
{
    let by_path = |first: &&LoadedConfig, second: &&LoadedConfig| -> Ordering
        ensures { result ≡ slice_cmp nat_cmp first.now.now.path second.now.now.path }
    { first.path.cmp(&second.path) };
    configs.sort_by(by_path)
}

/// Checks the configurations in turn.
fn check_each(
    alloc: Global,
    configs: &[&LoadedConfig],
    places: &ClassPlaces,
) -> Result<(), WeaveFault>
    ensures listed { (names : List (List ℕ)) → ArePlaces names places.now
        → OnOk result (HaveListed names (values configs.now)) }
    ensures missing { (names : List (List ℕ)) → ArePlaces names places.now
        → IfErr result (IsBrokenFault (AreMissing names (values configs.now))) }
{
    for config in configs {
        if let Some(name) = first_missing(alloc, &config.config, places)? {
            return Err(WeaveFault::Broken(missing(alloc, &config.path, name)?));
        }
    }
    Ok(())
}

/// The first class that the configuration lists and that has no place.
fn first_missing(
    alloc: Global,
    config: &Config,
    places: &ClassPlaces,
) -> Result<Option<Text>, Memory>
    ensures { (names : List (List ℕ)) → ArePlaces names places.now
        → IfOk result (LacksFirst names (class_names config.now)) }
{
    let mixin = first_missing_of(alloc, config, config.mixins.as_slice(), places)?;
    if mixin.is_some() {
        return Ok(mixin);
    }
    let client = first_missing_of(alloc, config, config.client.as_slice(), places)?;
    if client.is_some() {
        return Ok(client);
    }
    first_missing_of(alloc, config, config.server.as_slice(), places)
}

/// The first of these entries of the configuration whose class has no place.
fn first_missing_of(
    alloc: Global,
    config: &Config,
    entries: &[Text],
    places: &ClassPlaces,
) -> Result<Option<Text>, Memory>
    ensures { (names : List (List ℕ)) → ArePlaces names places.now
        → IfOk result (LacksFirst names (listed_by config.now entries.now)) }
{
    for entry in entries {
        let name = config.class_of(alloc, entry)?;
        if places.place(&name).is_none() {
            return Ok(Some(name));
        }
    }
    Ok(None)
}

fn missing(alloc: Global, path: &Text, name: Text) -> Result<Broken, Memory>
    ensures { IfOk result (λ broken. broken ≡ broken_at MixinMissing path.now (codes "-") name) }
{
    let mut broken = Broken::at_file(alloc, Rule::MixinMissing, path.as_str())?;
    broken.found = name;
    Ok(broken)
}
