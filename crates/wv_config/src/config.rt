//! Mixin configurations.
ghost use Rattle.std.specs.Prelude.{◌≡◌, IfOk, IfErr};
ghost use Rattle.serde_json.specs.View.{view};
ghost use Rattle.wv_base.specs.declared.rule.Rule.TheVariants.{ConfigBad};
ghost use Rattle.wv_config.specs.Config.{IsConfigOf, IsKeyFault, IsConfig, IsConfigBroken};
ghost use Rattle.wv_config.specs.Slashes.{class_of};
ghost use Rattle.wv_config.specs.Fault.{broken_at, IsFaultOf};

use crate::fault::ConfigFault;
use crate::field::{bool_within, number_at, number_within, optional_text_at, text_at, texts_at};
use crate::key::{Key, KeyFault};
use crate::slashes::{all_with_slashes, with_slashes};
use serde_json::Value;
use std::alloc::Global;
use wv_base::{Broken, Items, Memory, Rule, Text};
use wv_json::{JsonError, has_field, read_object};

/// A mixin configuration (Mixin 0.8.5). Its package and the entries of its three lists are kept with
/// slashes, though they may be written with dots.
#[derive(Debug, Drop)]
pub struct Config {
    pub package: Text,
    /// Classes within the package that are mixins on both sides.
    pub mixins: Items<Text>,
    /// Those of the client alone.
    pub client: Items<Text>,
    /// Those of the server alone.
    pub server: Items<Text>,
    /// The path of the refmap.
    pub refmap: Option<Text>,
    /// The place among configurations: the least comes first.
    pub priority: i32,
    /// The priority of a mixin that names none.
    pub mixin_priority: i32,
    /// How often an injector that doesn't say so has to match.
    pub default_require: i32,
    /// Whether each overwrite has to carry its annotation.
    pub require_annotations: bool,
}

impl Config {
    /// The configuration that the object is.
    #[tactic(auto, using(crate::proofs::FirstWrong::first_wrong))]
    fn of(alloc: Global, value: &Value) -> Result<Config, KeyFault>
        ensures read { IfOk result (IsConfigOf (view value.now)) }
        ensures wrong { IfErr result (IsKeyFault (view value.now)) }
    {
        let package = with_slashes(alloc, &text_at(alloc, value, Key::Package)?)?;
        let mixins = all_with_slashes(alloc, &texts_at(alloc, value, Key::Mixins)?)?;
        let client = all_with_slashes(alloc, &texts_at(alloc, value, Key::Client)?)?;
        let server = all_with_slashes(alloc, &texts_at(alloc, value, Key::Server)?)?;
        let refmap = optional_text_at(alloc, value, Key::Refmap)?;
        let priority = number_at(value, Key::Priority, 1000)?;
        let mixin_priority = number_at(value, Key::MixinPriority, 1000)?;
        let default_require = number_within(
            value,
            "injectors",
            "defaultRequire",
            0,
            Key::DefaultRequire,
        )?;
        let require_annotations = bool_within(
            value,
            "overwrites",
            "requireAnnotations",
            Key::RequireAnnotations,
        )?;
        Ok(Config {
            package,
            mixins,
            client,
            server,
            refmap,
            priority,
            mixin_priority,
            default_require,
            require_annotations,
        })
    }

    /// The name of the mixin class that an entry of one of the lists stands for.
    pub fn class_of(&self, alloc: Global, entry: &Text) -> Result<Text, Memory>
        ensures { IfOk result (λ class. class ≡ class_of self.now.«package» entry.now) }
    {
        let mut class = String::from_str(alloc, self.package.as_str())?;
        class.push('/')?;
        class.push_str(entry.as_str())?;
        Ok(Text::from_string(class))
    }
}

/// Reads the mixin configuration at `path`. Keys that aren't kept are read past, but for `plugin`.
///
/// Rule 21 (ConfigBad) is broken where the bytes are no JSON object, and where a key is absent or of
/// another kind than it has to be: `found` is `json`, or the first wrong key. Rule 22 (PluginNamed)
/// is broken where no key is wrong and the key `plugin` is there, with whatever value.
pub fn read_config(alloc: Global, path: &Text, bytes: &[u8]) -> Result<Config, ConfigFault>
    ensures read { IfOk result (IsConfig bytes.now) }
    ensures broken { IfErr result (IsFaultOf (IsConfigBroken path.now bytes.now)) }
{
    let value = match read_object(alloc, bytes) {
        Ok(value) => value,
        Err(JsonError::Memory) => return Err(ConfigFault::Memory),
        Err(JsonError::Wrong) => {
            return Err(ConfigFault::Broken(config_bad(alloc, path, "json")?));
        }
    };
    let config = match Config::of(alloc, &value) {
        Ok(config) => config,
        Err(KeyFault::Memory) => return Err(ConfigFault::Memory),
        Err(KeyFault::Wrong(key)) => {
            return Err(ConfigFault::Broken(config_bad(alloc, path, key.name())?));
        }
    };
    if has_field(&value, "plugin") {
        let broken = Broken::at_file(alloc, Rule::PluginNamed, path.as_str())?;
        return Err(ConfigFault::Broken(broken));
    }
    Ok(config)
}

fn config_bad(alloc: Global, path: &Text, found: &str) -> Result<Broken, Memory>
    ensures { IfOk result (λ broken. broken ≡ broken_at ConfigBad path.now found.now) }
{
    let mut broken = Broken::at_file(alloc, Rule::ConfigBad, path.as_str())?;
    broken.found = Text::from_str(alloc, found)?;
    Ok(broken)
}
