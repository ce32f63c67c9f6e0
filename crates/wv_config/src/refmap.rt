//! Refmaps.
ghost use Rattle.std.specs.Prelude.{◌≡◌, ℕ, List, None, IfOk, IfErr, IfSome, IfNone};
ghost use Rattle.std.specs.Option.{option_map};
ghost use Rattle.serde_json.specs.Data.{Data};
ghost use Rattle.serde_json.specs.View.{view};
ghost use Rattle.wv_config.specs.Refmap.{text_in, text_at, IsRefmapFile, IsRefmap, IsRefmapBroken, AreNames};
ghost use Rattle.wv_config.specs.Fault.{IsFaultOf};

use crate::fault::ConfigFault;
use serde_json::Value;
use std::alloc::Global;
use wv_base::{Broken, Memory, Name, Rule, Text};
use wv_json::{JsonError, read_object, read_text_tables};

/// A refmap (Mixin 0.8.5): for each mixin class, what the references that its annotations write stand
/// for.
#[derive(Debug, Drop)]
pub struct Refmap {
    /// The object that the file is, and `null` where there is no file.
    file: Value,
}

impl Refmap {
    /// The refmap of a file that isn't there: nothing stands for anything else.
    pub fn empty() -> Refmap
        ensures { (class reference : List ℕ) → text_in result class reference ≡ None }
    {
        Refmap { file: Value::Null }
    }

    /// The names of the mixin class: those at its name, which is written with slashes, and none where
    /// the refmap has nothing at it or where the name has a surrogate without a partner.
    pub fn names(&self, alloc: Global, mixin: &Name) -> Result<Names<'_>, Memory>
        ensures { IfOk result (AreNames self.now mixin.now) }
    {
        let Ok(class) = String::from_utf16(alloc, mixin.units())? else {
            return Ok(Names { table: None });
        };
        let mappings = self.file.get("mappings");
        let table = mappings.and_then(|mappings| mappings.get(class.as_str()));
        Ok(Names { table })
    }
}

/// What the references of one mixin class stand for.
#[derive(Debug, Drop)]
pub struct Names<'a> {
    table: Option<&'a Value>,
}

impl<'a> Names<'a> {
    /// What the reference stands for, where it stands for something else.
    pub fn get(&self, reference: &str) -> Option<&'a str>
        ensures { option_map (λ text. text.now) result ≡ text_at self.now reference.now }
    {
        self.table?.get(reference)?.as_str()
    }
}

/// Reads the refmap at `path`. Rule 23 (RefmapBad) is broken where the bytes are no JSON object, and
/// where `mappings` is absent or isn't an object of objects of texts. Other keys are read past.
pub fn read_refmap(alloc: Global, path: &Text, bytes: &[u8]) -> Result<Refmap, ConfigFault>
    ensures read { IfOk result (IsRefmap bytes.now) }
    ensures broken { IfErr result (IsFaultOf (IsRefmapBroken path.now bytes.now)) }
{
    match read_tables(alloc, bytes)? {
        Some(file) => Ok(Refmap { file }),
        None => {
            let broken = Broken::at_file(alloc, Rule::RefmapBad, path.as_str())?;
            Err(ConfigFault::Broken(broken))
        }
    }
}

/// The object that the bytes are, where its `mappings` is an object of objects of texts.
fn read_tables(alloc: Global, bytes: &[u8]) -> Result<Option<Value>, Memory>
    ensures some { IfOk result (λ file. IfSome file (λ file. IsRefmapFile bytes.now (view file))) }
    ensures none { IfOk result (λ file. IfNone file
        ((file : Data) → IsRefmapFile bytes.now file → ⊥)) }
{
    let file = match read_object(alloc, bytes) {
        Ok(file) => file,
        Err(JsonError::Memory) => return Err(Memory),
        Err(JsonError::Wrong) => return Ok(None),
    };
    let Some(mappings) = file.get("mappings") else {
        return Ok(None);
    };
    let tables = read_text_tables(alloc, mappings)?;
    if tables.is_some() {
        Ok(Some(file))
    } else {
        Ok(None)
    }
}
