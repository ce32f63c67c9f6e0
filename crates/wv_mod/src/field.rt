//! Fields of a description.
ghost use Rattle.std.specs.Prelude.{◌≡◌, ◌↔◌, [], IsTrue, IfOk};
ghost use Rattle.serde_json.specs.Find.{get};
ghost use Rattle.serde_json.specs.View.{view};
ghost use Rattle.wv_json.specs.Kind.{IsText, IsTexts, IsTextOrTexts, IsObjectOf};
ghost use Rattle.wv_mod.specs.declared.environment.Environment.TheVariants.{Both};
ghost use Rattle.wv_mod.specs.Field.{IsFound, IsRequired, IsOptional};
ghost use Rattle.wv_mod.specs.Environment.{IsEnvironment};
ghost use Rattle.wv_mod.specs.Manifest.{HasSchema};
ghost use Rattle.wv_mod.specs.Flaw.{HasNoJars};

use crate::environment::Environment;
use serde_json::Value;
use std::alloc::Global;
use wv_base::{Items, Memory, Text};
use wv_json::{Field, field_list, field_number, field_text, field_texts, read_texts_members};

/// Whether the schema version is 1.
pub(crate) fn has_schema(value: &Value) -> bool
    ensures { IsTrue result ↔ HasSchema (view value.now) }
{
    match field_number(value, "schemaVersion") {
        Field::Is(number) => number == 1,
        _ => false,
    }
}

/// Whether jars are absent, or an empty list.
pub(crate) fn has_no_jars(value: &Value) -> bool
    ensures { IsTrue result ↔ HasNoJars (view value.now) }
{
    match field_list(value, "jars") {
        Field::Absent => true,
        Field::Is(list) => list.is_empty(),
        Field::Other => false,
    }
}

/// The text at a key that has to be there.
pub(crate) fn text_at(alloc: Global, value: &Value, key: &str) -> Result<Option<Text>, Memory>
    ensures { IfOk result (IsFound (IsRequired IsText (get key.now (view value.now)))) }
{
    match field_text(alloc, value, key)? {
        Field::Is(text) => Ok(Some(text)),
        _ => Ok(None),
    }
}

/// The list of texts at a key, which is empty where the key isn't there.
pub(crate) fn texts_at(
    alloc: Global,
    value: &Value,
    key: &str,
) -> Result<Option<Items<Text>>, Memory>
    ensures { IfOk result (IsFound (IsOptional IsTexts [] (get key.now (view value.now)))) }
{
    match field_texts(alloc, value, key)? {
        Field::Absent => Ok(Some(Items::new(alloc))),
        Field::Is(texts) => Ok(Some(texts)),
        Field::Other => Ok(None),
    }
}

/// The environment at a key, which is `*` where the key isn't there.
pub(crate) fn environment_at(
    alloc: Global,
    value: &Value,
    key: &str,
) -> Result<Option<Environment>, Memory>
    ensures { IfOk result
        (IsFound (IsOptional IsEnvironment Both (get key.now (view value.now)))) }
{
    match field_text(alloc, value, key)? {
        Field::Absent => Ok(Some(Environment::Both)),
        Field::Is(text) => Ok(Environment::read(text.as_str())),
        Field::Other => Ok(None),
    }
}

/// The ids with texts at a key, which are none where the key isn't there.
pub(crate) fn entries_at(
    alloc: Global,
    value: &Value,
    key: &str,
) -> Result<Option<Items<(Text, Items<Text>)>>, Memory>
    ensures { IfOk result
        (IsFound (IsOptional (IsObjectOf IsTextOrTexts) [] (get key.now (view value.now)))) }
{
    match value.get(key) {
        None => Ok(Some(Items::new(alloc))),
        Some(found) => read_texts_members(alloc, found),
    }
}
