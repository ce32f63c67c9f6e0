//! Objects whose members are all of one kind.
ghost use Rattle.std.specs.Prelude.{IfOk};
ghost use Rattle.serde_json.specs.Data.{object};
ghost use Rattle.serde_json.specs.View.{view, members_view};
ghost use Rattle.wv_json.specs.Field.{IsRead};
ghost use Rattle.wv_json.specs.Kind.{IsText, IsTextOrTexts, IsObjectOf};

use crate::list::read_text_or_texts;
use serde_json::{Map, Value};
use std::alloc::Global;
use wv_base::{Items, Memory, Text};

/// The keys and texts of an object of texts, in the order of the keys' bytes. None where the value
/// isn't one.
pub fn read_text_members(
    alloc: Global,
    value: &Value,
) -> Result<Option<Items<(Text, Text)>>, Memory>
    ensures { IfOk result (IsRead (IsObjectOf IsText) (view value.now)) }
{
    match value.as_object() {
        Some(map) => text_members(alloc, map),
        None => Ok(None),
    }
}

/// The keys of an object whose members are texts or lists of texts, and these texts, in the order of
/// the keys' bytes. None where the value isn't one.
pub fn read_texts_members(
    alloc: Global,
    value: &Value,
) -> Result<Option<Items<(Text, Items<Text>)>>, Memory>
    ensures { IfOk result (IsRead (IsObjectOf IsTextOrTexts) (view value.now)) }
{
    match value.as_object() {
        Some(map) => texts_members(alloc, map),
        None => Ok(None),
    }
}

/// The keys of an object whose members are objects of texts, and the keys and texts of these, in the
/// order of the keys' bytes. None where the value isn't one.
pub fn read_text_tables(
    alloc: Global,
    value: &Value,
) -> Result<Option<Items<(Text, Items<(Text, Text)>)>>, Memory>
    ensures { IfOk result (IsRead (IsObjectOf (IsObjectOf IsText)) (view value.now)) }
{
    match value.as_object() {
        Some(map) => text_tables(alloc, map),
        None => Ok(None),
    }
}

fn text_members(
    alloc: Global,
    map: &Map<String, Value>,
) -> Result<Option<Items<(Text, Text)>>, Memory>
    ensures { IfOk result (IsRead (IsObjectOf IsText) (object (members_view map.now.entries))) }
{
    let mut entries = Items::new(alloc);
    for (key, value) in map {
        let Some(text) = value.as_str() else {
            return Ok(None);
        };
        let key = Text::from_str(alloc, key.as_str())?;
        entries.push((key, Text::from_str(alloc, text)?))?;
    }
    Ok(Some(entries))
}

fn texts_members(
    alloc: Global,
    map: &Map<String, Value>,
) -> Result<Option<Items<(Text, Items<Text>)>>, Memory>
    ensures { IfOk result
        (IsRead (IsObjectOf IsTextOrTexts) (object (members_view map.now.entries))) }
{
    let mut entries = Items::new(alloc);
    for (key, value) in map {
        let Some(texts) = read_text_or_texts(alloc, value)? else {
            return Ok(None);
        };
        entries.push((Text::from_str(alloc, key.as_str())?, texts))?;
    }
    Ok(Some(entries))
}

fn text_tables(
    alloc: Global,
    map: &Map<String, Value>,
) -> Result<Option<Items<(Text, Items<(Text, Text)>)>>, Memory>
    ensures { IfOk result
        (IsRead (IsObjectOf (IsObjectOf IsText)) (object (members_view map.now.entries))) }
{
    let mut tables = Items::new(alloc);
    for (key, value) in map {
        let Some(table) = read_text_members(alloc, value)? else {
            return Ok(None);
        };
        tables.push((Text::from_str(alloc, key.as_str())?, table))?;
    }
    Ok(Some(tables))
}
