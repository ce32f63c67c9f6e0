//! Lists of texts.
ghost use Rattle.std.specs.Prelude.{◌≡◌, IfOk, Some, map};
ghost use Rattle.serde_json.specs.Data.{array};
ghost use Rattle.serde_json.specs.Find.{get};
ghost use Rattle.serde_json.specs.View.{view, items_view};
ghost use Rattle.wv_json.specs.Field.{IsField, IsRead};
ghost use Rattle.wv_json.specs.Kind.{IsTexts, IsTextOrTexts};

use crate::field::Field;
use serde_json::Value;
use std::alloc::Global;
use wv_base::{Items, Memory, Text};

/// The list of texts at a key. A list with an item that isn't a text is of another kind.
pub fn field_texts(alloc: Global, value: &Value, key: &str) -> Result<Field<Items<Text>>, Memory>
    ensures { IfOk result (IsField IsTexts (get key.now (view value.now))) }
{
    let Some(found) = value.get(key) else {
        return Ok(Field::Absent);
    };
    match read_texts(alloc, found)? {
        Some(texts) => Ok(Field::Is(texts)),
        None => Ok(Field::Other),
    }
}

/// The texts of a list of texts. None where the value isn't one.
pub fn read_texts(alloc: Global, value: &Value) -> Result<Option<Items<Text>>, Memory>
    ensures { IfOk result (IsRead IsTexts (view value.now)) }
{
    match value.as_array() {
        Some(list) => texts_of(alloc, list.as_slice()),
        None => Ok(None),
    }
}

/// The texts of a list of texts, or the one text. None where the value is neither.
pub fn read_text_or_texts(alloc: Global, value: &Value) -> Result<Option<Items<Text>>, Memory>
    ensures { IfOk result (IsRead IsTextOrTexts (view value.now)) }
{
    let Some(text) = value.as_str() else {
        return read_texts(alloc, value);
    };
    let mut texts = Items::new(alloc);
    texts.push(Text::from_str(alloc, text)?)?;
    Ok(Some(texts))
}

/// The texts of the items, where each is a text.
fn texts_of(alloc: Global, list: &[Value]) -> Result<Option<Items<Text>>, Memory>
    ensures { IfOk result (IsRead IsTexts (array (items_view list.now))) }
{
    let mut texts = Items::new(alloc);
    for item in list {
        let Some(text) = item.as_str() else {
            return Ok(None);
        };
        texts.push(Text::from_str(alloc, text)?)?;
    }
    Ok(Some(texts))
}
