//! Fields of an object.
ghost use Rattle.std.specs.Prelude.{◌↔◌, IfOk, IsTrue, IsSome, option_map};
ghost use Rattle.serde_json.specs.Find.{get};
ghost use Rattle.serde_json.specs.View.{view};
ghost use Rattle.wv_json.specs.Field.{IsField};
ghost use Rattle.wv_json.specs.Kind.{IsText, IsNumber, IsBoolean, IsList, IsThisObject};

use serde_json::Value;
use std::alloc::Global;
use wv_base::{Memory, Text};

/// What stands at a key of an object, read as one kind of value. A value that isn't an object has
/// no keys.
#[derive(Debug, Drop)]
pub enum Field<T> {
    /// The key isn't there.
    Absent,
    /// The key is there, with a value of the kind.
    Is(T),
    /// The key is there, with a value of another kind. `null` is of none of the kinds here.
    Other,
}

/// Whether the key is there, with whatever value.
pub fn has_field(value: &Value, key: &str) -> bool
    ensures { IsTrue result ↔ IsSome (get key.now (view value.now)) }
{
    value.get(key).is_some()
}

/// The text at a key.
pub fn field_text(alloc: Global, value: &Value, key: &str) -> Result<Field<Text>, Memory>
    ensures { IfOk result (IsField IsText (get key.now (view value.now))) }
{
    let Some(found) = value.get(key) else {
        return Ok(Field::Absent);
    };
    let Some(text) = found.as_str() else {
        return Ok(Field::Other);
    };
    Ok(Field::Is(Text::from_str(alloc, text)?))
}

/// The signed 32-bit integer at a key. A number with a fraction or an exponent isn't one, even `1.0`
/// and `1e0`, and neither is `-0`.
pub fn field_number(value: &Value, key: &str) -> Field<i32>
    ensures { IsField IsNumber (get key.now (view value.now)) result }
{
    let Some(found) = value.get(key) else {
        return Field::Absent;
    };
    let Some(number) = found.as_i64() else {
        return Field::Other;
    };
    match i32::try_from(number) {
        Ok(number) => Field::Is(number),
        Err(_) => Field::Other,
    }
}

/// The boolean at a key.
pub fn field_bool(value: &Value, key: &str) -> Field<bool>
    ensures { IsField IsBoolean (get key.now (view value.now)) result }
{
    let Some(found) = value.get(key) else {
        return Field::Absent;
    };
    match found.as_bool() {
        Some(boolean) => Field::Is(boolean),
        None => Field::Other,
    }
}

/// The items of the list at a key.
pub fn field_list<'a>(value: &'a Value, key: &str) -> Field<&'a [Value]>
    ensures { IsField IsList (get key.now (view value.now)) result }
{
    let Some(found) = value.get(key) else {
        return Field::Absent;
    };
    match found.as_array() {
        Some(list) => Field::Is(list.as_slice()),
        None => Field::Other,
    }
}

/// The object at a key.
pub fn field_object<'a>(value: &'a Value, key: &str) -> Field<&'a Value>
    ensures { IsField IsThisObject (get key.now (view value.now)) result }
{
    let Some(found) = value.get(key) else {
        return Field::Absent;
    };
    if found.is_object() {
        Field::Is(found)
    } else {
        Field::Other
    }
}
