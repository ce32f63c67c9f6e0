//! Values at the keys of a mixin configuration.
ghost use Rattle.std.specs.Prelude.{[], IfOk, IfErr, false};
ghost use Rattle.serde_json.specs.Find.{get};
ghost use Rattle.serde_json.specs.View.{view};
ghost use Rattle.wv_json.specs.Kind.{IsText, IsTexts, IsNumber, IsBoolean};
ghost use Rattle.wv_config.specs.Key.{name_of, IsWrongAt};
ghost use Rattle.wv_config.specs.Stands.{IsThere, IsOrElse, IsThereOrNone, IsWithin};

use crate::key::{Key, KeyFault};
use serde_json::Value;
use std::alloc::Global;
use wv_base::{Items, Text};
use wv_json::{Field, field_bool, field_number, field_text, field_texts};

/// The text at a key that has to be there.
pub(crate) fn text_at(alloc: Global, value: &Value, key: Key) -> Result<Text, KeyFault>
    ensures read { IfOk result (IsThere IsText (get (name_of key) (view value.now))) }
    ensures wrong { IfErr result (IsWrongAt key (IsThere IsText (get (name_of key) (view value.now)))) }
{
    match field_text(alloc, value, key.name())? {
        Field::Is(text) => Ok(text),
        Field::Absent | Field::Other => Err(KeyFault::Wrong(key)),
    }
}

/// The text at a key that may be absent.
pub(crate) fn optional_text_at(
    alloc: Global,
    value: &Value,
    key: Key,
) -> Result<Option<Text>, KeyFault>
    ensures read { IfOk result (IsThereOrNone IsText (get (name_of key) (view value.now))) }
    ensures wrong { IfErr result
        (IsWrongAt key (IsThereOrNone IsText (get (name_of key) (view value.now)))) }
{
    match field_text(alloc, value, key.name())? {
        Field::Absent => Ok(None),
        Field::Is(text) => Ok(Some(text)),
        Field::Other => Err(KeyFault::Wrong(key)),
    }
}

/// The list of texts at a key, the empty one where the key is absent.
pub(crate) fn texts_at(alloc: Global, value: &Value, key: Key) -> Result<Items<Text>, KeyFault>
    ensures read { IfOk result (IsOrElse IsTexts [] (get (name_of key) (view value.now))) }
    ensures wrong { IfErr result
        (IsWrongAt key (IsOrElse IsTexts [] (get (name_of key) (view value.now)))) }
{
    match field_texts(alloc, value, key.name())? {
        Field::Absent => Ok(Items::new(alloc)),
        Field::Is(texts) => Ok(texts),
        Field::Other => Err(KeyFault::Wrong(key)),
    }
}

/// The number at a key, `default` where the key is absent.
pub(crate) fn number_at(value: &Value, key: Key, default: i32) -> Result<i32, KeyFault>
    ensures read { IfOk result (IsOrElse IsNumber default (get (name_of key) (view value.now))) }
    ensures wrong { IfErr result
        (IsWrongAt key (IsOrElse IsNumber default (get (name_of key) (view value.now)))) }
{
    match field_number(value, key.name()) {
        Field::Absent => Ok(default),
        Field::Is(number) => Ok(number),
        Field::Other => Err(KeyFault::Wrong(key)),
    }
}

/// The number at a key within the object at another, `default` where one of the two is absent.
pub(crate) fn number_within(
    value: &Value,
    outer: &str,
    inner: &str,
    default: i32,
    key: Key,
) -> Result<i32, KeyFault>
    ensures read { IfOk result
        (IsWithin (IsOrElse IsNumber default) inner.now (get outer.now (view value.now))) }
    ensures wrong { IfErr result (IsWrongAt key
        (IsWithin (IsOrElse IsNumber default) inner.now (get outer.now (view value.now)))) }
{
    let Some(object) = value.get(outer) else {
        return Ok(default);
    };
    if !object.is_object() {
        return Err(KeyFault::Wrong(key));
    }
    match field_number(object, inner) {
        Field::Absent => Ok(default),
        Field::Is(number) => Ok(number),
        Field::Other => Err(KeyFault::Wrong(key)),
    }
}

/// The boolean at a key within the object at another, false where one of the two is absent.
pub(crate) fn bool_within(
    value: &Value,
    outer: &str,
    inner: &str,
    key: Key,
) -> Result<bool, KeyFault>
    ensures read { IfOk result
        (IsWithin (IsOrElse IsBoolean false) inner.now (get outer.now (view value.now))) }
    ensures wrong { IfErr result (IsWrongAt key
        (IsWithin (IsOrElse IsBoolean false) inner.now (get outer.now (view value.now)))) }
{
    let Some(object) = value.get(outer) else {
        return Ok(false);
    };
    if !object.is_object() {
        return Err(KeyFault::Wrong(key));
    }
    match field_bool(object, inner) {
        Field::Absent => Ok(false),
        Field::Is(boolean) => Ok(boolean),
        Field::Other => Err(KeyFault::Wrong(key)),
    }
}
