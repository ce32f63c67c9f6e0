//! Bytes as a JSON object.
ghost use Rattle.std.specs.Prelude.{◌≡◌, IfOk, Err};
ghost use Rattle.serde_json.specs.Data.{Data};
ghost use Rattle.serde_json.specs.View.{view};
ghost use Rattle.wv_json.specs.Object.{IsObjectText};

use crate::error::JsonError;
use serde_json::Value;
use std::alloc::Global;

/// The object that the bytes are, as `serde_json` reads them (RFC 8259, with arrays and objects
/// nested 127 deep at most). `Wrong` comes where they are no JSON text, and where their value isn't
/// an object.
pub fn read_object(alloc: Global, bytes: &[u8]) -> Result<Value, JsonError>
    ensures found { IfOk result (λ value. IsObjectText bytes.now (view value)) }
    ensures wrong { result ≡ Err JsonError.Wrong
        → (value : Data) → IsObjectText bytes.now value → ⊥ }
{
    match Value::from_slice(alloc, bytes) {
        Ok(value) => {
            if value.is_object() {
                Ok(value)
            } else {
                Err(JsonError::Wrong)
            }
        }
        Err(error) => {
            if error.is_memory() {
                Err(JsonError::Memory)
            } else {
                Err(JsonError::Wrong)
            }
        }
    }
}
