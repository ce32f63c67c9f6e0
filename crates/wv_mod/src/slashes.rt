//! Names of classes that are written with dots or slashes.
ghost use Rattle.std.specs.Prelude.{◌≡◌, IfOk};
ghost use Rattle.std.specs.List.{list_all};
ghost use Rattle.wv_base.specs.Names.{is_name_unit, is_unqualified, is_class_name};
ghost use Rattle.wv_mod.specs.Slashes.{with_slashes};

use std::alloc::Global;
use wv_base::{Memory, Text};

/// The text with a slash for each dot.
pub(crate) fn with_slashes(alloc: Global, text: &str) -> Result<Text, Memory>
    ensures { IfOk result (λ slashed. slashed ≡ with_slashes text.now) }
{
    let mut slashed = String::new(alloc);
    for (place, part) in text.split('.').enumerate() {
        if place > 0 {
            slashed.push('/')?;
        }
        slashed.push_str(part)?;
    }
    Ok(Text::from_string(slashed))
}

fn is_name_byte(byte: u8) -> bool
    ensures { result ≡ is_name_unit byte }
{
    !matches!(byte, b'.' | b';' | b'[' | b'/')
}

fn are_name_bytes(bytes: &[u8]) -> bool
    ensures { result ≡ list_all is_name_unit bytes.now }
{
    bytes.iter().all(|byte| is_name_byte(*byte))
}

fn is_unqualified(bytes: &[u8]) -> bool
    ensures { result ≡ is_unqualified bytes.now }
{
    !bytes.is_empty() && are_name_bytes(bytes)
}

/// Whether the text is the name of a class in internal form (JVM Specification 4.2.1): parts with
/// slashes between them, none of them empty or with one of `.`, `;` and `[`.
pub(crate) fn is_class_name(text: &str) -> bool
    ensures { result ≡ is_class_name text.now }
{
    text.as_bytes()
        .split(|byte| *byte == b'/')
        .all(is_unqualified)
}
