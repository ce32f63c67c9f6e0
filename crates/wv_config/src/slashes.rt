//! Slashes in place of dots.
ghost use Rattle.std.specs.Prelude.{◌≡◌, IfOk, map};
ghost use Rattle.wv_config.specs.Slashes.{with_slash, with_slashes};

use std::alloc::Global;
use wv_base::{Items, Memory, Text};

/// The text with a slash for each dot.
pub(crate) fn with_slashes(alloc: Global, text: &Text) -> Result<Text, Memory>
    ensures { IfOk result (λ slashed. slashed ≡ with_slashes text.now) }
{
    let text = text.as_str();
    let bytes = bytes_with_slashes(alloc, text.as_bytes())?;
    Ok(Text::from_string(String::from_utf8(bytes).unwrap()))
}

fn bytes_with_slashes(alloc: Global, bytes: &[u8]) -> Result<Vec<u8>, Memory>
    ensures { IfOk result (λ slashed. slashed.items ≡ with_slashes bytes.now) }
{
    Ok(bytes.iter().map(|byte| slash(*byte)).collect(alloc)?)
}

fn slash(byte: u8) -> u8
    ensures { result ≡ with_slash byte }
{
    if byte == b'.' { b'/' } else { byte }
}

/// The texts with a slash for each dot.
pub(crate) fn all_with_slashes(alloc: Global, texts: &Items<Text>) -> Result<Items<Text>, Memory>
    ensures { IfOk result (λ slashed. slashed ≡ map with_slashes texts.now) }
{
    let mut slashed = Items::new(alloc);
    for text in texts.as_slice() {
        slashed.push(with_slashes(alloc, text)?)?;
    }
    Ok(slashed)
}
