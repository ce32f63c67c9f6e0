//! Ids of mods.
ghost use Rattle.std.specs.Prelude.{◌≡◌};
ghost use Rattle.std.specs.List.{list_all};
ghost use Rattle.wv_mod.specs.Id.{is_id, is_id_byte};

/// The fewest bytes of an id.
const FEWEST: usize = 2;

/// The most bytes of an id.
const MOST: usize = 64;

/// Whether the text is an id of a mod (fabric.mod.json, `id`): 2 to 64 characters, first a lower-case
/// letter, then lower-case letters, digits, `-` and `_`, all of ASCII.
pub fn is_id(text: &str) -> bool
    ensures { result ≡ is_id text.now }
{
    let bytes = text.as_bytes();
    FEWEST <= bytes.len()
        && bytes.len() <= MOST
        && bytes[0].is_ascii_lowercase()
        && are_id_bytes(bytes)
}

fn are_id_bytes(bytes: &[u8]) -> bool
    ensures { result ≡ list_all is_id_byte bytes.now }
{
    bytes.iter().all(|byte| is_id_byte(*byte))
}

fn is_id_byte(byte: u8) -> bool
    ensures { result ≡ is_id_byte byte }
{
    byte.is_ascii_lowercase() || byte.is_ascii_digit() || byte == b'-' || byte == b'_'
}
