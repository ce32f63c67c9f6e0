//! Names as they are printed.
ghost use Rattle.std.specs.Prelude.{◌≡◌, ◌<◌, ◌∷◌, length, IsTrue, IfOk, encode_utf8_all};
ghost use Rattle.std.specs.Char.Utf16.{is_high_surrogate, is_low_surrogate, surrogate_pair_char};
ghost use Rattle.wv_base.specs.Shown.{lone_character, shown_characters};

use crate::memory::Memory;
use crate::name::Name;
use crate::text::Text;
use std::alloc::Global;

fn is_high(unit: u16) -> bool
    ensures { result ≡ is_high_surrogate unit }
{
    0xd800 <= unit && unit < 0xdc00
}

fn is_low(unit: u16) -> bool
    ensures { result ≡ is_low_surrogate unit }
{
    0xdc00 <= unit && unit < 0xe000
}

/// The character of a pair of surrogates.
fn pair(high: u16, low: u16) -> char
    requires high { IsTrue (is_high_surrogate high) }
    requires low { IsTrue (is_low_surrogate low) }
    ensures { result ≡ surrogate_pair_char high low }
{
    let code = 0x1_0000 + (high as u32 - 0xd800) * 0x400 + (low as u32 - 0xdc00);
    char::from_u32(code).unwrap()
}

/// The character of a unit that is in no pair.
fn lone(unit: u16) -> char
    ensures { result ≡ lone_character unit }
{
    char::from_u32(unit as u32).unwrap_or('?')
}

/// The character that the units begin with, and the units after it.
#[tactic(auto, unfolding(crate::specs::Shown::shown_characters))]
fn first_character(units: &[u16]) -> (char, &[u16])
    requires { 0 < length units.now }
    ensures character { shown_characters units.now ≡ result.0 ∷ shown_characters result.1.now }
    ensures shorter { length result.1.now < length units.now }
{
    match units {
        [high, low, rest @ ..] if is_high(*high) && is_low(*low) => (pair(*high, *low), rest),
        [unit, rest @ ..] => (lone(*unit), rest),
        [] => unreachable!(),
    }
}

/// The text of a name, with `?` for each surrogate that has no partner.
pub fn shown(alloc: Global, name: &Name) -> Result<Text, Memory>
    ensures { IfOk result (λ text. text ≡ encode_utf8_all (shown_characters name.now)) }
{
    let mut text = String::new(alloc);
    let mut rest = name.units();
    while !rest.is_empty() {
        let (character, after) = first_character(rest);
        text.push(character)?;
        rest = after;
    }
    Ok(Text::from_string(text))
}
