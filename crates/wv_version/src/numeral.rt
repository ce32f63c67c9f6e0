//! Decimal numbers.
ghost use Rattle.std.specs.Prelude.{◌≡◌, IfOk};
ghost use Rattle.wv_version.specs.Reading.{is_numeral, number_of, numbers_of};

use crate::cut::cut;
use std::alloc::Global;
use wv_base::{Items, Memory};

/// The most digits of a number. All such numbers fit a `u64`.
const MOST_DIGITS: usize = 18;

/// The number that 1 to 18 decimal digits stand for. Zeros may lead.
pub(crate) fn read_number(text: &str) -> Option<u64>
    ensures { result ≡ number_of text.now }
{
    if !is_numeral(text) {
        return None;
    }
    text.parse().ok()
}

/// Whether the text is 1 to 18 decimal digits.
fn is_numeral(text: &str) -> bool
    ensures { result ≡ is_numeral text.now }
{
    !text.is_empty()
        && text.len() <= MOST_DIGITS
        && text.as_bytes().iter().all(|byte| byte.is_ascii_digit())
}

/// The numbers between dots.
pub(crate) fn read_numbers(alloc: Global, text: &str) -> Result<Option<Items<u64>>, Memory>
    ensures { IfOk result (λ read. read ≡ numbers_of text.now) }
{
    let mut numbers = Items::new(alloc);
    let mut rest = Some(text);
    while let Some(text) = rest {
        let (piece, after) = cut(text, '.');
        let Some(number) = read_number(piece) else {
            return Ok(None);
        };
        numbers.push(number)?;
        rest = after;
    }
    Ok(Some(numbers))
}
